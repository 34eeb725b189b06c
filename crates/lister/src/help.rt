// What the program answers to --help.
use program::help::Manual;

pub const MANUAL: Manual<'static> = Manual {
    purpose: b"lister: the rows of an image, one a line, in the sheet's notation.\n",
    usage: b"usage: lister [--device NAME [--p3 N]] IMAGE [ADDRESS [COUNT]]\n",
    rest: b"  --device NAME  EM73862 (the default) or EM73P982
  --p3 N         P3, decimal, with --device EM73P982 (the default is 0)
  IMAGE          a file of 8,192 bytes, of the EM73P982 of 16,384
  ADDRESS        one to four hexadecimal digits (the default is 0000)
  COUNT          how many lines, decimal (the default is up to the end)
  --help, -h     this text; --version the version. Each as the first word.

example: lister examples/kitchen-timer.bin 100 5

answers:
  refused 01     the image cannot be read, or it has another size
  refused 02     --p3 is over 15, or its bits 1..0 are 3
  refused 20     ADDRESS is no address, or it is over 1FFF
In the place of a row, and the list goes on:
  refused 30     unassigned code
  refused 35     the code passes the end of the image

The exit status is 0 also for a refusal: a script goes by the first word of
the answer.
",
};

// What the program answers to --help.
use program::help::Manual;

pub const MANUAL: Manual<'static> = Manual {
    purpose: b"certify: a page about the interrupt handlers of an image, to be signed.\n",
    usage: b"usage: certify [--device NAME [--p3 N]] IMAGE\n",
    rest: b"  --device NAME  EM73862 (the default) or EM73P982
  --p3 N         P3, decimal, with --device EM73P982 (the default is 0)
  IMAGE          a file of 8,192 bytes, of the EM73P982 of 16,384
  --help, -h     this text; --version the version. Each as the first word.

example: certify examples/kitchen-timer.bin

answers:
  CERTIFICATE    the image's SHA-256, size and device; for each of the five entries
                 its bound with the rows of N's path and the sheet's line for each,
                 or its refusal; what N promises; the sheet's lines that were used
  refused 01     the image cannot be read, or it has another size
  refused 02     --p3 is over 15, or its bits 1..0 are 3

The exit status is 0 also for a refusal: a script goes by the first word of
the answer.
",
};

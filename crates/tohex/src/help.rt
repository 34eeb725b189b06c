// What the program answers to --help.
use program::help::Manual;

pub const MANUAL: Manual<'static> = Manual {
    purpose: b"tohex: the text of an image as Intel HEX.\n",
    usage: b"usage: tohex [--device NAME] IMAGE\n",
    rest: b"  --device NAME  EM73862 (the default) or EM73P982
  IMAGE          a file of 8,192 bytes, of the EM73P982 of 16,384
  --help, -h     this text; --version the version. Each as the first word.

example: tohex examples/kitchen-timer.bin > kitchen-timer.hex

answers:
  refused 01     the image cannot be read, or it has another size

The exit status is 0 also for a refusal: a script goes by the first word of
the answer.
",
};

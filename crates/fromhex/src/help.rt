// What the program answers to --help.
use program::help::Manual;

pub const MANUAL: Manual<'static> = Manual {
    purpose: b"fromhex: the image that a text of Intel HEX gives.\n",
    usage: b"usage: fromhex [--device NAME] < TEXT\n",
    rest: b"  --device NAME  EM73862 (the default) or EM73P982
  TEXT           data records and the end record; bytes that none gives are FF
  --help, -h     this text; --version the version. Each as the first word.

example: tohex examples/kitchen-timer.bin | fromhex > image.bin

answers:
A fault is a line on standard error, as \"refused 41 line 7\", and no image is
written:
  refused 40     a line is malformed, or the end record has bytes
  refused 41     the sum of a record is wrong
  refused 42     a record is neither data nor the end
  refused 43     a byte lies past 1FFF, of the EM73P982 past 3FFF
  refused 44     a byte is given twice
  refused 45     the end record is missing, or text follows it

The exit status is 0 also for a refusal: a script goes by the size of what was
written, which is 8,192 bytes, of the EM73P982 16,384, or none.
",
};

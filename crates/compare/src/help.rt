// What the program answers to --help.
use program::help::Manual;

pub const MANUAL: Manual<'static> = Manual {
    purpose: b"compare: whether a listing is what runner prints for an image and a script.\n",
    usage: b"usage: compare [--device NAME] IMAGE SCRIPT LISTING\n",
    rest: b"  --device NAME  EM73862 (the default) or EM73P982
  IMAGE          a file of 8,192 bytes, of the EM73P982 of 16,384
  SCRIPT         a file with a frame a line: three digits, of the EM73P982 four
  LISTING        the file to judge
  --help, -h     this text; --version the version. Each as the first word.

example: compare examples/kitchen-timer.bin examples/kitchen-timer.frames LISTING

answers:
  same           the listing is the runner's
  differs line 17 field 2   the first difference: the header is line 1; fields
                 1 to 8 are PC A H L S CZS C X; 0 is a missing or an extra line,
                 the header, or the spacing
  refused 01     the image cannot be read, or it has another size
  refused 03     a line of the script is no frame
A listing that cannot be read: the line \"cannot read\" on standard error.
A script that cannot be read is refused 03 too.

The exit status is 0 also where they differ: a script goes by the first word of
the answer.
",
};

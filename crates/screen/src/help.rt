// What the program answers to --help.
use program::help::Manual;

pub const MANUAL: Manual<'static> = Manual {
    purpose: b"screen: the display after a step of a script, 40 dots in each of 8 rows.\n",
    usage: b"usage: screen [--device NAME] [--pbm] IMAGE [STEP] < SCRIPT\n",
    rest: b"  --device NAME  EM73862 (the default) or EM73P982
  --pbm          a picture as plain PBM, not signs: # on, . off
  IMAGE          a file of 8,192 bytes, of the EM73P982 of 16,384
  STEP           the step after which to look, decimal from 1 (the default is
                 the last of the script, or the one that stops)
  SCRIPT         a frame a line: three hexadecimal digits, of the EM73P982 four
  --help, -h     this text; --version the version. Each as the first word.

example: screen examples/kitchen-timer.bin < examples/kitchen-timer.frames

answers:
  refused 01     the image cannot be read, or it has another size
  refused 03     a line of the script is no frame
A STEP past the end of the run answers nothing.

The exit status is 0 also for a refusal: a script goes by the first word of
the answer.
",
};

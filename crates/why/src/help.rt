// What the program answers to --help.
use program::help::Manual;

pub const MANUAL: Manual<'static> = Manual {
    purpose: b"why: tells for each step why an interrupt was taken or not.\n",
    usage: b"usage: why [--device NAME] IMAGE [STEP] < SCRIPT\n",
    rest: b"  --device NAME  EM73862 (the default) or EM73P982
  IMAGE          a file of 8,192 bytes, of the EM73P982 of 16,384
  STEP           the only step to tell of, decimal from 1
  SCRIPT         a frame a line: three hexadecimal digits, of the EM73P982 four
  --help, -h     this text; --version the version. Each as the first word.

example: why examples/kitchen-timer.bin 72 < examples/kitchen-timer.frames

answers:
  refused 01     the image cannot be read, or it has another size
  refused 03     a line of the script is no frame
Else the number of the step, PC before it, and one of: sleeping; holding;
EI clear; nothing latched; masked, stack level or accepted, and the sources.

The exit status is 0 also for a refusal: a script goes by the first word of
the last line.
",
};

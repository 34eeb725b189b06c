// What the program answers to --help.
use program::help::Manual;

pub const MANUAL: Manual<'static> = Manual {
    purpose: b"runner: runs an image for a script of frames and prints a line for each step.\n",
    usage: b"usage: runner [--device NAME] IMAGE < SCRIPT\n",
    rest: b"  --device NAME  EM73862 (the default) or EM73P982
  IMAGE          a file of 8,192 bytes, of the EM73P982 of 16,384
  SCRIPT         a frame a line: three hexadecimal digits, of the EM73P982 four
  --help, -h     this text; --version the version. Each as the first word.

example: runner examples/kitchen-timer.bin < examples/kitchen-timer.frames

answers:
  refused 01     the image cannot be read, or it has another size
  refused 03     a line of the script is no frame
The columns: PC, ACC, HR, LR, SP, CF ZF SF, the cycles, and 00 or the stop that
ends the run:
  30             unassigned code
  31             absent RAM address
  32             stack level
  33             absent port
  34             a reserved value was written to a port
  35             the code passes the end of the image

The exit status is 0 also for a refusal or a stop: a script goes by the first
word of the last line, and by its last.
",
};

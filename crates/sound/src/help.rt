// What the program answers to --help.
use program::help::Manual;

pub const MANUAL: Manual<'static> = Manual {
    purpose: b"sound: the state of the sound pin after each command on standard input.\n",
    usage: b"usage: sound < COMMANDS\n",
    rest: b"  COMMANDS       a command a line:
                 p30 N, p24 N, p23 N   a write of the port, N decimal 0 to 15
                 advance N             so many pulses of the basic frequency
                 sleep, wake, reset
  --help, -h     this text; --version the version. Each as the first word.

example: echo \"p30 1\" | sound

answers:
  mode 1 asleep 0 tf 255 count 0 tone 1 bits 1FF output 1   the state
  not a command  another line; the state stays, as after a refusal
  refused 48     more pulses than 65535
  refused 49     TF is 0 while tone or random is on

The exit status is 0 also for a refusal: a script goes by the first word of
the answer.
",
};

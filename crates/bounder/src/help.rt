// What the program answers to --help.
use program::help::Manual;

pub const MANUAL: Manual<'static> = Manual {
    purpose: b"bounder: the most cycles from an address to RTI, and the greatest depth of calls.\n",
    usage: b"usage: bounder [--device NAME [--p3 N]] IMAGE [ADDRESS]\n",
    rest: b"  --device NAME  EM73862 (the default) or EM73P982
  --p3 N         P3, decimal, with --device EM73P982 (the default is 0)
  IMAGE          a file of 8,192 bytes, of the EM73P982 of 16,384
  ADDRESS        one to four hexadecimal digits; without it the five interrupt
                 entries, a line each
  --help, -h     this text; --version the version. Each as the first word.

example: bounder examples/kitchen-timer.bin 6

answers:
  N 36           the most cycles; then a path that takes them, each line with the
                 sum of cycles, then the depth with a path that comes to it
  refused 01     the image cannot be read, or it has another size
  refused 02     --p3 is over 15, or its bits 1..0 are 3
  refused 20     ADDRESS is no address, or it is over 1FFF
  refused 21     an excluded instruction can be reached; its lowest address
  refused 22     a repetition can be reached; its lowest address
  refused 24     a routine can reach a call of itself; the lowest such entry
  refused 25     the most cycles are over 65535

The exit status is 0 also for a refusal: a script goes by the first word of
the answer.
",
};

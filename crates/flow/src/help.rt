// What the program answers to --help.
use program::help::Manual;

pub const MANUAL: Manual<'static> = Manual {
    purpose: b"flow: the flow of a handler as a picture, in Graphviz's DOT.\n",
    usage: b"usage: flow [--device NAME [--p3 N]] IMAGE ADDRESS\n",
    rest: b"  --device NAME  EM73862 (the default) or EM73P982
  --p3 N         P3, decimal, with --device EM73P982 (the default is 0)
  IMAGE          a file of 8,192 bytes, of the EM73P982 of 16,384
  ADDRESS        one to four hexadecimal digits
  --help, -h     this text; --version the version. Each as the first word.

example: flow examples/calling-handler.bin 6 > handler.dot

answers:
  // N 41        the bounder's answer as a comment, then a box for each address
                 that may be reached and an arrow to what may follow it; a dashed
                 one goes into a called routine. N's path is bold; red is where
                 nothing goes on, and the address that 21, 22 or 24 names.
                 dot -Tsvg makes the picture
  refused 01     the image cannot be read, or it has another size
  refused 02     --p3 is over 15, or its bits 1..0 are 3
  refused 20     ADDRESS is no address, or it is over 1FFF

The exit status is 0 also for a refusal: a script goes by the first word of
the answer.
",
};

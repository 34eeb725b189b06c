// What the program sound writes: a line for each command, and the lines for a part of its input.
#![tactic(auto)]

pub mod command;

ghost use Rattle.std.specs.Prelude.{◌≡◌, [], ◌∷◌, ◌++◌, ◌+◌, ◌*◌, ◌≤◌, length};
ghost use Rattle.text.specs.Digits.{decimal as decimalOf};
ghost use Rattle.text.specs.Script.{lines_of};
ghost use Rattle.sound_text.specs.Entry.{Fits};
ghost use Rattle.sound_text.specs.Telling.{tone_fields, output_fields, state_line, performed, text_of, state_left, told_over};
ghost use Rattle.sound_text.specs.Feeding.{Begun, Feeds};

use crate::command::{Command, Entry, command_of, enter, is_begun, nothing_entered};
use numbers::Refusal;
use sound_generator::advance::advance;
use sound_generator::{Sound, output, sleep, start, wake, write_p23, write_p24, write_p30};
use text::Text;

// The state and the line that was begun, after some characters.
#[derive(Clone, Copy)]
pub struct Progress {
    pub state: Sound,
    pub entry: Entry,
}

// What came of a line; nothing of one that was no command.
#[tactic(auto, unfolding(crate::specs::Telling::performed))]
pub fn perform(s: Sound, command: Option<Command>) -> Option<Result<Sound, Refusal>>
    ensures { result ≡ performed s command }
{
    match command? {
        Command::P30(n) => Some(write_p30(s, n)),
        Command::P24(n) => Some(write_p24(s, n)),
        Command::P23(n) => Some(write_p23(s, n)),
        Command::Sleep => Some(sleep(s)),
        Command::Wake => Some(wake(s)),
        Command::Reset => Some(Ok(start())),
        Command::Advance(n) => Some(advance(s, n)),
    }
}

// A refusal, and a line that is no command, leave the state.
fn state_left(s: Sound, p: Option<Result<Sound, Refusal>>) -> Sound
    ensures { result ≡ state_left s p }
{
    match p {
        Some(Ok(after)) => after,
        Some(Err(_)) | None => s,
    }
}

// A name and a number.
fn field<const N: usize>(out: &mut Text<N>, name: &[u8], v: u8)
    requires { (length name.now ≤ 8) × (length out.old + 11 ≤ N) }
    ensures text { out.new ≡ out.old ++ (name.now ++ decimalOf v) }
    ensures size { length out.new ≤ length out.old + 11 }
{
    out.put_text(name);
    out.decimal(u64::from(v));
}

fn tone_fields<const N: usize>(out: &mut Text<N>, s: Sound)
    requires { length out.old + 44 ≤ N }
    ensures text { out.new ≡ out.old ++ tone_fields s }
    ensures size { length out.new ≤ length out.old + 44 }
{
    field(out, b"mode ", s.mode);
    field(out, b" asleep ", u8::from(s.asleep));
    field(out, b" tf ", s.tf);
    field(out, b" count ", s.count);
}

fn output_fields<const N: usize>(out: &mut Text<N>, s: Sound)
    requires { length out.old + 32 ≤ N }
    ensures text { out.new ≡ out.old ++ output_fields s }
    ensures size { length out.new ≤ length out.old + 32 }
{
    let high = output(s).unwrap_or(false);
    field(out, b" tone ", u8::from(s.tone));
    out.put_text(b" bits ");
    out.number(16, 3, u32::from(s.bits));
    field(out, b" output ", u8::from(high));
    out.put(b'\n');
}

// At most 76 characters.
#[tactic(auto, unfolding(crate::specs::Telling::state_line))]
fn state_line<const N: usize>(out: &mut Text<N>, s: Sound)
    requires { length out.old + 76 ≤ N }
    ensures text { out.new ≡ out.old ++ state_line s }
    ensures size { length out.new ≤ length out.old + 76 }
{
    tone_fields(out, s);
    output_fields(out, s);
}

// The answer to a line, at most 76 characters.
#[tactic(auto, unfolding(crate::specs::Telling::text_of))]
pub fn tell<const N: usize>(out: &mut Text<N>, p: Option<Result<Sound, Refusal>>)
    requires { length out.old + 76 ≤ N }
    ensures text { out.new ≡ out.old ++ text_of p }
    ensures size { length out.new ≤ length out.old + 76 }
{
    match p {
        Some(Ok(state)) => state_line(out, state),
        Some(Err(refusal)) => out.refused_line(refusal),
        None => out.put_text(b"not a command\n"),
    }
}

// One character of the input: of a line, or the LF that ends it.
fn fed<const N: usize>(s: Sound, e: Entry, c: u8, out: &mut Text<N>) -> Progress
    requires { (Fits e) × (length out.old + 76 ≤ N) }
    ensures feeds { Feeds s e (c ∷ []) out.old out.new result }
    ensures size { length out.new ≤ length out.old + 76 }
{
    if c != b'\n' {
        return Progress {
            state: s,
            entry: enter(e, c),
        };
    }
    let p = perform(s, command_of(e));
    tell(out, p);
    Progress {
        state: state_left(s, p),
        entry: nothing_entered(),
    }
}

// The lines that end in a part of the input, answered, and the beginning of the next.
pub fn feed<const N: usize>(s: Sound, e: Entry, part: &[u8], out: &mut Text<N>) -> Progress
    requires { (Fits e) × (length out.old + 76 * length part.now ≤ N) }
    ensures { Feeds s e part.now out.old out.new result }
{
    let mut p = Progress { state: s, entry: e };
    for c in part {
        p = fed(p.state, p.entry, *c, out);
    }
    p
}

// Where the input ends within a line: that line's answer.
pub fn last<const N: usize>(s: Sound, e: Entry, out: &mut Text<N>)
    requires { (Fits e) × (length out.old + 76 ≤ N) }
    ensures { (b : Begun e) → out.new ≡ out.old ++ told_over s (lines_of b.line) }
{
    if is_begun(e) {
        tell(out, perform(s, command_of(e)));
    }
}

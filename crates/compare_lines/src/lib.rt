// Document 02, Q-13: a line of ours against a part of their listing, which is not held: where in our line theirs has come to, or which field differs and how the line is spaced so far.
#![tactic(auto)]

ghost use Rattle.std.specs.Prelude.{◌≡◌, true, false, List, [], ◌∷◌, ◌++◌, ℕ, ◌+◌, ◌<◌, ◌≤◌, length, get_or};
ghost use Rattle.laws.specs.Choice.{pick};
ghost use Rattle.compare_lines.specs.Left.{spaced_from, spaced_of, left_of, OneLine, blanks_in, clash, settled, Placed, Runs, Hears, Heeds, CutShort, Onward};

#[derive(Clone, Copy, PartialEq, Eq)]
pub enum Compared {
    Same,
    Differs { line: u64, field: u8 },
}

// How a line is spaced: not known yet, so many blanks being left and the present field being empty or not; right; or wrong.
#[derive(Clone, Copy, PartialEq, Eq)]
pub enum Form {
    Open { left: u8, empty: bool },
    Spaced,
    Broken,
}

// How far our present line is compared: theirs is ours up to a place; a field differs, and their spacing is judged; or all is known.
#[derive(Clone, Copy, PartialEq, Eq)]
pub enum Phase {
    Matching { at: usize },
    Judging { field: u8, left: u8, empty: bool },
    Found { field: u8 },
}

#[derive(Clone, Copy)]
pub struct Heard {
    pub phase: Phase,
    pub used: usize,
}

// How our next line is compared, and its number.
#[derive(Clone, Copy)]
pub struct Turned {
    pub phase: Phase,
    pub line: u64,
}

// The spacing after one character more.
fn after(left: u8, empty: bool, c: u8) -> Form
    ensures { (rest : List ℕ) → spaced_from left empty (c ∷ rest) ≡ spaced_of result rest }
{
    match c {
        b'\n' if !empty && left == 0 => Form::Spaced,
        b' ' if !empty && left > 0 => Form::Open {
            left: left - 1,
            empty: true,
        },
        b'\n' | b' ' => Form::Broken,
        _ => Form::Open { left, empty: false },
    }
}

// The spacing after some characters more.
fn judge(start: Form, text: &[u8]) -> Form
    ensures { (rest : List ℕ) → spaced_of start (text.now ++ rest) ≡ spaced_of result rest }
{
    let mut form = start;
    for c in text {
        let Form::Open { left, empty } = form else {
            return form;
        };
        form = after(left, empty, *c);
    }
    form
}

// In which field the character after a text of ours is.
fn field_after(text: &[u8]) -> u8
    requires { length text.now ≤ 26 }
    ensures { result ≡ 1 + blanks_in text.now }
{
    let mut field = 1;
    for c in text {
        if *c == b' ' {
            field += 1;
        }
    }
    field
}

// How many characters of theirs are those of ours from a place on.
fn equal_run(line: &[u8], at: usize, part: &[u8]) -> usize
    requires { at ≤ length line.now }
    ensures { Runs line.now at part.now result }
{
    for (i, c) in part.iter().enumerate() {
        if at + i == line.len() || line[at + i] != *c {
            return i;
        }
    }
    part.len()
}

// Whether one line ends where the other has one more field.
fn clashes(a: u8, c: u8) -> bool
    ensures { result ≡ clash a c }
{
    matches!((a, c), (b' ', b'\n') | (b'\n', b' '))
}

fn phase_of(field: u8, form: Form) -> Phase
    ensures by_index { (n : ℕ) (line ours rest : List ℕ) → left_of result n line ours rest ≡ Compared.Differs n (pick (spaced_of form rest) field 0) }
    ensures by_index_2 { (size : ℕ) → Placed result size }
{
    match form {
        Form::Open { left, empty } => Phase::Judging { field, left, empty },
        Form::Spaced => Phase::Found { field },
        Form::Broken => Phase::Found { field: 0 },
    }
}

// What is known of a line whose rest begins with another character than ours.
fn part_ways(n: u64, line: &[u8], at: usize, rest: &[u8]) -> Phase
    requires { (OneLine line.now) × (at < length line.now) × (0 < length rest.now) × (get_or line.now at 0 ≡ get_or rest.now 0 0 → ⊥) }
    ensures by_index { (ours more : List ℕ) → left_of (Phase.Matching at) n line.now ours (rest.now ++ more) ≡ left_of result n line.now ours more }
    ensures by_index_2 { (size : ℕ) → Placed result size }
{
    if n == 1 || clashes(line[at], rest[0]) {
        return Phase::Found { field: 0 };
    }
    let before = &line[..at];
    let start = Form::Open {
        left: 7,
        empty: true,
    };
    let form = judge(start, before);
    phase_of(field_after(before), judge(form, rest))
}

fn match_on(n: u64, line: &[u8], at: usize, part: &[u8]) -> Heard
    requires { (OneLine line.now) × (at ≤ length line.now) }
    ensures { Hears (Phase.Matching at) n line.now part.now result }
{
    let k = equal_run(line, at, part);
    let here = at + k;
    if here == line.len() || k == part.len() {
        return Heard {
            phase: Phase::Matching { at: here },
            used: k,
        };
    }
    Heard {
        phase: part_ways(n, line, here, &part[k..]),
        used: part.len(),
    }
}

// A part of their listing against our line n. Once a difference is found the listing is not looked at any more.
pub fn hear(phase: Phase, n: u64, line: &[u8], part: &[u8]) -> Heard
    requires { (OneLine line.now) × (Placed phase (length line.now)) }
    ensures { Hears phase n line.now part.now result }
{
    match phase {
        Phase::Matching { at } => match_on(n, line, at, part),
        Phase::Judging { field, left, empty } => Heard {
            phase: phase_of(field, judge(Form::Open { left, empty }, part)),
            used: part.len(),
        },
        Phase::Found { .. } => Heard {
            phase,
            used: part.len(),
        },
    }
}

// Their listing ends here: what our line still waits for is missing.
pub fn cut_short(phase: Phase, size: usize) -> Phase
    requires { Placed phase size }
    ensures { CutShort phase size result }
{
    match phase {
        Phase::Matching { at } if at != size => Phase::Found { field: 0 },
        Phase::Judging { .. } => Phase::Found { field: 0 },
        Phase::Matching { .. } | Phase::Found { .. } => phase,
    }
}

// A part of their listing, which may be the last.
pub fn heed(phase: Phase, n: u64, line: &[u8], part: &[u8], last: bool) -> Heard
    requires { (OneLine line.now) × (Placed phase (length line.now)) }
    ensures { Heeds phase n line.now part.now last result }
{
    let heard = hear(phase, n, line, part);
    if last && heard.used == part.len() {
        Heard {
            phase: cut_short(heard.phase, line.len()),
            ..heard
        }
    } else {
        heard
    }
}

// After line n of ours the next.
pub fn onward(phase: Phase, n: u64, size: usize) -> Turned
    requires { (settled phase size ≡ true) × (n + 1 < 18446744073709551616) }
    ensures { Onward phase n size result }
{
    match phase {
        Phase::Matching { .. } => Turned {
            phase: Phase::Matching { at: 0 },
            line: n + 1,
        },
        Phase::Judging { .. } | Phase::Found { .. } => Turned { phase, line: n },
    }
}

// Whether nothing of our line is waited for.
pub fn is_settled(phase: Phase, size: usize) -> bool
    ensures { result ≡ settled phase size }
{
    match phase {
        Phase::Matching { at } => at == size,
        Phase::Judging { .. } | Phase::Found { .. } => true,
    }
}

// The answer where line n is the last of ours and theirs has ended, or has characters more behind the line.
pub fn verdict(phase: Phase, n: u64, size: usize, more: bool) -> Compared
    requires { (Placed phase size) × (n + 1 < 18446744073709551616) × (more ≡ true → phase ≡ Phase.Matching size) }
    ensures { (line rest : List ℕ) → OneLine line → length line ≡ size → (more ≡ true → 0 < length rest) → (more ≡ false → rest ≡ []) → left_of phase n line [] rest ≡ result }
{
    if more {
        return Compared::Differs {
            line: n + 1,
            field: 0,
        };
    }
    match phase {
        Phase::Matching { at } if at < size => Compared::Differs { line: n, field: 0 },
        Phase::Matching { .. } => Compared::Same,
        Phase::Judging { .. } => Compared::Differs { line: n, field: 0 },
        Phase::Found { field } => Compared::Differs { line: n, field },
    }
}

// The answer where line n is the last of ours, and the rest of theirs is whole.
pub fn finish(phase: Phase, n: u64, line: &[u8], rest: &[u8]) -> Compared
    requires { (OneLine line.now) × (Placed phase (length line.now)) × (n + 1 < 18446744073709551616) }
    ensures { left_of phase n line.now [] rest.now ≡ result }
{
    let heard = hear(phase, n, line, rest);
    verdict(heard.phase, n, line.len(), heard.used < rest.len())
}

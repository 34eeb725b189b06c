// A line of the program sound, read a character at a time, and the command that it is. No line is held, so that a line may have any length.
ghost use Rattle.std.specs.Prelude.{◌≡◌, true, false, List, [], ℕ, ltb};
ghost use Rattle.laws.specs.Choice.{either as either_of};
ghost use Rattle.sound_text.specs.Commands.{is_blank, bare as bare_of, port as port_of, numbered as numberedOf, command_of};
ghost use Rattle.sound_text.specs.Entry.{Entered, Fits, Feeds};

use check::same;

#[derive(Clone, Copy)]
pub enum Command {
    P30(u8),
    P24(u8),
    P23(u8),
    Sleep,
    Wake,
    Reset,
    Advance(u32),
}

// The word's first characters, and how many; whether a blank came; and of what came after it: whether there is any, whether all are digits, and their value.
#[derive(Clone, Copy)]
pub struct Entry {
    pub word: [u8; 8],
    pub kept: usize,
    pub spaced: bool,
    pub some: bool,
    pub digits: bool,
    pub value: u32,
}

const LONGEST: usize = 8;

const MOST: u32 = 65536;

const MOST_OF_A_PORT: u32 = 15;

pub fn nothing_entered() -> Entry
    ensures { (Fits result) × (Entered [] result) }
{
    Entry {
        word: [0u8; 8],
        kept: 0,
        spaced: false,
        some: false,
        digits: true,
        value: 0,
    }
}

// Whether any character was entered.
pub fn is_begun(e: Entry) -> bool
    ensures { result ≡ either_of e.spaced (ltb 0 e.kept) }
{
    e.spaced || 0 < e.kept
}

// A character after the first blank.
fn number_fed(e: Entry, c: u8) -> Entry
    requires { (Fits e) × (e.spaced ≡ true) }
    ensures { Feeds e c result }
{
    let more = Entry { some: true, ..e };
    match c {
        b'0'..=b'9' => Entry {
            value: MOST.min(e.value * 10 + u32::from(c - b'0')),
            ..more
        },
        _ => Entry {
            digits: false,
            ..more
        },
    }
}

// A character of the word.
fn word_fed(e: Entry, c: u8) -> Entry
    requires { (Fits e) × (e.spaced ≡ false) × (is_blank c ≡ false) }
    ensures { Feeds e c result }
{
    let at = e.kept;
    if LONGEST <= at {
        return e;
    }
    let mut word = e.word;
    word[at] = c;
    Entry {
        word,
        kept: at + 1,
        ..e
    }
}

pub fn enter(e: Entry, c: u8) -> Entry
    requires { Fits e }
    ensures { Feeds e c result }
{
    if e.spaced {
        return number_fed(e, c);
    }
    if c == b' ' {
        return Entry { spaced: true, ..e };
    }
    word_fed(e, c)
}

fn bare(word: &[u8]) -> Option<Command>
    ensures { result ≡ bare_of word.now }
{
    if same(word, b"sleep") {
        Some(Command::Sleep)
    } else if same(word, b"wake") {
        Some(Command::Wake)
    } else if same(word, b"reset") {
        Some(Command::Reset)
    } else {
        None
    }
}

fn port(word: &[u8], n: u8) -> Option<Command>
    ensures { result ≡ port_of word.now n }
{
    if same(word, b"p30") {
        Some(Command::P30(n))
    } else if same(word, b"p24") {
        Some(Command::P24(n))
    } else if same(word, b"p23") {
        Some(Command::P23(n))
    } else {
        None
    }
}

fn numbered(word: &[u8], n: u32) -> Option<Command>
    ensures { result ≡ numberedOf word.now n }
{
    if same(word, b"advance") {
        Some(Command::Advance(n))
    } else if n <= MOST_OF_A_PORT {
        port(word, n as u8)
    } else {
        None
    }
}

// What the line that was entered commands.
pub fn command_of(e: Entry) -> Option<Command>
    requires { Fits e }
    ensures { (line : List ℕ) → Entered line e → result ≡ command_of line }
{
    let word = &e.word[..e.kept];
    if !e.spaced {
        return bare(word);
    }
    if e.some && e.digits {
        return numbered(word, e.value);
    }
    None
}

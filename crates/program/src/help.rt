// What every program answers to a first word that asks for its help or for its version.
ghost use Rattle.std.specs.Prelude.{◌≡◌, IfErr};
ghost use Rattle.program.specs.Help.{asked_by};
ghost use Rattle.program.specs.declared.streams.Failure.TheVariants.{CannotWrite};

use crate::arguments::arg;
use crate::streams::{Failure, say, show};
use crate::words::is;
use text::Text;

// More than any help has.
const WAITING: usize = 4096;

// What a program is for, its usage line, and all else that its help says.
#[derive(Clone, Copy)]
pub struct Manual<'a> {
    pub purpose: &'a [u8],
    pub usage: &'a [u8],
    pub rest: &'a [u8],
}

#[derive(Clone, Copy, PartialEq, Eq)]
enum Asked {
    Nothing,
    Help,
    Version,
}

#[tactic(auto, unfolding(crate::specs::Help::asked_by))]
fn asked_by(word: &[u8]) -> Asked
    ensures { result ≡ asked_by word.now }
{
    if is(word, b"--help") || is(word, b"-h") {
        Asked::Help
    } else if is(word, b"--version") {
        Asked::Version
    } else {
        Asked::Nothing
    }
}

// A text behind what waits, so that a help takes one call of the system. Where it has no room, what waits goes before it.
fn add_text(out: &mut Text<WAITING>, text: &[u8]) -> Result<(), Failure>
    ensures { IfErr result (λ failure. failure ≡ CannotWrite) }
{
    if text.len() > WAITING - out.len() {
        show(out.as_slice())?;
        out.clear();
        return show(text);
    }
    out.put_text(text);
    Ok(())
}

fn show_manual(manual: &Manual) -> Result<(), Failure> {
    let mut out = Text::<WAITING>::new();
    add_text(&mut out, manual.purpose)?;
    add_text(&mut out, b"\n")?;
    add_text(&mut out, manual.usage)?;
    add_text(&mut out, b"\n")?;
    add_text(&mut out, manual.rest)?;
    show(out.as_slice())
}

// Ours, and the kit that proved and compiled it, as `rt version` prints it.
pub fn show_version() -> Result<(), Failure> {
    show(b"Bakethrush 1.0\nrattle-kit-13f logic dac8208d650f15bf\n")
}

// Runs a program, unless its first word asks for the help or the version, which are then written.
pub fn answer<F: FnOnce(&HostRuntime) -> Result<(), Failure>>(
    rt: &HostRuntime,
    manual: &Manual,
    run: F,
)
    requires { F.IsAlwaysCallable run }
{
    let mut word = io::buffer();
    let ending = match asked_by(arg(rt, 1, &mut word)) {
        Asked::Help => show_manual(manual),
        Asked::Version => show_version(),
        Asked::Nothing => run(rt),
    };
    if let Err(failure) = ending {
        say(manual.usage, failure);
    }
}

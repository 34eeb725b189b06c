// The words of the command line, and the files that they name.
ghost use Rattle.std.specs.Prelude.{◌≡◌, ◌≤◌, length, IfErr};
ghost use Rattle.program.specs.declared.streams.Failure.TheVariants.{Usage};

use crate::streams::Failure;
use std::env::{Env, FillError};
use std::fs::File;

// Whether there is such a word; word 0 is the program's name.
pub fn is_given(rt: &HostRuntime, word: usize) -> bool {
    let mut first = [0u8; 1];
    !matches!(rt.arg(word, &mut first), Err(FillError::NotPresent))
}

// Where there is such a word, there are too many.
pub fn no_word(rt: &HostRuntime, word: usize) -> Result<(), Failure>
    ensures { IfErr result (λ failure. failure ≡ Usage) }
{
    if is_given(rt, word) {
        Err(Failure::Usage)
    } else {
        Ok(())
    }
}

// A word, in a buffer. It has no characters where it is missing or longer than the buffer.
pub fn arg<'a>(rt: &HostRuntime, word: usize, buffer: &'a mut [u8]) -> &'a [u8]
    ensures { length result.now ≤ length buffer.old }
{
    let n = rt.arg(word, buffer).unwrap_or(0);
    &buffer[..n]
}

// What a word names, by the function that reads it, where there is such a word. One that names nothing is not in order.
pub fn named_at<T, F: FnOnce(&[u8]) -> Option<T>>(
    rt: &HostRuntime,
    word: usize,
    read: F,
) -> Result<Option<T>, Failure>
where
    F: Drop,
    requires { F.IsAlwaysCallable read }
    ensures { IfErr result (λ failure. failure ≡ Usage) }
{
    if !is_given(rt, word) {
        return Ok(None);
    }
    let mut buffer = io::buffer();
    match read(arg(rt, word, &mut buffer)) {
        Some(named) => Ok(Some(named)),
        None => Err(Failure::Usage),
    }
}

// A file that can be read, or none. A name is text in UTF-8.
pub fn open_read(rt: &HostRuntime, path: &[u8]) -> Option<File> {
    let name = str::from_utf8(path).ok()?;
    File::open(rt, name).ok()
}

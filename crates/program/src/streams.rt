// What a program reads and writes: what the system answered to a read and to a write, and how the program ends by it.
ghost use Rattle.std.specs.Prelude.{◌≡◌, ◌⊎◌, IfErr};
ghost use Rattle.program.specs.Answers.{got_of, ending_of};
ghost use Rattle.program.specs.declared.streams.Failure.TheVariants.{Refused, CannotWrite};

use std::io::Result as Answer;

// The descriptors of what a program writes.
pub const STDOUT_FILENO: i32 = 1;

pub const STDERR_FILENO: i32 = 2;

// Why a program gives no whole answer: the words of its command line are not in order, what is wrong is said already, or the system refused a read or a write.
#[derive(Clone, Copy, PartialEq, Eq)]
pub enum Failure {
    Usage,
    Refused,
    CannotRead,
    CannotWrite,
}

// What a read gave: how many bytes, none where the input has ended.
pub fn got_of(answer: Answer<usize>) -> Result<usize, Failure>
    ensures { result ≡ got_of answer }
{
    match answer {
        Ok(count) => Ok(count),
        Err(_) => Err(Failure::CannotRead),
    }
}

// How a program ends that was answered so by its last read and its last write.
pub fn ending_of(failed: bool, written: bool) -> Result<(), Failure>
    ensures { result ≡ ending_of failed written }
{
    if !written {
        Err(Failure::CannotWrite)
    } else if failed {
        Err(Failure::CannotRead)
    } else {
        Ok(())
    }
}

// A text on standard output.
pub fn show(text: &[u8]) -> Result<(), Failure>
    ensures { IfErr result (λ failure. failure ≡ CannotWrite) }
{
    ending_of(false, io::write_all(STDOUT_FILENO, text))
}

// A number on standard output, decimal.
pub fn show_decimal(n: u64) -> Result<(), Failure>
    ensures { IfErr result (λ failure. failure ≡ CannotWrite) }
{
    ending_of(false, io::print_decimal(STDOUT_FILENO, n))
}

// Answers by a refusal, which is all that there is to answer.
pub fn refuse(answer: &[u8]) -> Failure
    ensures { (result ≡ Refused) ⊎ (result ≡ CannotWrite) }
{
    match show(answer) {
        Ok(()) => Failure::Refused,
        Err(failure) => failure,
    }
}

// A text on standard error, where nothing is to be done about one that cannot be written.
pub fn explain(text: &[u8]) {
    io::write_all(STDERR_FILENO, text);
}

// What a program says on standard error where it gives no whole answer.
pub fn say(usage: &[u8], failure: Failure) {
    explain(match failure {
        Failure::Usage => usage,
        Failure::Refused => b"",
        Failure::CannotRead => b"cannot read\n",
        Failure::CannotWrite => b"cannot write\n",
    });
}

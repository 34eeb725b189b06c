// A buffer that holds a part of a file: what is not used of it yet goes to its front, and more is read behind it.
ghost use Rattle.std.specs.Prelude.{◌≡◌, ◌+◌, ◌≤◌, length, Err, IfOk};
ghost use Rattle.program.specs.declared.streams.Failure.TheVariants.{CannotRead};

use crate::streams::{Failure, got_of};
use std::io::Read;

// What a read into a buffer gave. Where there is no room it counts as a read that failed, since it says nothing of the end.
pub fn read_into<R: Read>(file: &mut R, buffer: &mut [u8]) -> Result<usize, Failure>
    ensures within { IfOk result (λ n. n ≤ length buffer.new) }
    ensures no_room { length buffer.old ≡ 0 → result ≡ Err CannotRead }
{
    if buffer.is_empty() {
        return Err(Failure::CannotRead);
    }
    got_of(file.read(buffer))
}

// Reads until the buffer is full or the file ends, and how many bytes then stand in the buffer.
pub fn fill<R: Read>(file: &mut R, buffer: &mut [u8]) -> Result<usize, Failure>
    ensures { IfOk result (λ n. n ≤ length buffer.new) }
{
    let mut done = 0;
    while done < buffer.len() {
        let count = read_into(file, &mut buffer[done..])?;
        if count == 0 {
            break;
        }
        done += count;
    }
    Ok(done)
}

// The buffer, and from where to where of it is not used yet.
#[derive(Drop)]
pub struct Part {
    pub buffer: [u8; 65536],
    pub from: usize,
    pub to: usize,
    ghost in_order: { from ≤ to },
    ghost within: { to ≤ 65536 },
}

impl Part {
    pub fn new() -> Part
        ensures { (result.from ≡ 0) × (result.to ≡ 0) }
    {
        Part {
            buffer: io::large_buffer(),
            from: 0,
            to: 0,
        }
    }

    // What is not used yet.
    pub fn rest(&self) -> &[u8]
        ensures { self.now.from + length result.now ≡ self.now.to }
    {
        &self.buffer[self.from..self.to]
    }

    pub fn use_up(&mut self, used: usize)
        requires { self.old.from + used ≤ self.old.to }
        ensures { (self.new.from ≡ self.old.from + used) × (self.new.to ≡ self.old.to) }
    {
        self.from += used;
    }

    // Behind what was not used yet stand as many characters as a read gave.
    pub fn read_more<R: Read>(&mut self, file: &mut R) -> Result<usize, Failure>
        ensures { IfOk result (λ n. (self.new.from ≡ 0) × (self.old.from + self.new.to ≡ self.old.to + n)) }
    {
        self.buffer.copy_within(self.from..self.to, 0);
        self.to -= self.from;
        self.from = 0;
        let count = read_into(file, &mut self.buffer[self.to..])?;
        self.to += count;
        Ok(count)
    }
}

// Document 02, Q-10: Intel HEX that comes in chunks. A state by value and a lent work buffer carry what was fed; the image is written at the end, where the whole text is good.
#![tactic(auto)]

pub mod held;

ghost use Rattle.std.specs.Prelude.{◌≡◌, true, false, List, [], ◌++◌, ℕ, ◌+◌, ◌^◌, ◌<◌, ◌≤◌, length, MatchOption, Ok};
ghost use Rattle.laws.specs.Choice.{either};
ghost use Rattle.hex_reader.specs.Work.{work_size};
ghost use Rattle.hex_reader.specs.Progress.{read_of};
ghost use Rattle.hex_reader.specs.Reached.{Concluded, is_stopped};
ghost use Rattle.hex_chunks.specs.Cut.{fed};
ghost use Rattle.hex_chunks.specs.Carries.{Along, Chunked, Carries, Readied, Sized, FeedCall, EndCall, told_of, refused_buffer};

use crate::held::{HeldLine, complete_last, complete_line};
use hex_reader::fault::{HexFault, HexRefusal};
use hex_reader::progress::{Stage, conclude};
use hex_reader::work::{clear, copy_image, work_size};
use numbers::Refusal;
use text::script::line_end;

// The line that is begun, its number, what the lines before it came to, whether the work buffer is in use, and whether the end was declared of a good text.
#[derive(Clone, Copy)]
pub struct HexChunks {
    pub held: HeldLine,
    pub line: usize,
    pub stage: Result<Stage, HexFault>,
    pub begun: bool,
    pub over: bool,
}

// There is more to come, or the whole text is good.
#[derive(Clone, Copy)]
pub enum Told {
    More,
    Good,
}

#[derive(Clone, Copy)]
pub struct Fed {
    pub state: HexChunks,
    pub told: Result<Told, HexRefusal>,
}

pub fn start() -> HexChunks
    ensures { (image_size : ℕ) (work : List ℕ) → Carries image_size result work (fed []) }
{
    HexChunks {
        held: HeldLine::new(),
        line: 1,
        stage: Ok(Stage::Going),
        begun: false,
        over: false,
    }
}

fn reading(held: HeldLine, line: usize, stage: Result<Stage, HexFault>) -> HexChunks
    ensures { result ≡ record { held = held; line = line; stage = stage; begun = true; over = false } }
{
    HexChunks {
        held,
        line,
        stage,
        begun: true,
        over: false,
    }
}

// The work buffer may have any contents before the first call.
fn make_ready(begun: bool, size: usize, work: &mut [u8])
    requires { length work.old ≡ work_size size }
    ensures work_len { length work.new ≡ work_size size }
    ensures readied { Readied size begun work.old work.new }
{
    if !begun {
        clear(work, size);
    }
}

// The characters of a chunk, line by line, up to the first fault.
fn take_chunk(s: HexChunks, stage: Stage, chunk: &[u8], size: usize, work: &mut [u8]) -> HexChunks
    requires { length work.old ≡ work_size size }
    ensures work_len { length work.new ≡ work_size size }
    ensures by_index { (text : List ℕ) → Along size text s.held s.line (Ok stage) work.old → length text + length chunk.now < 2 ^ 64 → Chunked size (text ++ chunk.now) result work.new }
{
    let mut held = s.held;
    let mut n = s.line;
    let mut stage = stage;
    let mut at = 0;
    loop {
        let lf = line_end(chunk, at);
        held.extend(&chunk[at..lf]);
        if lf == chunk.len() {
            return reading(held, n, Ok(stage));
        }
        match complete_line(&held, n, stage, size, work) {
            Ok(next) => stage = next,
            Err(first) => return reading(held, n, Err(first)),
        }
        held.clear();
        n = n.saturating_add(1);
        at = lf + 1;
    }
}

// The end of the text: the line that is begun is the last, if it has a character.
fn conclude_text(
    held: &HeldLine,
    n: usize,
    stage: Stage,
    size: usize,
    work: &mut [u8],
) -> Result<(), HexFault>
    requires { length work.old ≡ work_size size }
    ensures work_len { length work.new ≡ work_size size }
    ensures by_index { (text : List ℕ) → Along size text held.now n (Ok stage) work.old → length text < 2 ^ 64 → Concluded size result work.new (read_of size text) }
{
    if held.is_empty() {
        return conclude(stage, n);
    }
    let last = complete_last(held, n, stage, size, work)?;
    conclude(last, n.saturating_add(1))
}

// The stage of a state of which nothing was told for good.
fn open_stage(s: HexChunks) -> Option<Stage>
    ensures { MatchOption result (either s.over (is_stopped s.stage) ≡ true) (λ stage. (either s.over (is_stopped s.stage) ≡ false) × (s.stage ≡ Ok stage)) }
{
    if s.over { None } else { s.stage.ok() }
}

// What the state tells: the first fault, a good end, or that there is more to come.
fn told_of(s: HexChunks) -> Result<Told, HexRefusal>
    ensures { result ≡ told_of s.over s.stage }
{
    match s.stage {
        Ok(_) if s.over => Ok(Told::Good),
        Ok(_) => Ok(Told::More),
        Err(first) => Err(HexRefusal::Fault(first)),
    }
}

// The refusal of the buffers by the size of the device's image: the work buffer's comes first.
pub fn check_buffers(size: usize, work: &[u8], image: &[u8]) -> Result<(), Refusal>
    requires { size ≤ 65536 }
    ensures { Sized size work.now image.now result }
{
    if work.len() != work_size(size) {
        return Err(Refusal::WorkBufferIsNot9216Bytes);
    }
    if image.len() != size {
        return Err(Refusal::ImageOfAnotherSize);
    }
    Ok(())
}

fn refuse(state: HexChunks, refusal: Refusal) -> Fed
    ensures { result ≡ refused_buffer state refusal }
{
    Fed {
        state,
        told: Err(HexRefusal::Buffer(refusal)),
    }
}

// A chunk, which may be empty.
pub fn feed(s: HexChunks, chunk: &[u8], size: usize, work: &mut [u8], image: &[u8]) -> Fed
    requires { size ≤ 65536 }
    ensures { FeedCall size s chunk.now work.old work.new image.now result }
{
    if let Err(refusal) = check_buffers(size, work, image) {
        return refuse(s, refusal);
    }
    let Some(stage) = open_stage(s) else {
        return Fed {
            state: s,
            told: told_of(s),
        };
    };
    make_ready(s.begun, size, work);
    let state = take_chunk(s, stage, chunk, size, work);
    Fed {
        state,
        told: told_of(state),
    }
}

// The end is declared. The image is written where the whole text is good.
pub fn finish(s: HexChunks, size: usize, work: &mut [u8], image: &mut [u8]) -> Fed
    requires { size ≤ 65536 }
    ensures { EndCall size s work.old work.new image.old image.new result }
{
    if let Err(refusal) = check_buffers(size, work, image) {
        return refuse(s, refusal);
    }
    let Some(stage) = open_stage(s) else {
        return Fed {
            state: s,
            told: told_of(s),
        };
    };
    make_ready(s.begun, size, work);
    match conclude_text(&s.held, s.line, stage, size, work) {
        Ok(()) => {
            copy_image(work, image);
            Fed {
                state: HexChunks {
                    stage: Ok(Stage::Ended),
                    begun: true,
                    over: true,
                    ..s
                },
                told: Ok(Told::Good),
            }
        }
        Err(first) => Fed {
            state: reading(s.held, s.line, Err(first)),
            told: Err(HexRefusal::Fault(first)),
        },
    }
}

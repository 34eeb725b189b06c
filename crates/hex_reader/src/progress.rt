// A text of Intel HEX read line by line, up to its first fault: the stage that is reached, with the data records in the work buffer.
ghost use Rattle.std.specs.Prelude.{◌≡◌, ℕ, List, length};
ghost use Rattle.hex_reader.specs.Reads.{Placed};
ghost use Rattle.hex_reader.specs.Work.{work_size};
ghost use Rattle.hex_reader.specs.Progress.{Progress, at_end};
ghost use Rattle.hex_reader.specs.Reached.{Reached, Concluded, TakenOn, Advances};

use crate::data::take_data;
use crate::fault::HexFault;
use crate::line::Line;
use numbers::Refusal;

// Before the end record, or after it.
#[derive(Clone, Copy)]
pub enum Stage {
    Going,
    Ended,
}

fn after_judged(line: Result<Line, Refusal>, size: usize, work: &mut [u8]) -> Result<Stage, Refusal>
    requires { (Placed line) × (length work.old ≡ work_size size) }
    ensures { TakenOn size line.entry Stage.Going work.old work.new result }
{
    match line? {
        Line::Data { address, digits } => {
            take_data(address, digits, size, work)?;
            Ok(Stage::Going)
        }
        Line::End => Ok(Stage::Ended),
    }
}

// Line n of a text, judged.
pub fn after_line(
    line: Result<Line, Refusal>,
    n: usize,
    stage: Stage,
    size: usize,
    work: &mut [u8],
) -> Result<Stage, HexFault>
    requires { (Placed line) × (length work.old ≡ work_size size) }
    ensures { Advances size line.entry n stage work.old work.new result }
{
    let on = match stage {
        Stage::Going => after_judged(line, size, work),
        Stage::Ended => Err(Refusal::EndMissingOrTextAfter),
    };
    on.map_err(|refusal| HexFault { refusal, line: n })
}

// The text is over where line n would stand.
pub fn conclude(stage: Stage, n: usize) -> Result<(), HexFault>
    ensures { (image_size : ℕ) (work : List ℕ) (p : Progress) → Reached image_size (Ok stage) work p → Concluded image_size result work (at_end p n) }
{
    match stage {
        Stage::Going => Err(HexFault {
            refusal: Refusal::EndMissingOrTextAfter,
            line: n,
        }),
        Stage::Ended => Ok(()),
    }
}

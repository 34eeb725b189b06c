// Intel HEX read into an image, a whole text at once.
#![tactic(auto)]

pub mod data;
pub mod fault;
pub mod lent_text;
pub mod line;
pub mod lines;
pub mod progress;
pub mod work;

ghost use Rattle.std.specs.Prelude.{◌≡◌, length};
ghost use Rattle.device.specs.Device.{image_size};
ghost use Rattle.hex_reader.specs.Work.{work_size};
ghost use Rattle.hex_reader.specs.Progress.{read_of};
ghost use Rattle.hex_reader.specs.Reached.{Concluded};
ghost use Rattle.hex_reader.specs.Reader.{ReadHex};

use crate::fault::{HexFault, HexRefusal};
use crate::lent_text::HexText;
use crate::progress::{Stage, after_line, conclude};
use crate::work::{LARGEST_WORK, clear, copy_image, work_size};
use device::{Device, image_size};
use numbers::Refusal;

// The records of a text one after the other, up to the first fault or the text's end.
fn read_lines(text: &[u8], size: usize, work: &mut [u8]) -> Result<(), HexFault>
    requires { length work.old ≡ work_size size }
    ensures { (length work.new ≡ work_size size) × (Concluded size result work.new (read_of size text.now)) }
{
    clear(work, size);
    let mut reader = HexText { text, at: 0 };
    let mut stage = Stage::Going;
    let mut n = 1;
    while let Some(line) = reader.next() {
        stage = after_line(line, n, stage, size, work)?;
        n += 1;
    }
    conclude(stage, n)
}

// A text read into the image of a device.
pub fn read_hex(d: Device, text: &[u8], image: &mut [u8]) -> Result<(), HexRefusal>
    ensures { ReadHex (image_size d) text.now image.old image.new result }
{
    let size = image_size(d);
    if image.len() != size {
        return Err(HexRefusal::Buffer(Refusal::ImageOfAnotherSize));
    }
    let mut buffer = [0u8; LARGEST_WORK];
    let work = &mut buffer[..work_size(size)];
    read_lines(text, size, work)?;
    copy_image(work, image);
    Ok(())
}

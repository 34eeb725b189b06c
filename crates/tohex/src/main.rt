// tohex [--device NAME] IMAGE: the text of an image as Intel HEX.
#![tactic(auto)]

mod help;

ghost use Rattle.std.specs.Prelude.{◌<◌};

use crate::help::MANUAL;
use device::Device;
use device::image::Image;
use hex_writer::{P982_TEXT_SIZE, TEXT_SIZE, write_hex};
use program::arguments::no_word;
use program::help::answer;
use program::image::{chosen_device, open_image, room};
use program::streams::{Failure, refuse, show};

// The text of an image of a device whose text has N characters.
fn show_hex<const N: usize>(image: Image) -> Result<(), Failure>
    requires { N < 65536 }
{
    let mut text = [0u8; N];
    if write_hex(image.device, image.bytes, &mut text).is_err() {
        return Err(refuse(b"refused 01\n"));
    }
    show(&text)
}

fn run(rt: &HostRuntime) -> Result<(), Failure> {
    let c = chosen_device(rt)?;
    let word = usize::from(c.before) + 1;
    let mut file = room();
    let image = open_image(rt, c.device, word, MANUAL.usage, &mut file)?;
    no_word(rt, word + 1)?;
    match c.device {
        Device::Em73862 => show_hex::<TEXT_SIZE>(image),
        Device::Em73P982 => show_hex::<P982_TEXT_SIZE>(image),
    }
}

fn main(rt: HostRuntime) {
    answer(&rt, &MANUAL, run)
}

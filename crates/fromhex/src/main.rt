// fromhex [--device NAME]: the image of the Intel HEX on standard input, which is read in parts; of the text one line is held.
#![tactic(auto)]

mod help;

ghost use Rattle.std.specs.Prelude.{◌<◌};

use crate::help::MANUAL;
use device::Device;
use hex_chunks::{Told, feed, finish, start};
use hex_reader::fault::HexRefusal;
use hex_reader::work::{IMAGE_SIZE, P982_IMAGE_SIZE, P982_WORK_SIZE, WORK_SIZE};
use program::arguments::no_word;
use program::help::answer;
use program::image::chosen_device;
use program::part::read_into;
use program::streams::{Failure, STDERR_FILENO, explain, show};

// Says what is wrong with the text, and in which line.
fn refuse(refusal: HexRefusal) -> Failure {
    explain(b"refused ");
    io::print_decimal(STDERR_FILENO, u64::from(refusal.number()));
    explain(b" line ");
    io::print_decimal(STDERR_FILENO, refusal.line() as u64);
    explain(b"\n");
    Failure::Refused
}

// For a device whose image has IMAGE bytes. A proved loop has to end, and nothing says that a text does: no run uses up the turns.
fn read<const IMAGE: usize, const WORK: usize>(rt: &HostRuntime) -> Result<(), Failure>
    requires { (IMAGE < 65536) × (WORK < 65536) }
{
    let mut part = io::large_buffer();
    let mut work = [0u8; WORK];
    let mut image = [0u8; IMAGE];
    let mut state = start();
    for _ in 0..u64::MAX {
        let n = read_into(&mut rt.stdin(), &mut part)?;
        if n == 0 {
            return match finish(state, IMAGE, &mut work, &mut image).told {
                Ok(Told::Good) => show(&image),
                Ok(Told::More) => Ok(()),
                Err(refusal) => Err(refuse(refusal)),
            };
        }
        let fed = feed(state, &part[..n], IMAGE, &mut work, &image);
        if let Err(refusal) = fed.told {
            return Err(refuse(refusal));
        }
        state = fed.state;
    }
    Ok(())
}

fn run(rt: &HostRuntime) -> Result<(), Failure> {
    let c = chosen_device(rt)?;
    no_word(rt, usize::from(c.before) + 1)?;
    match c.device {
        Device::Em73862 => read::<IMAGE_SIZE, WORK_SIZE>(rt),
        Device::Em73P982 => read::<P982_IMAGE_SIZE, P982_WORK_SIZE>(rt),
    }
}

fn main(rt: HostRuntime) {
    answer(&rt, &MANUAL, run)
}

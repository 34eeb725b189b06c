// The image that a program is given by a word of its command line, and the device and P3 that the words before it choose.
// What is wrong with it is said in words on standard error, after the refusal's number on standard output.
ghost use Rattle.std.specs.Prelude.{◌≡◌, ◌<◌, length, IfOk};
ghost use Rattle.numbers.specs.Sizes.{addresses};
ghost use Rattle.device.specs.Device.{Banked, image_size};

use crate::arguments::{arg, is_given, open_read};
use crate::part::fill;
use crate::streams::{Failure, STDERR_FILENO, explain, refuse};
use crate::words::{Chosen, address_word, device_words, window_words};
use device::Device;
use device::image::{Image, Window};

// Room for the largest image and a byte more, so that a file that is too long shows.
pub fn room() -> [u8; 16385]
    ensures { 16385 ≡ length result }
{
    [0; 16385]
}

// Refuses the image, and says what is wrong with the file.
fn refuse_file(path: &[u8], what: &[u8]) -> Failure {
    let failure = refuse(b"refused 01\n");
    explain(path);
    explain(what);
    failure
}

// Refuses a file of another size: the size that it has and the one that is wanted.
fn refuse_size(d: Device, path: &[u8], size: usize) -> Failure {
    let failure = refuse_file(path, b": ");
    if size <= 16384 {
        io::print_decimal(STDERR_FILENO, size as u64);
    } else {
        explain(b"more than 16384");
    }
    explain(match d {
        Device::Em73862 => b" bytes, and an image of the EM73862 has 8192\n",
        Device::Em73P982 => b" bytes, and an image of the EM73P982 has 16384\n",
    });
    failure
}

// Opens the image that a word names. Without the word the usage line is all that is said.
pub fn open_image<'a>(
    rt: &HostRuntime,
    d: Device,
    word: usize,
    usage: &[u8],
    room: &'a mut [u8],
) -> Result<Image<'a>, Failure>
    ensures { IfOk result (λ image. image.device ≡ d) }
{
    if !is_given(rt, word) {
        explain(usage);
        return Err(refuse(b"refused 01\n"));
    }
    let mut buffer = io::buffer();
    let path = arg(rt, word, &mut buffer);
    let Some(mut file) = open_read(rt, path) else {
        return Err(refuse_file(path, b": cannot be opened\n"));
    };
    let Ok(size) = fill(&mut file, room) else {
        return Err(refuse_file(path, b": cannot be read\n"));
    };
    let Ok(image) = Image::of(d, &room[..size]) else {
        return Err(refuse_size(d, path, size));
    };
    Ok(image)
}

// Opens the image that the word after the device and P3 names, and shows what P3 shows of it.
pub fn open_window<'a>(
    rt: &HostRuntime,
    c: Chosen,
    usage: &[u8],
    room: &'a mut [u8],
) -> Result<Window<'a>, Failure>
    ensures { IfOk result (λ window. Banked c.device c.p3 × (window.p3 ≡ c.p3) × (length window.bytes.now ≡ image_size c.device)) }
{
    let image = open_image(rt, c.device, usize::from(c.before) + 1, usage, room)?;
    let Ok(window) = image.shown(c.p3) else {
        let failure = refuse(b"refused 02\n");
        explain(b"--p3 is over 15, or its bits 1..0 are 3\n");
        return Err(failure);
    };
    Ok(window)
}

// The address that a word names. A word that is no address of an image is refused, and it is said what one is.
pub fn address_at(rt: &HostRuntime, word: usize) -> Result<u16, Failure>
    ensures { IfOk result (λ at. at < addresses) }
{
    let mut buffer = io::buffer();
    let Some(at) = address_word(arg(rt, word, &mut buffer)) else {
        let failure = refuse(b"refused 20\n");
        explain(
            b"ADDRESS is one to four hexadecimal digits up to 1FFF, with 0x before them or h behind if you like\n",
        );
        return Err(failure);
    };
    Ok(at)
}

// What the words before the image choose, for a program that takes no P3.
pub fn chosen_device(rt: &HostRuntime) -> Result<Chosen, Failure> {
    let mut one = io::buffer();
    let mut two = io::buffer();
    device_words(arg(rt, 1, &mut one), arg(rt, 2, &mut two)).ok_or(Failure::Usage)
}

// What the words before the image choose, for a program that takes P3.
pub fn chosen_window(rt: &HostRuntime) -> Result<Chosen, Failure> {
    let mut one = io::buffer();
    let mut two = io::buffer();
    let mut three = io::buffer();
    let mut four = io::buffer();
    window_words(
        arg(rt, 1, &mut one),
        arg(rt, 2, &mut two),
        arg(rt, 3, &mut three),
        arg(rt, 4, &mut four),
    )
    .ok_or(Failure::Usage)
}

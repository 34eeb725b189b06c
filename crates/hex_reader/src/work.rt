// The work buffer of a reader of Intel HEX: the bytes so far, and behind them one bit for each address that was given. Both are as many as the device's image has bytes.
ghost use Rattle.std.specs.Prelude.{◌≡◌, false, [], ◌<◌, ◌≤◌, length, take};
ghost use Rattle.hex_reader.specs.Work.{work_size, bit_of, Holds, Puts};

use bits::{bit_at, weight};

// Document 01: "Image: exactly 8,192 bytes." Q-6: "an image of 16,384 bytes".
pub const IMAGE_SIZE: usize = 8192;

pub const P982_IMAGE_SIZE: usize = 16384;

pub const WORK_SIZE: usize = 9216;

pub const P982_WORK_SIZE: usize = 18432;

pub const LARGEST_WORK: usize = P982_WORK_SIZE;

// The buffer that goes with an image.
pub fn work_size(size: usize) -> usize
    requires { size ≤ 65536 }
    ensures { result ≡ work_size size }
{
    size + (size + 7) / 8
}

// What a byte holds that is not mentioned.
const NOT_MENTIONED: u8 = 0xFF;

pub fn is_given(work: &[u8], size: usize, address: usize) -> bool
    requires { (length work.now ≡ work_size size) × (address < size) }
    ensures { result ≡ bit_of size work.now address }
{
    bit_at(work[size + address / 8], (address % 8) as u8)
}

// A byte at an address that was not given.
pub fn put(work: &mut [u8], size: usize, address: usize, byte: u8)
    requires { (length work.old ≡ work_size size) × (address < size) × (bit_of size work.old address ≡ false) }
    ensures { Puts size work.old work.new address byte }
{
    let at = size + address / 8;
    let bits = work[at] + weight((address % 8) as u8);
    work[address] = byte;
    work[at] = bits;
}

// Nothing is given yet.
pub fn clear(work: &mut [u8], size: usize)
    requires { length work.old ≡ work_size size }
    ensures { Holds size work.new [] }
{
    work[..size].fill(NOT_MENTIONED);
    work[size..].fill(0);
}

// The buffer begins with the image's bytes. Byte by byte: a slice's copy would have the archive for C ask for memmove.
pub fn copy_image(work: &[u8], image: &mut [u8])
    requires { length image.old ≤ length work.now }
    ensures { image.new ≡ take (length image.old) work.now }
{
    for i in 0..image.len() {
        image[i] = work[i];
    }
}

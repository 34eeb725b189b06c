// An image written as Intel HEX.
#![tactic(auto)]

pub mod round_trip;

ghost use Rattle.std.specs.Prelude.{◌≡◌, ◌++◌, ◌+◌, ◌*◌, ◌<◌, ◌≤◌, ◌%◌, length, drop};
ghost use Rattle.device.specs.Device.{image_size};
ghost use Rattle.hex_reader.specs.Record.{total};
ghost use Rattle.hex_writer.specs.Writer.{hex_bytes, record_text, text_of, text_size, InRecords, WriteHex};

use device::{Device, image_size};
use numbers::Refusal;
use text::Text;

pub const TEXT_SIZE: usize = 22540;

pub const P982_TEXT_SIZE: usize = 45068;

const DATA_RECORD: u8 = 0;

const END_RECORD: u8 = 1;

// Bytes a record.
const EACH: usize = 16;

// Characters of a record with them, and of the end record.
const LINE: usize = 44;

const END_LINE: usize = 12;

// How many characters the text of a device's image has.
pub fn text_size(d: Device) -> usize
    ensures { result ≡ text_size (image_size d) }
{
    match d {
        Device::Em73862 => TEXT_SIZE,
        Device::Em73P982 => P982_TEXT_SIZE,
    }
}

// The sum of bytes and of what was summed before, modulo 256.
fn sum_of(bytes: &[u8], before: u32) -> u32
    requires { before < 256 }
    ensures { result ≡ (before + total bytes.now) % 256 }
{
    let mut sum = before;
    for byte in bytes {
        sum = (sum + u32::from(*byte)) % 256;
    }
    sum
}

fn put_bytes(line: &mut Text<LINE>, bytes: &[u8])
    requires { length line.old + 2 * length bytes.now ≤ 44 }
    ensures text { line.new ≡ line.old ++ hex_bytes bytes.now }
    ensures size { length line.new ≡ length line.old + 2 * length bytes.now }
{
    for byte in bytes {
        line.number(16, 2, u32::from(*byte));
    }
}

// A record of the four bytes before its data, and its data.
fn record(head: &[u8; 4], bytes: &[u8]) -> Text<LINE>
    requires { length bytes.now ≤ 16 }
    ensures { result ≡ record_text (head.now ++ bytes.now) }
{
    let sum = sum_of(bytes, sum_of(head, 0));
    let mut line = Text::new();
    line.put(b':');
    put_bytes(&mut line, head);
    put_bytes(&mut line, bytes);
    line.number(16, 2, (256 - sum) % 256);
    line.put(b'\n');
    line
}

fn write_text(image: &[u8], out: &mut [u8])
    requires { (InRecords (length image.now)) × (text_size (length image.now) ≤ length out.old) }
    ensures { out.new ≡ text_of (length image.now) image.now ++ drop (text_size (length image.now)) out.old }
{
    let records = image.len() / EACH;
    for k in 0..records {
        let address = EACH * k;
        let head = [
            EACH as u8,
            (address / 256) as u8,
            (address % 256) as u8,
            DATA_RECORD,
        ];
        let line = record(&head, &image[address..address + EACH]);
        out[LINE * k..LINE * k + LINE].copy_from_slice(line.as_slice());
    }
    let end = record(&[0, 0, 0, END_RECORD], &[]);
    out[LINE * records..LINE * records + END_LINE].copy_from_slice(end.as_slice());
}

// The text of a device's image; a refusal leaves the buffer as it was.
pub fn write_hex(d: Device, image: &[u8], out: &mut [u8]) -> Result<(), Refusal>
    ensures { WriteHex (image_size d) image.now out.old out.new result }
{
    if image.len() != image_size(d) {
        return Err(Refusal::ImageOfAnotherSize);
    }
    if out.len() < text_size(d) {
        return Err(Refusal::OutputBufferUnder22540Bytes);
    }
    write_text(image, out);
    Ok(())
}

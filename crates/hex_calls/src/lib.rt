// Intel HEX on numbers and byte buffers, for C and for whatever calls C: include/em73862_hex.h and include/em73p982_hex.h declare the calls.
// Two answers of a call to the same inputs are equal: proofs/OneAnswer.antt.
#![tactic(auto)]

pub mod state;

ghost use Rattle.std.specs.Prelude.{◌≡◌};
ghost use Rattle.device.specs.Device.{image_size};
ghost use Rattle.hex_calls.specs.Chunks.{number_of, line_of, StartCall, FeedBytes, EndBytes};
ghost use Rattle.hex_calls.specs.Calls.{ReadCall, WriteCall};

use crate::state::{STATE_SIZE, pack, unpack};
use device::{Device, image_size};
use hex_chunks::{Told, check_buffers, feed, finish, start};
use hex_reader::fault::HexRefusal;
use hex_reader::read_hex;
use hex_writer::write_hex;
use numbers::Refusal;

// Nothing is told yet.
const MORE: u8 = 255;

// A new state is one for either device. A buffer that is no state, by its size or by its ranges, has document 01's refusal of a record.
fn start_state(state: &mut [u8]) -> u8
    ensures start_call { StartCall 8192 state.old state.new result }
    ensures start_call_2 { StartCall 16384 state.old state.new result }
{
    if state.len() != STATE_SIZE {
        return u8::from(Refusal::RecordOutsideTheRanges);
    }
    pack(start(), state);
    0
}

fn number_of(told: Result<Told, HexRefusal>) -> u8
    ensures { result ≡ number_of told }
{
    match told {
        Ok(Told::More) => MORE,
        Ok(Told::Good) => 0,
        Err(refusal) => refusal.number(),
    }
}

fn line_of(told: Result<Told, HexRefusal>) -> usize
    ensures { result ≡ line_of told }
{
    match told {
        Ok(_) => 0,
        Err(refusal) => refusal.line(),
    }
}

// A text is read into the image of a device.
fn read_text(d: Device, text: &[u8], image: &mut [u8], line: &mut usize) -> u8
    ensures { ReadCall (image_size d) text.now image.old result line.new image.new }
{
    let (number, place) = match read_hex(d, text, image) {
        Ok(()) => (0, 0),
        Err(refusal) => (refusal.number(), refusal.line()),
    };
    *line = place;
    number
}

fn write_text(d: Device, image: &[u8], text: &mut [u8]) -> u8
    ensures { WriteCall (image_size d) image.now text.old result text.new }
{
    match write_hex(d, image, text) {
        Ok(()) => 0,
        Err(refusal) => u8::from(refusal),
    }
}

// A chunk is fed to the reader of a device.
fn feed_chunk(
    d: Device,
    state: &mut [u8],
    chunk: &[u8],
    work: &mut [u8],
    image: &[u8],
    line: &mut usize,
) -> u8
    ensures { FeedBytes (image_size d) state.old state.new chunk.now work.old work.new image.now result line.new }
{
    *line = 0;
    let size = image_size(d);
    if let Err(refusal) = check_buffers(size, work, image) {
        return u8::from(refusal);
    }
    let Some(s) = unpack(state) else {
        return u8::from(Refusal::RecordOutsideTheRanges);
    };
    let fed = feed(s, chunk, size, work, image);
    pack(fed.state, state);
    *line = line_of(fed.told);
    number_of(fed.told)
}

// The end is declared to it.
fn declare_end(
    d: Device,
    state: &mut [u8],
    work: &mut [u8],
    image: &mut [u8],
    line: &mut usize,
) -> u8
    ensures { EndBytes (image_size d) state.old state.new work.old work.new image.old image.new result line.new }
{
    *line = 0;
    let size = image_size(d);
    if let Err(refusal) = check_buffers(size, work, image) {
        return u8::from(refusal);
    }
    let Some(s) = unpack(state) else {
        return u8::from(Refusal::RecordOutsideTheRanges);
    };
    let last = finish(s, size, work, image);
    pack(last.state, state);
    *line = line_of(last.told);
    number_of(last.told)
}

#[unsafe(no_mangle)]
pub extern "C" fn em73862_hex_read(text: &[u8], image: &mut [u8], line: &mut usize) -> u8
    ensures { ReadCall 8192 text.now image.old result line.new image.new }
{
    read_text(Device::Em73862, text, image, line)
}

#[unsafe(no_mangle)]
pub extern "C" fn em73862_hex_write(image: &[u8], text: &mut [u8]) -> u8
    ensures { WriteCall 8192 image.now text.old result text.new }
{
    write_text(Device::Em73862, image, text)
}

#[unsafe(no_mangle)]
pub extern "C" fn em73862_hex_start(state: &mut [u8]) -> u8
    ensures { StartCall 8192 state.old state.new result }
{
    start_state(state)
}

#[unsafe(no_mangle)]
pub extern "C" fn em73862_hex_feed(
    state: &mut [u8],
    chunk: &[u8],
    work: &mut [u8],
    image: &[u8],
    line: &mut usize,
) -> u8
    ensures { FeedBytes 8192 state.old state.new chunk.now work.old work.new image.now result line.new }
{
    feed_chunk(Device::Em73862, state, chunk, work, image, line)
}

#[unsafe(no_mangle)]
pub extern "C" fn em73862_hex_end(
    state: &mut [u8],
    work: &mut [u8],
    image: &mut [u8],
    line: &mut usize,
) -> u8
    ensures { EndBytes 8192 state.old state.new work.old work.new image.old image.new result line.new }
{
    declare_end(Device::Em73862, state, work, image, line)
}

#[unsafe(no_mangle)]
pub extern "C" fn em73p982_hex_read(text: &[u8], image: &mut [u8], line: &mut usize) -> u8
    ensures { ReadCall 16384 text.now image.old result line.new image.new }
{
    read_text(Device::Em73P982, text, image, line)
}

#[unsafe(no_mangle)]
pub extern "C" fn em73p982_hex_write(image: &[u8], text: &mut [u8]) -> u8
    ensures { WriteCall 16384 image.now text.old result text.new }
{
    write_text(Device::Em73P982, image, text)
}

#[unsafe(no_mangle)]
pub extern "C" fn em73p982_hex_start(state: &mut [u8]) -> u8
    ensures { StartCall 16384 state.old state.new result }
{
    start_state(state)
}

#[unsafe(no_mangle)]
pub extern "C" fn em73p982_hex_feed(
    state: &mut [u8],
    chunk: &[u8],
    work: &mut [u8],
    image: &[u8],
    line: &mut usize,
) -> u8
    ensures { FeedBytes 16384 state.old state.new chunk.now work.old work.new image.now result line.new }
{
    feed_chunk(Device::Em73P982, state, chunk, work, image, line)
}

#[unsafe(no_mangle)]
pub extern "C" fn em73p982_hex_end(
    state: &mut [u8],
    work: &mut [u8],
    image: &mut [u8],
    line: &mut usize,
) -> u8
    ensures { EndBytes 16384 state.old state.new work.old work.new image.old image.new result line.new }
{
    declare_end(Device::Em73P982, state, work, image, line)
}

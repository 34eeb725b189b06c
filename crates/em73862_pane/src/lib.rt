// The calls of the EM73862 for C on an image and an address, without a record, and the writing of an instruction, which is the same of both devices: include/em73862_pane.h and include/em73862.h declare them.
// Each names the device and hands on to image_calls. They are an object of their own, so that a read knows that this device has one window.
// Two answers of a call to the same inputs are equal: proofs/ of image_calls.
#![tactic(auto)]

ghost use Rattle.device.specs.declared.Device.TheVariants.{Em73862};
ghost use Rattle.image_calls.specs.Pane.{ReadCall, LengthCall, RowCall, NotationCall, BoundCall};
ghost use Rattle.image_calls.specs.Write.{WriteCall};

use device::Device;
use image_calls::write::write_call;
use image_calls::{bound_call, length_call, notation_call, read_call, row_call};

#[unsafe(no_mangle)]
pub extern "C" fn em73862_read(
    image: &[u8],
    address: u32,
    row: &mut u8,
    a: &mut u16,
    b: &mut u8,
) -> u8
    ensures { ReadCall Em73862 image.now 0 address result row.new a.new b.new }
{
    read_call(Device::Em73862, image, 0, address, row, a, b)
}

#[unsafe(no_mangle)]
pub extern "C" fn em73862_length(image: &[u8], address: u32, bytes: &mut u8, cycles: &mut u8) -> u8
    ensures { LengthCall Em73862 image.now 0 address result bytes.new cycles.new }
{
    length_call(Device::Em73862, image, 0, address, bytes, cycles)
}

#[unsafe(no_mangle)]
pub extern "C" fn em73862_row(
    image: &[u8],
    address: u32,
    row: &mut u8,
    first: &mut u16,
    second: &mut u16,
    goes: &mut u16,
    bytes: &mut u8,
    cycles: &mut u8,
) -> u8
    ensures { RowCall Em73862 image.now 0 address result row.new first.new second.new goes.new bytes.new cycles.new }
{
    row_call(
        Device::Em73862,
        image,
        0,
        address,
        row,
        first,
        second,
        goes,
        bytes,
        cycles,
    )
}

#[unsafe(no_mangle)]
pub extern "C" fn em73862_notation(
    image: &[u8],
    address: u32,
    text: &mut [u8],
    length: &mut u32,
) -> u8
    ensures { NotationCall Em73862 image.now 0 address text.old result length.new text.new }
{
    notation_call(Device::Em73862, image, 0, address, text, length)
}

#[unsafe(no_mangle)]
pub extern "C" fn em73862_bound(
    image: &[u8],
    address: u32,
    path: &mut [u8],
    deep: &mut [u8],
    value: &mut u32,
    depth: &mut u32,
) -> u8
    ensures { BoundCall Em73862 image.now 0 address path.old deep.old result value.new depth.new path.new deep.new }
{
    bound_call(Device::Em73862, image, 0, address, path, deep, value, depth)
}

#[unsafe(no_mangle)]
pub extern "C" fn em73862_write(
    row: u8,
    a: u16,
    b: u8,
    length: &mut u8,
    b0: &mut u8,
    b1: &mut u8,
    b2: &mut u8,
) -> u8
    ensures { WriteCall (record { row = row; a = a; b = b }) result length.new b0.new b1.new b2.new }
{
    write_call(row, a, b, length, b0, b1, b2)
}

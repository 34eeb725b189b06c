// The calls of the EM73P982 for C on an image, a P3 and an address, without a record: include/em73p982.h declares them. Each names the device and hands on to image_calls.
// Two answers of a call to the same inputs are equal: proofs/ of image_calls.
#![tactic(auto)]

ghost use Rattle.device.specs.declared.Device.TheVariants.{Em73P982};
ghost use Rattle.image_calls.specs.Pane.{ReadCall, LengthCall, RowCall, NotationCall, BoundCall};

use device::Device;
use image_calls::{bound_call, length_call, notation_call, read_call, row_call};

#[unsafe(no_mangle)]
pub extern "C" fn em73p982_read(
    image: &[u8],
    p3: u32,
    address: u32,
    row: &mut u8,
    a: &mut u16,
    b: &mut u8,
) -> u8
    ensures { ReadCall Em73P982 image.now p3 address result row.new a.new b.new }
{
    read_call(Device::Em73P982, image, p3, address, row, a, b)
}

#[unsafe(no_mangle)]
pub extern "C" fn em73p982_length(
    image: &[u8],
    p3: u32,
    address: u32,
    bytes: &mut u8,
    cycles: &mut u8,
) -> u8
    ensures { LengthCall Em73P982 image.now p3 address result bytes.new cycles.new }
{
    length_call(Device::Em73P982, image, p3, address, bytes, cycles)
}

#[unsafe(no_mangle)]
pub extern "C" fn em73p982_row(
    image: &[u8],
    p3: u32,
    address: u32,
    row: &mut u8,
    first: &mut u16,
    second: &mut u16,
    goes: &mut u16,
    bytes: &mut u8,
    cycles: &mut u8,
) -> u8
    ensures { RowCall Em73P982 image.now p3 address result row.new first.new second.new goes.new bytes.new cycles.new }
{
    row_call(
        Device::Em73P982,
        image,
        p3,
        address,
        row,
        first,
        second,
        goes,
        bytes,
        cycles,
    )
}

#[unsafe(no_mangle)]
pub extern "C" fn em73p982_notation(
    image: &[u8],
    p3: u32,
    address: u32,
    text: &mut [u8],
    length: &mut u32,
) -> u8
    ensures { NotationCall Em73P982 image.now p3 address text.old result length.new text.new }
{
    notation_call(Device::Em73P982, image, p3, address, text, length)
}

#[unsafe(no_mangle)]
pub extern "C" fn em73p982_bound(
    image: &[u8],
    p3: u32,
    address: u32,
    path: &mut [u8],
    deep: &mut [u8],
    value: &mut u32,
    depth: &mut u32,
) -> u8
    ensures { BoundCall Em73P982 image.now p3 address path.old deep.old result value.new depth.new path.new deep.new }
{
    bound_call(
        Device::Em73P982,
        image,
        p3,
        address,
        path,
        deep,
        value,
        depth,
    )
}

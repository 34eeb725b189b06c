// What a step is given besides the record and the frame.
ghost use Rattle.std.specs.Prelude.{◌≡◌, length};
ghost use Rattle.device.specs.Device.{image_size, OfBytes};

use device::Options;

// The options, and an image that is as long as their device's.
#[derive(Clone, Copy)]
pub struct Board<'a> {
    pub options: Options,
    pub image: &'a [u8],
    pub ghost of_its_size: { length image.now ≡ image_size options.device },
    pub ghost of_bytes: { OfBytes image.now },
}

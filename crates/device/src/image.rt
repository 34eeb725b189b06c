// A device's image, of the bytes that it has, and what a P3 shows of it.
ghost use Rattle.std.specs.Prelude.{◌≡◌, ◌<◌, ◌≤◌, length, IfOk, IfErr, ◌≢◌};
ghost use Rattle.numbers.specs.Sizes.{addresses};
ghost use Rattle.device.specs.Device.{image_size, window_end, rom_of, Banked};

use crate::{Device, image_size, in_image, is_banked};
use numbers::Refusal;

// An image of a device is exactly as long as the device's.
#[derive(Clone, Copy)]
pub struct Image<'a> {
    pub device: Device,
    pub bytes: &'a [u8],
    pub ghost of_its_size: { length bytes.now ≡ image_size device },
}

// An image seen through the window of a P3, in which every address has its byte.
#[derive(Clone, Copy)]
pub struct Window<'a> {
    pub bytes: &'a [u8],
    pub p3: u8,
    pub ghost reaches: { window_end p3 ≤ length bytes.now },
}

impl<'a> Image<'a> {
    // Refuses bytes of another size.
    pub fn of(device: Device, bytes: &'a [u8]) -> Result<Image<'a>, Refusal>
        ensures ok { IfOk result (λ image. (length bytes.now ≡ image_size device) × (image.device ≡ device) × (image.bytes.now ≡ bytes.now)) }
        ensures err { IfErr result (λ refusal. (length bytes.now ≢ image_size device) × (refusal ≡ Refusal.ImageOfAnotherSize)) }
    {
        if bytes.len() == image_size(device) {
            Ok(Image { device, bytes })
        } else {
            Err(Refusal::ImageOfAnotherSize)
        }
    }

    // What P3 shows of the image.
    pub fn window(self, p3: u8) -> Window<'a>
        requires { Banked self.device p3 }
        ensures bytes { result.bytes.now ≡ self.entry.bytes.now }
        ensures p3 { result.p3 ≡ p3 }
    {
        Window {
            bytes: self.bytes,
            p3,
        }
    }

    // The same for any number; refuses one that the device's P3 does not have.
    pub fn shown(self, p3: u32) -> Result<Window<'a>, Refusal>
        ensures ok { IfOk result (λ window. Banked self.entry.device p3 × (window.bytes.now ≡ self.entry.bytes.now) × (window.p3 ≡ p3)) }
        ensures err { IfErr result (λ refusal. (Banked self.entry.device p3 → ⊥) × (refusal ≡ Refusal.RecordOutsideTheRanges)) }
    {
        if is_banked(self.device, p3) {
            Ok(self.window(p3 as u8))
        } else {
            Err(Refusal::RecordOutsideTheRanges)
        }
    }
}

impl Window<'_> {
    // The byte of an address.
    pub fn byte(self, at: u16) -> u8
        requires { at < addresses }
        ensures { result ≡ rom_of self.entry.bytes.now self.entry.p3 at }
    {
        self.bytes[in_image(self.p3, at)]
    }
}

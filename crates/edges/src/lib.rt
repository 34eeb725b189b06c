// The edges between the last frame and this one, and the pins that wake.
#![tactic(auto)]

ghost use Rattle.std.specs.Prelude.{◌≡◌, ◌<◌};
ghost use Rattle.edges.specs.Edges.{fell, rose, pin_wakes, port_wakes, wakes};

use bits::has_bit;
use frame::Pins;

// The pin of weight w was 1 and is 0.
pub fn fell(old: u8, new: u8, w: u8) -> bool
    requires { 0 < w }
    ensures { result ≡ fell old new w }
{
    has_bit(old, w) && !has_bit(new, w)
}

// It is 1 and was 0.
pub fn rose(old: u8, new: u8, w: u8) -> bool
    requires { 0 < w }
    ensures { result ≡ rose old new w }
{
    fell(new, old, w)
}

// By its level an enabled pin wakes where it reads 0, else where it fell.
fn pin_wakes(level: bool, enabled: u8, old: u8, new: u8, w: u8) -> bool
    requires { 0 < w }
    ensures { result ≡ pin_wakes level enabled old new w }
{
    has_bit(enabled, w)
        && if level {
            !has_bit(new, w)
        } else {
            fell(old, new, w)
        }
}

fn port_wakes(level: bool, enabled: u8, old: u8, new: u8) -> bool
    ensures { result ≡ port_wakes level enabled old new }
{
    [1, 2, 4, 8]
        .iter()
        .any(|w| pin_wakes(level, enabled, old, new, *w))
}

// Whether an enabled wake pin reads 0, or without level fell: bits 0 to 3 of enabled are for P0, bits 4 to 7 for P8.
#[tactic(auto, unfolding(crate::specs::Edges::wakes))]
pub fn wakes(level: bool, enabled: u8, old: Pins, new: Pins) -> bool
    ensures { result ≡ wakes level enabled old new }
{
    port_wakes(level, enabled % 16, old.p0, new.p0)
        || port_wakes(level, enabled / 16, old.p8, new.p8)
}

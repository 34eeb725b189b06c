// The words before the image that name a device and P3, as docs/PROGRAMS.md has them. A word that is missing is empty.
ghost use Rattle.std.specs.Prelude.{◌≡◌};
ghost use Rattle.text.specs.Same.{same_text};
ghost use Rattle.program.specs.Words.{chosen, name_of, device_words, p3_word, window_words, address_word};

use check::same;
use device::{Device, also_writable};
use text::words::{read_address, read_number};

// The device, P3, and how many words stand before the image.
#[derive(Clone, Copy)]
pub struct Chosen {
    pub device: Device,
    pub p3: u32,
    pub before: u8,
}

// Whether a word is a text, character by character.
pub fn is(word: &[u8], text: &[u8]) -> bool
    ensures { result ≡ same_text word.now text.now }
{
    same(word, text)
}

fn made(device: Device, p3: u32, before: u8) -> Option<Chosen>
    ensures { result ≡ chosen device p3 before }
{
    Some(Chosen { device, p3, before })
}

#[tactic(auto, unfolding(crate::specs::Words::name_of))]
fn named(name: &[u8]) -> Option<Chosen>
    ensures { result ≡ name_of name.now }
{
    if is(name, b"EM73862") {
        made(Device::Em73862, 0, 2)
    } else if is(name, b"EM73P982") {
        made(Device::Em73P982, 0, 2)
    } else {
        None
    }
}

// What the first two words choose, for a program that takes no P3.
#[tactic(auto, unfolding(crate::specs::Words::device_words))]
pub fn device_words(one: &[u8], two: &[u8]) -> Option<Chosen>
    ensures { result ≡ device_words one.now two.now }
{
    if is(one, b"--device") {
        named(two)
    } else {
        made(Device::Em73862, 0, 0)
    }
}

// N, after the words that name the device.
#[tactic(auto, unfolding(crate::specs::Words::p3_word))]
fn p3_word(d: Device, n: &[u8]) -> Option<Chosen>
    ensures { result ≡ p3_word d n.now }
{
    if !also_writable(d, 3) {
        return None;
    }
    made(d, read_number(n, 10)?, 4)
}

// What the first four words choose, for a program that takes P3.
#[tactic(auto, unfolding(crate::specs::Words::window_words))]
pub fn window_words(one: &[u8], two: &[u8], three: &[u8], four: &[u8]) -> Option<Chosen>
    ensures { result ≡ window_words one.now two.now three.now four.now }
{
    if is(one, b"--p3") {
        return None;
    }
    let c = device_words(one, two)?;
    if c.before != 0 && is(three, b"--p3") {
        p3_word(c.device, four)
    } else {
        Some(c)
    }
}

// The address that a word names, with 0x before its digits or h behind them or neither.
#[tactic(auto, unfolding(crate::specs::Words::address_word))]
pub fn address_word(word: &[u8]) -> Option<u16>
    ensures { result ≡ address_word word.now }
{
    let bare = match word {
        [] | [_] => word,
        [b'0', b'x', bare @ ..] => bare,
        [bare @ .., b'h'] => bare,
        _ => word,
    };
    read_address(bare)
}

// Places numbered as they are found: one map by place, and one array by number of words, which holds the place until its node is laid there. No chip.
#![tactic(auto)]

ghost use Rattle.std.specs.Prelude.{◌≡◌, ◌+◌, ◌<◌, ◌≤◌, length};
ghost use Rattle.routines.specs.Exploring.{Told};
ghost use Rattle.routines_numbered.specs.Packed.{place_in, kind_in, next_in, other_in, into_in, cost_in, packed, Fits, name_in, map_in};
ghost use Rattle.routines_numbered.specs.Numbering.{Numbers};

// What follows a node, by number: of a call the places after it where SF is unknown and where it is known, and the first place of its routine.
#[derive(Clone, Copy)]
pub struct Links {
    pub next: usize,
    pub other: usize,
    pub into: usize,
}

// Numbers w, unless it has a number. Returns how many have one; that of w is map[w] - 1.
pub fn number(map: &mut [u16], words: &mut [u64], count: usize, w: usize) -> usize
    requires { Told (name_in words.old) (map_in map.old) count × (length map.old ≡ 16384) × (length words.old ≡ 16384) × (w < 16384) }
    ensures { Numbers (λ u. u ≡ w) words.old map.old count words.new map.new result × (result ≤ count + 1) }
{
    if map[w] != 0 {
        return count;
    }
    map[w] = (count + 1) as u16;
    words[count] = w as u64;
    count + 1
}

// A node in one number.
pub fn pack(place: usize, links: Links, kind: u8, cost: u32) -> u64
    requires { Fits place links.next links.other links.into kind cost }
    ensures { result ≡ packed place links.next links.other links.into kind cost }
{
    place as u64
        + 16384 * links.next as u64
        + 536870912 * links.other as u64
        + 17592186044416 * links.into as u64
        + 576460752303423488 * kind as u64
        + 4611686018427387904 * cost as u64
}

pub fn place_of(word: u64) -> usize
    ensures { result ≡ place_in word }
{
    (word % 16384) as usize
}

pub fn next_of(word: u64) -> usize
    ensures { result ≡ next_in word }
{
    (word / 16384 % 32768) as usize
}

pub fn other_of(word: u64) -> usize
    ensures { result ≡ other_in word }
{
    (word / 536870912 % 32768) as usize
}

pub fn into_of(word: u64) -> usize
    ensures { result ≡ into_in word }
{
    (word / 17592186044416 % 32768) as usize
}

pub fn kind_of(word: u64) -> u8
    ensures { result ≡ kind_in word }
{
    (word / 576460752303423488 % 8) as u8
}

pub fn cost_of(word: u64) -> u32
    ensures { result ≡ cost_in word }
{
    (word / 4611686018427387904 % 4) as u32
}

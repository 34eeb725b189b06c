// The places of an image that a handler's routines may reach, calls and both places after them included, numbered as they are found and laid as words by number.
#![tactic(auto)]

ghost use Rattle.std.specs.Prelude.{◌≡◌, ℕ, ◌+◌, ◌*◌, ◌%◌, ◌<◌, ◌≤◌, length, get_or};
ghost use Rattle.device.specs.Device.{rom_of, window_end};
ghost use Rattle.graph_search.specs.Marks.{Blank};
ghost use Rattle.routines.specs.Exploring.{Told};
ghost use Rattle.routines_numbered.specs.Packed.{name_in, map_in};
ghost use Rattle.routines_numbered.specs.Numbering.{Numbers};
ghost use Rattle.bound_numbered.specs.Found.{After, Good, Linked, Reads, ImageNumbered};

use bound_calls::{CallNode, node_at};
use device::Device;
use routines_numbered::{Links, number, pack, place_of};

// Numbers what may follow a node: of a call both places after it and the first of its routine.
fn number_after(map: &mut [u16], words: &mut [u64], count: usize, x: CallNode) -> usize
    requires { Told (name_in words.old) (map_in map.old) count × (length map.old ≡ 16384) × (length words.old ≡ 16384) × Good x }
    ensures { Numbers (After x) words.old map.old count words.new map.new result }
{
    if x.kind == 3 {
        let unknown = number(map, words, count, x.next as usize);
        let known = number(map, words, unknown, x.other as usize);
        return number(map, words, known, 2 * x.entry as usize);
    }
    if x.kind != 1 {
        return count;
    }
    let next_count = number(map, words, count, x.next as usize);
    number(map, words, next_count, x.other as usize)
}

// The number of a place that has one.
fn number_of(map: &[u16], w: usize) -> usize
    requires { (w < length map.now) × (0 < map_in map.now w) }
    ensures { result + 1 ≡ map_in map.now w }
{
    map[w] as usize - 1
}

// The numbers of what may follow a node, 0 where nothing does.
fn links_of(map: &[u16], x: CallNode) -> Links
    requires { (length map.now ≡ 16384) × Good x × ((w : ℕ) → After x w → 0 < map_in map.now w) }
    ensures { Linked (map_in map.now) x result }
{
    if x.kind == 3 {
        return Links {
            next: number_of(map, x.next as usize),
            other: number_of(map, x.other as usize),
            into: number_of(map, 2 * x.entry as usize),
        };
    }
    if x.kind == 1 {
        return Links {
            next: number_of(map, x.next as usize),
            other: number_of(map, x.other as usize),
            into: 0,
        };
    }
    Links {
        next: 0,
        other: 0,
        into: 0,
    }
}

// Reads the place that has the number head: numbers what may follow it, and lays its word. Returns how many places have a number.
fn read_place(
    d: Device,
    image: &[u8],
    p3: u8,
    map: &mut [u16],
    words: &mut [u64],
    count: usize,
    head: usize,
) -> usize
    requires { (window_end p3 ≤ length image.now) × Told (name_in words.old) (map_in map.old) count × (length map.old ≡ 16384) × (length words.old ≡ 16384) × (head < count) }
    ensures { Reads d (rom_of image.now p3) words.old map.old count head words.new map.new result }
{
    let place = place_of(words[head]);
    let x = node_at(d, image, p3, place);
    let found = number_after(map, words, count, x);
    let links = links_of(map, x);
    words[head] = pack(place, links, x.kind, x.cost);
    found
}

// Numbers what a handler's routines may reach from an address and no more, in arrays of zeros; the handler's start has the number 0. Returns how many places that is.
pub fn explore(
    d: Device,
    image: &[u8],
    p3: u8,
    address: usize,
    map: &mut [u16],
    words: &mut [u64],
) -> usize
    requires { (window_end p3 ≤ length image.now) × (address < 8192) × Blank map.old × (length map.old ≡ 16384) × Blank words.old × (length words.old ≡ 16384) }
    ensures { ImageNumbered d (rom_of image.now p3) address words.new map.new result }
{
    let mut count = number(map, words, 0, 2 * address + 1);
    let mut head = 0;
    while head < count {
        count = read_place(d, image, p3, map, words, count, head);
        head += 1;
    }
    count
}

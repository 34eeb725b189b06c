// What both ways do at a number: whether the way is over there, where it goes back to, and its address in two bytes.
ghost use Rattle.std.specs.Prelude.{◌≡◌, ◌+◌, ◌-◌, ◌/◌, ◌%◌, ◌<◌, ◌≤◌, length, get_or, set};
ghost use Rattle.routines_joined.specs.Refused.{address_in};
ghost use Rattle.routines_sums.specs.Ways.{ways_in};
ghost use Rattle.routines_paths.specs.Open.{More};

use routines_numbered::place_of;
use routines_sums::way_of;

// The way is not over at v, with so many calls open.
pub fn more(words: &[u64], v: usize, top: usize) -> bool
    requires { v < length words.now }
    ensures { More ((ways_in words.now).kind v) top result }
{
    way_of(words, v).kind != 2 || 0 < top
}

// Where the latest call goes on, of so many that are open.
pub fn latest(stack: &[u16], top: usize) -> usize
    requires { (0 < top) × (top < length stack.now) }
    ensures { result ≡ get_or stack.now (top - 1) 0 }
{
    stack[top - 1] as usize
}

// The address of v, low byte first.
pub fn put(words: &[u64], v: usize, path: &mut [u8], at: usize)
    requires { (v < length words.now) × (at + 2 ≤ length path.old) }
    ensures { path.new ≡ set (set path.old at (address_in words.now v % 256)) (at + 1) (address_in words.now v / 256 % 256) }
{
    let address = place_of(words[v]) / 2;
    path[at] = (address % 256) as u8;
    path[at + 1] = (address / 256 % 256) as u8;
}

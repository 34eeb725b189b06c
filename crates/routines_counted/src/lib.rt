// Numbers of counts in mixed radix: how many there are at a place, and where a step leads. A count is one number: its address, and from bit 16 up how often its row may be executed.
#![tactic(auto)]

pub mod bases;
pub mod masks;
pub mod nodes;
pub mod pruned;
pub mod reached;
pub mod seeded;
pub mod steps;

ghost use Rattle.std.specs.Prelude.{◌≡◌, ◌+◌, ◌*◌, ◌<◌, ◌≤◌, length};
ghost use Rattle.laws.specs.Choice.{pick};
ghost use Rattle.counts.specs.Radix.{weighs_first, size, first_of, rest_of, stepped};
ghost use Rattle.routines_counted.specs.Counting.{count_of, counts_of, Times, Sizes, Moves};

// More numbers than this have no room.
pub const MOST_TURNS: u32 = 32768;

// s times as many as a count has numbers, where it weighs; as it is where it is too large already.
fn times(s: u32, count: u32, mask: u16) -> u32
    ensures { Times s count mask result }
{
    if MOST_TURNS < s {
        return s;
    }
    if mask % 2 == 0 {
        return s;
    }
    s * (count / 65536 + 1)
}

// How many numbers the counts that weigh by the mask have; where they are more than 32,768, only that.
pub fn size_of(counts: &[u32], mask: u16) -> u32
    requires { length counts.now ≤ 16 }
    ensures { Sizes (counts_of counts.now) mask result }
{
    let mut s = 1;
    let mut m = mask;
    for &count in counts {
        s = times(s, count, m);
        m /= 2;
    }
    s
}

// What d has of the first count: its number, 0 where it does not weigh.
fn first_in(count: u32, mask: u16, d: u32) -> u32
    ensures { result ≡ first_of (count_of count) mask d }
{
    if mask % 2 == 0 {
        return 0;
    }
    d % (count / 65536 + 1)
}

// What d has of the others.
fn rest_in(count: u32, mask: u16, d: u32) -> u32
    ensures { result ≡ rest_of (count_of count) mask d }
{
    if mask % 2 == 0 {
        return d;
    }
    d / (count / 65536 + 1)
}

// A count's number after a step to an address.
fn step_to(count: u32, address: u32, n: u32) -> u32
    requires { n < 65536 }
    ensures { result ≡ stepped (count_of count) address n }
{
    if count % 65536 == address {
        return n + 1;
    }
    n
}

// r with a count's number n as its next digit, where the count weighs.
fn with_digit(r: u32, scale: u32, mask: u16, n: u32) -> u32
    requires { (r < scale) × (scale ≤ 32768) × (n < 65536) }
    ensures { result ≡ r + pick (weighs_first mask) (scale * n) 0 }
{
    if mask % 2 == 0 {
        return r;
    }
    r + scale * n
}

// No step leads there.
pub const NO_STEP: u32 = 65535;

// Where a step to an address leads from the numbers d, by the mask there; or that a count would be exceeded.
pub fn moved_to(counts: &[u32], mask: u16, there: u16, address: u32, d: u32) -> u32
    requires { (length counts.now ≤ 16) × (size (counts_of counts.now) there ≤ 32768) }
    ensures { Moves (counts_of counts.now) mask there address d result }
{
    let mut r = 0;
    let mut scale = 1;
    let mut m = mask;
    let mut t = there;
    let mut left = d;
    for &count in counts {
        let n = step_to(count, address, first_in(count, m, left));
        if count / 65536 < n {
            return NO_STEP;
        }
        r = with_digit(r, scale, t, n);
        scale = times(scale, count, t);
        left = rest_in(count, m, left);
        m /= 2;
        t /= 2;
    }
    r
}

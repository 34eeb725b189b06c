// The routines of a numbered flow joined in one graph. Its nodes: the entries, then each number twice, in a called routine and in the outer one.
ghost use Rattle.routines_joined.specs.Words.{Laid};

// How many entries a call can have, and how many nodes the joined graph has at most.
pub const ENTRIES: usize = 2048;

pub const NODES: usize = 34816;

// The words of so many numbers, and the map by place. A node is read from the words when it is asked for.
#[derive(Clone, Copy)]
pub struct Joined<'a> {
    pub words: &'a [u64],
    pub map: &'a [u16],
    pub numbers: usize,
    ghost laid: { Laid words.now map.now numbers },
}

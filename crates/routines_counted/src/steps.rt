// The words of so many numbers as a graph in which calls are stepped over.
ghost use Rattle.routines_known.specs.Marking.{Sized};

#[derive(Clone, Copy)]
pub struct Steps<'a> {
    pub words: &'a [u64],
    pub numbers: usize,
    ghost sized: { Sized words.now numbers },
}

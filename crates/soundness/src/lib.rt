//! When the words of a store are sound: tests on words alone, and that they accept the words of well-formed queues and
//! no others. The code of the check is in `audit`.
#![tactic(auto)]

// A list of siblings as its owner has it: the heap (1 + its number) and the parent that each item in it must name, and
// the words that name its ends.
#[derive(Clone, Copy)]
pub struct Siblings {
    pub heap: usize,
    pub parent: usize,
    pub first: usize,
    pub last: usize,
}

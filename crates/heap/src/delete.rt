// Taking a heap's minimum, and deleting any item.
ghost use Rattle.rules.specs.declared.Call.TheVariants.{ExtractMin, Delete};
ghost use Rattle.rules.specs.Calls as calls;
ghost use Rattle.rules.specs.Words.{queues_of};
ghost use Rattle.cut.specs.Ready.{CascadeReady};
ghost use Rattle.heap.specs.Allowed.{MayMove, Moves};
ghost use Rattle.heap.specs.Moving.{CutsIf, DeleteOther};

use super::decrease::heap_of;
use consolidate::remove_root;
use cut::cut_out;
use rules::{Field, Tally};
use store::{NONE, get};

// T: the minimum leaves, then linking follows.
pub fn extract_min(s: &mut [u32], n: usize, h: u32, tally: Tally) -> Tally
    requires { MayMove s.old n (ExtractMin h) tally }
    ensures { Moves (queues_of s.old) (ExtractMin h) tally result s.new }
{
    consolidate::extract_min(s, n, h, tally).tally
}

// The item i is cut if it has a parent. Answers the number of cuts. (What `cut_if_before` tests besides is not passed as
// a closure: the contract of one function for both would be longer than the two.)
fn cut_if_child(s: &mut [u32], n: usize, h: u32, i: u32) -> u32
    requires { CascadeReady n s.old h i }
    ensures { CutsIf (λ t. calls.has_parent t i) n s.old h i s.new result }
{
    let p = get(s, n, Field::Parent, i);
    if p == NONE {
        return 0;
    }
    cut_out(s, n, h, i)
}

// An item of heap h that is not its minimum is cut if it has a parent, and leaves the row with no linking.
fn delete_other(s: &mut [u32], n: usize, h: u32, i: u32, tally: Tally) -> Tally
    requires { DeleteOther s.old n h i tally }
    ensures { Moves (queues_of s.old) (Delete i) tally result s.new }
{
    let cuts = cut_if_child(s, n, h, i);
    remove_root(s, n, h, i);
    tally.cut(cuts)
}

// X: a heap's minimum leaves as by T, any other item with no linking.
pub fn delete(s: &mut [u32], n: usize, i: u32, tally: Tally) -> Tally
    requires { MayMove s.old n (Delete i) tally }
    ensures { Moves (queues_of s.old) (Delete i) tally result s.new }
{
    let h = heap_of(s, n, i);
    let m = get(s, n, Field::Minimum, h);
    if m == i {
        return extract_min(s, n, h, tally);
    }
    delete_other(s, n, h, i, tally)
}

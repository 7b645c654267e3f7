// Lowering a key.
ghost use Rattle.std.specs.Prelude.{◌≡◌, ◌&&◌};
ghost use Rattle.rules.specs.declared.Call.TheVariants.{DecreaseKey};
ghost use Rattle.rules.specs.Calls as calls;
ghost use Rattle.rules.specs.Forests.{heap_number, parent_of};
ghost use Rattle.rules.specs.Order as order;
ghost use Rattle.rules.specs.Words.{queues_of, forests_of};
ghost use Rattle.cut.specs.Ready.{CascadeReady};
ghost use Rattle.heap.specs.Allowed.{MayMove, Moves};
ghost use Rattle.heap.specs.Moving.{InHeap, CutsIf};

use cut::cut_out;
use rules::{Field, Layout, Tally};
use store::keys::put_key;
use store::order::{lesser_of, precedes};
use store::{NONE, get, put};

// The heap that an item is in.
pub fn heap_of(s: &[u32], n: usize, i: u32) -> u32
    requires { InHeap s.now n i }
    ensures { result ≡ heap_number (forests_of s.now) i }
{
    (get(s, n, Field::State, i) - 1) / 2
}

// The item i is cut if it comes before its parent. Answers the number of cuts.
fn cut_if_before(s: &mut [u32], n: usize, h: u32, i: u32) -> u32
    requires { CascadeReady n s.old h i }
    ensures { CutsIf (λ t. calls.has_parent t i && order.precedes t.key i (parent_of t i))
        n s.old h i s.new result }
{
    let p = get(s, n, Field::Parent, i);
    if p == NONE {
        return 0;
    }
    if !precedes(s, Layout::ByItem, n, h, i, p) {
        return 0;
    }
    cut_out(s, n, h, i)
}

// D: the key is lowered, and i is cut if by the new key it comes before a parent.
pub fn decrease_key(s: &mut [u32], n: usize, i: u32, k: u32, tally: Tally) -> Tally
    requires { MayMove s.old n (DecreaseKey i k) tally }
    ensures { Moves (queues_of s.old) (DecreaseKey i k) tally result s.new }
{
    let h = heap_of(s, n, i);
    put_key(s, n, h, i, k);
    let cuts = cut_if_before(s, n, h, i);
    let m = get(s, n, Field::Minimum, h);
    let least = lesser_of(s, Layout::ByItem, n, h, m, i);
    put(s, n, Field::Minimum, h, least);
    tally.cut(cuts)
}

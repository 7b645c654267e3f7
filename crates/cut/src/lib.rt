// A cut, and the cuts that follow it, on a store for n items.
#![tactic(auto)]

ghost use Rattle.std.specs.Prelude.{ℕ, suc, ◌<◌};
ghost use Rattle.rules.specs.Forests.{Forests, none};
ghost use Rattle.rules.specs.Cut.{cut, node_kind, cascading_cut, cut_out};
ghost use Rattle.store.specs.Families.{Holds};
ghost use Rattle.cut.specs.Ready.{Member, Child, CutReady, CascadeReady, Cascaded};

use rules::Field;
use store::Owner;

// One cut: the tree x leaves its parent and goes unmarked to the end of row h.
fn cut(s: &mut [u32], n: usize, h: u32, x: u32)
    requires { CutReady n s.old h x }
    ensures { (a c m : ℕ → ℕ) (t : Forests) → Holds n s.old a c m t none → Child t h x
        → Holds n s.new a c m (cut h x t) none }
{
    let p = store::get(s, n, Field::Parent, x);
    store::remove(s, n, Owner::Children(p), x);
    store::put(s, n, Field::State, x, 1 + 2 * h);
    store::append(s, n, Owner::Row(h), x);
}

// The item x lost a child: a root stays as it is, an unmarked child is marked, a marked one is cut likewise.
// Answers the number of cuts.
fn cascading_cut(s: &mut [u32], n: usize, h: u32, x: u32) -> u32
    requires { CascadeReady n s.old h x }
    ensures { (a c m : ℕ → ℕ) (t : Forests) → Holds n s.old a c m t none → Member t h x
        → Cascaded n s.new a c m (cascading_cut (suc n) (node_kind t x) h x t) result }
{
    let mut p = x;
    let most = n as u32 + 1;
    for cuts in 0..most {
        let q = store::get(s, n, Field::Parent, p);
        if q == store::NONE {
            return cuts;
        }
        let v = store::get(s, n, Field::State, p);
        if v % 2 == 1 {
            store::put(s, n, Field::State, p, v + 1);
            return cuts;
        }
        cut(s, n, h, p);
        p = q;
    }
    most
}

// x is cut, and its parent is then treated as one that lost a child. Answers the number of cuts.
pub fn cut_out(s: &mut [u32], n: usize, h: u32, x: u32) -> u32
    requires { CutReady n s.old h x }
    ensures { (a c m : ℕ → ℕ) (t : Forests) → Holds n s.old a c m t none → Child t h x
        → Cascaded n s.new a c m (cut_out h x t) result }
{
    let p = store::get(s, n, Field::Parent, x);
    cut(s, n, h, x);
    let more = cascading_cut(s, n, h, p);
    more + 1
}

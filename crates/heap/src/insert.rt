// Insertion, and the minimum shown.
ghost use Rattle.std.specs.Prelude.{◌≡◌};
ghost use Rattle.rules.specs.declared.Call.TheVariants.{Insert, FindMin};
ghost use Rattle.rules.specs.Order as order;
ghost use Rattle.rules.specs.Queues.{after_call};
ghost use Rattle.rules.specs.Words.{encode, queues_of, forests_of};
ghost use Rattle.store.specs.Says.{Changes};
ghost use Rattle.heap.specs.Allowed.{Allowed};
ghost use Rattle.heap.specs.Entered.{entered, item_counted, EnterReady, CountItemReady};

use rules::{Field, Layout};
use store::keys::put_key;
use store::order::lesser_of;
use store::{NONE, Owner, append, get, put};

// The words of a new tree that do not depend on its place in the row.
fn enter(s: &mut [u32], n: usize, h: u32, i: u32, k: u32)
    requires { EnterReady n s.old h i }
    ensures { Changes n s.old (entered h i k) s.new }
{
    put_key(s, n, h, i, k);
    put(s, n, Field::State, i, 1 + 2 * h);
    put(s, n, Field::FirstChild, i, NONE);
    put(s, n, Field::LastChild, i, NONE);
}

// The heap's words: one item more, and its minimum.
fn count_item(s: &mut [u32], n: usize, h: u32, i: u32)
    requires { CountItemReady n s.old h i }
    ensures { Changes n s.old (item_counted h i) s.new }
{
    let m = get(s, n, Field::Minimum, h);
    let c = get(s, n, Field::Count, h);
    let least = lesser_of(s, Layout::ByItem, n, h, m, i);
    put(s, n, Field::Count, h, c + 1);
    put(s, n, Field::Minimum, h, least);
}

// I: a new tree at the row's end.
pub fn insert(s: &mut [u32], n: usize, h: u32, i: u32, k: u32)
    requires { Allowed s.old n (Insert h i k) }
    ensures { s.new ≡ encode (after_call (queues_of s.old) (Insert h i k)) }
{
    enter(s, n, h, i, k);
    append(s, n, Owner::Row(h), i);
    count_item(s, n, h, i);
}

// M: the minimum of a heap.
pub fn find_min(s: &[u32], n: usize, h: u32) -> u32
    requires { Allowed s.now n (FindMin h) }
    ensures { result ≡ order.minimum (forests_of s.now) h }
{
    get(s, n, Field::Minimum, h)
}

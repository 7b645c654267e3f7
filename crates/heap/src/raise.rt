// Raising all keys of a heap.
ghost use Rattle.std.specs.Prelude.{◌≡◌, ◌<◌};
ghost use Rattle.rules.specs.declared.Call.TheVariants.{Raise};
ghost use Rattle.rules.specs.Answers.{some_carried_over};
ghost use Rattle.rules.specs.Queues.{after_call};
ghost use Rattle.rules.specs.Words.{encode, queues_of, forests_of};
ghost use Rattle.heap.specs.Allowed.{Store, Allowed};

use super::meld::in_heap;
use rules::{Field, Layout};
use store::keys::key_of;
use store::{get, put};

// Whether a raise by d would carry some key of heap h above 4,294,967,295: one pass over all items.
pub fn carries_over(s: &[u32], n: usize, h: u32, d: u32) -> bool
    requires store { Store s.now n }
    requires h_bound { h < 8 }
    ensures { result ≡ some_carried_over h d (forests_of s.now) n }
{
    let most = u32::MAX - d;
    for i in 0..n as u32 {
        let x = get(s, n, Field::State, i);
        if in_heap(x, h) & (key_of(s, Layout::ByItem, n, h, i) > most) {
            return true;
        }
    }
    false
}

// A: the amount of heap h rises by d, and no other word changes. An empty heap has no key to raise.
pub fn raise(s: &mut [u32], n: usize, h: u32, d: u32)
    requires { Allowed s.old n (Raise h d) }
    ensures { s.new ≡ encode (after_call (queues_of s.old) (Raise h d)) }
{
    if get(s, n, Field::Count, h) != 0 {
        let amount = get(s, n, Field::Amount, h);
        put(s, n, Field::Amount, h, amount.wrapping_add(d));
    }
}

// Keys, and their words: the word of an item's key is the key less the amount of its heap, both wrapping at 32 bits.
ghost use Rattle.std.specs.Prelude.{◌≡◌, ◌<◌};
ghost use Rattle.rules.specs.declared.Field.TheVariants.{Key};
ghost use Rattle.rules.specs.Queues.{key_from, key_word};
ghost use Rattle.rules.specs.Words.{look_in};
ghost use Rattle.store.specs.Empty.{amount_settled};
ghost use Rattle.store.specs.ItemOrder.{item_key, key_stored};
ghost use Rattle.store.specs.Says.{Sized, Within, Changes};

use super::{get, get_in, put};
use rules::{Field, Layout};

// The key that an amount and a key word make.
pub fn key_from(amount: u32, word: u32) -> u32
    ensures { result ≡ key_from amount word }
{
    word.wrapping_add(amount)
}

// The word of a key, by the amount of its heap.
pub fn key_word(amount: u32, key: u32) -> u32
    ensures { result ≡ key_word amount key }
{
    key.wrapping_sub(amount)
}

// The key of an item of heap h, in either order of the words.
pub fn key_of(s: &[u32], layout: Layout, n: usize, h: u32, i: u32) -> u32
    requires within { Within n s.now Key i }
    requires h_bound { h < 8 }
    ensures { result ≡ item_key h (look_in layout n s.now) i }
{
    let amount = get_in(s, layout, n, Field::Amount, h);
    key_from(amount, get_in(s, layout, n, Field::Key, i))
}

// The key of an item of heap h stored.
pub fn put_key(s: &mut [u32], n: usize, h: u32, i: u32, k: u32)
    requires within { Within n s.old Key i }
    requires h_bound { h < 8 }
    ensures { Changes n s.old (key_stored h i k) s.new }
{
    let amount = get(s, n, Field::Amount, h);
    put(s, n, Field::Key, i, key_word(amount, k));
}

// The amount of an empty heap is 0.
pub fn settle_amount(s: &mut [u32], n: usize, h: u32)
    requires sized { Sized n s.old }
    requires h_bound { h < 8 }
    ensures { Changes n s.old (amount_settled h) s.new }
{
    if get(s, n, Field::Count, h) == 0 {
        put(s, n, Field::Amount, h, 0);
    }
}

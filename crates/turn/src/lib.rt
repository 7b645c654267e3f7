//! The turn of a store: the words of a sound store that stand by kind, put into the order in use in a second buffer.
//! The old words are checked and read where they lie; nothing is copied beside the second buffer.
#![tactic(auto)]

ghost use Rattle.std.specs.Prelude.{◌≡◌, ◌<◌};
ghost use Rattle.rules.specs.SetWord.{set_word};
ghost use Rattle.rules.specs.declared.Layout.TheVariants.{ByKind};
ghost use Rattle.rules.specs.Turn.{turn};
ghost use Rattle.rules.specs.Words.{look_in};
ghost use Rattle.store.specs.Says.{Sized, Within, Changes};
ghost use Rattle.turn.specs.Steps.{heap_kinds, item_kinds, words_from, TurnedTo};
ghost use Rattle.turn.specs.TurnStore.{turn_code, turned_words};

use audit::sound;
use rules::{Field, Layout, Refusal};
use store::{get_in, is_store, items_of, put};

// Word i of a kind, from its old place to its new one.
fn turn_word(old: &[u32], turned: &mut [u32], n: usize, f: Field, i: u32)
    requires within { Within n old.now f i }
    requires sized { Sized n turned.old }
    ensures { Changes n turned.old (set_word f i (look_in ByKind n old.now f i))
        turned.new }
{
    let x = get_in(old, Layout::ByKind, n, f, i);
    put(turned, n, f, i, x);
}

// The words of heap h: a line for each kind, which is no longer than an array of the kinds and a loop over it.
fn turn_heap(old: &[u32], turned: &mut [u32], n: usize, h: u32)
    requires sized { Sized n old.now }
    requires sized_2 { Sized n turned.old }
    requires h_bound { h < 8 }
    ensures { Changes n turned.old (words_from heap_kinds (look_in ByKind n old.now) h)
        turned.new }
{
    turn_word(old, turned, n, Field::FirstTree, h);
    turn_word(old, turned, n, Field::LastTree, h);
    turn_word(old, turned, n, Field::Minimum, h);
    turn_word(old, turned, n, Field::Count, h);
    turn_word(old, turned, n, Field::Amount, h);
}

// The words of item i, likewise.
fn turn_item(old: &[u32], turned: &mut [u32], n: usize, i: u32)
    requires sized { Sized n old.now }
    requires sized_2 { Sized n turned.old }
    requires i_lt_n { i < n }
    ensures { Changes n turned.old (words_from item_kinds (look_in ByKind n old.now) i)
        turned.new }
{
    turn_word(old, turned, n, Field::Key, i);
    turn_word(old, turned, n, Field::Parent, i);
    turn_word(old, turned, n, Field::FirstChild, i);
    turn_word(old, turned, n, Field::LastChild, i);
    turn_word(old, turned, n, Field::Next, i);
    turn_word(old, turned, n, Field::Prev, i);
    turn_word(old, turned, n, Field::Rank, i);
    turn_word(old, turned, n, Field::State, i);
}

// The words of all heaps.
fn turn_heaps(old: &[u32], turned: &mut [u32], n: usize)
    requires sized { Sized n old.now }
    requires sized_2 { Sized n turned.old }
    ensures { TurnedTo n (look_in ByKind n old.now) 8 0 turned.new }
{
    for h in 0..8 {
        turn_heap(old, turned, n, h);
    }
}

// Then the words of all items.
fn turn_items(old: &[u32], turned: &mut [u32], n: usize)
    requires sized { Sized n old.now }
    requires turned_to { TurnedTo n (look_in ByKind n old.now) 8 0 turned.old }
    ensures { turned.new ≡ turn old.now }
{
    for i in 0..n as u32 {
        turn_item(old, turned, n, i);
    }
}

// Turns a sound old store, or refuses under 1 or 5 and leaves the second buffer as it was. Returns the code, as C asks.
#[unsafe(no_mangle)]
pub extern "C" fn turn_store(old: &[u32], turned: &mut [u32]) -> u32
    ensures { (result ≡ turn_code old.now turned.old)
        × (turned.new ≡ turned_words old.now turned.old) }
{
    if !is_store(old) {
        return Refusal::StoreSize.code();
    }
    if turned.len() != old.len() {
        return Refusal::StoreSize.code();
    }
    if !sound(old, Layout::ByKind) {
        return Refusal::UnsoundStore.code();
    }
    let n = items_of(old);
    turn_heaps(old, turned, n);
    turn_items(old, turned, n);
    0
}

//! The check of a store: are its words, in the given order, those of well-formed queues? It reads words alone and keeps
//! no list. Its time grows with the number of items: an item passes in one list only, the one that its own words name.
#![tactic(auto)]

ghost use Rattle.std.specs.Prelude.{◌≡◌, suc, ◌<◌, ◌≤◌, IfSome};
ghost use Rattle.rules.specs.Order.{minimum};
ghost use Rattle.rules.specs.Words.{state_heap, state_mark, decode_forests};
ghost use Rattle.soundness.specs.Check.{parent_ok, free_zero, item_ok, count_at, all_ok, sound_words_in};
ghost use Rattle.audit.specs.Promises.{values, HasState, StatesLow, RowInside, AtMost, Counts};
ghost use Rattle.audit.specs.Promises.{link_ok, length_if_ok, ranks_if_ok, heap_if_ok, trees_if_ok};

mod view;

use rules::{Field, Layout};
use soundness::Siblings;
use store::order::{lesser_of, precedes};
use store::{get_in, is_store, items_of};
use view::View;

// No item, as a number of any width.
const NONE: usize = store::NONE as usize;

// The heap that a state word names: 0 for a free item, else 1 + its number. State words are stored so, as numbers.
fn heap_of(state: usize) -> usize
    ensures { AtMost (state_heap state) state result }
{
    state / 2 + state % 2
}

fn mark_of(state: usize) -> usize
    ensures { AtMost (state_mark state) 1 result }
{
    if state == 0 { 0 } else { (state - 1) % 2 }
}

// Item x may be the i-th (from 1) of a list, after item prev.
fn link_ok(view: &View, l: Siblings, prev: usize, i: usize, x: usize) -> bool
    ensures { result ≡ link_ok view.now.n (values view.now) l prev i x }
{
    if x >= view.n {
        return false;
    }
    let state = view.word(Field::State, x);
    let parent = view.word(Field::Parent, x);
    let before = view.word(Field::Prev, x);
    let rank = view.word(Field::Rank, x);
    let heap = heap_of(state);
    let mark = mark_of(state);
    (heap == l.heap)
        & (parent == l.parent)
        & (before == prev)
        & ((l.parent == NONE) | (i <= rank + mark + 1))
}

// The length of a list of siblings, if it is right. Inlined, since for most items it is a few steps.
#[inline(always)]
fn walk_list(view: &View, l: Siblings) -> Option<usize>
    ensures is { result ≡ length_if_ok view.now.n (values view.now) l }
    ensures most { IfSome result (λ k. k ≤ 4096) }
{
    let mut prev = NONE;
    let mut x = l.first;
    // A `while`, since what it has counted at its end is the answer.
    let mut j: usize = 0;
    while j < view.n {
        if x == NONE {
            break;
        }
        if !link_ok(view, l, prev, j + 1, x) {
            return None;
        }
        prev = x;
        x = view.word(Field::Next, x);
        j += 1;
    }
    if (x == NONE) & (l.last == prev) {
        Some(j)
    } else {
        None
    }
}

// The same of the children of an item: most have none, and then there is no list to walk along.
fn children_length(view: &View, l: Siblings) -> Option<usize>
    ensures { result ≡ length_if_ok view.now.n (values view.now) l }
{
    if (l.first == NONE) & (l.last == NONE) {
        return Some(0);
    }
    walk_list(view, l)
}

// A root is unmarked; any other item has a parent in its heap that comes before it.
fn parent_ok(view: &View, i: usize, state: usize) -> bool
    requires { HasState view.now.n (values view.now) i state }
    ensures { result ≡ parent_ok view.now.n (values view.now) i }
{
    let parent = view.word(Field::Parent, i);
    if parent == NONE {
        return mark_of(state) == 0;
    }
    if parent >= view.n {
        return false;
    }
    let heap = heap_of(state);
    let above = heap_of(view.word(Field::State, parent));
    let before = precedes(
        view.words,
        view.layout,
        view.n,
        (heap - 1) as u32,
        parent as u32,
        i as u32,
    );
    (above == heap) & before
}

// All words of a free item are 0.
fn free_zero(view: &View, i: usize) -> bool
    requires { i < view.now.n }
    ensures { result ≡ free_zero view.now.n (values view.now) i }
{
    let key = view.word(Field::Key, i);
    let parent = view.word(Field::Parent, i);
    let first = view.word(Field::FirstChild, i);
    let last = view.word(Field::LastChild, i);
    let next = view.word(Field::Next, i);
    let prev = view.word(Field::Prev, i);
    let rank = view.word(Field::Rank, i);
    (key == 0)
        & (parent == 0)
        & (first == 0)
        & (last == 0)
        & (next == 0)
        & (prev == 0)
        & (rank == 0)
}

// An item of a heap has as many children as its rank says.
fn item_ok(view: &View, i: usize) -> bool
    requires { i < view.now.n }
    ensures { result ≡ item_ok view.now.n (values view.now) i }
{
    let state = view.word(Field::State, i);
    if state == 0 {
        return free_zero(view, i);
    }
    if state > 16 {
        return false;
    }
    let placed = parent_ok(view, i, state);
    let heap = heap_of(state);
    let first = view.word(Field::FirstChild, i);
    let last = view.word(Field::LastChild, i);
    let length = children_length(
        view,
        Siblings {
            heap,
            parent: i,
            first,
            last,
        },
    );
    let rank = view.word(Field::Rank, i);
    placed & (length == Some(rank))
}

// The sum of all ranks, if every item is right.
fn ranks(view: &View) -> Option<usize>
    ensures is { result ≡ ranks_if_ok view.now.n (values view.now) }
    ensures most { IfSome result (λ k. k ≤ 17592186040320) }
{
    let mut sum: usize = 0;
    for i in 0..view.n {
        if !item_ok(view, i) {
            return None;
        }
        sum += view.word(Field::Rank, i);
    }
    Some(sum)
}

// How many items are free, and how many are in each heap: by the number that `heap_of` gives.
fn counts(view: &View) -> [usize; 9]
    requires { StatesLow view.now.n (values view.now) }
    ensures { Counts view.now.n (values view.now) result }
{
    let mut counts: [usize; 9] = [0; 9];
    for i in 0..view.n {
        let heap = heap_of(view.word(Field::State, i));
        counts[heap] += 1;
    }
    counts
}

// The least of the roots of heap h, NONE where there is none.
fn least_root(view: &View, h: usize) -> u32
    requires row_inside { RowInside view.now.n (values view.now) h }
    ensures { result ≡ minimum (decode_forests view.now.n (values view.now)) h }
{
    let mut least = store::NONE;
    let mut x = get_in(view.words, view.layout, view.n, Field::FirstTree, h as u32);
    for _ in 0..view.n {
        if x == store::NONE {
            break;
        }
        least = lesser_of(view.words, view.layout, view.n, h as u32, least, x);
        x = get_in(view.words, view.layout, view.n, Field::Next, x);
    }
    least
}

// The number of trees of a heap that has so many items, if the heap is right.
fn heap_length(view: &View, h: usize, count: usize) -> Option<usize>
    requires h_bound { h < 8 }
    requires count_value { count ≡ count_at view.now.n (values view.now) (suc h) }
    ensures is { result ≡ heap_if_ok view.now.n (values view.now) h }
    ensures most { IfSome result (λ k. k ≤ 4096) }
{
    let first = view.word(Field::FirstTree, h);
    let last = view.word(Field::LastTree, h);
    let length = walk_list(
        view,
        Siblings {
            heap: h + 1,
            parent: NONE,
            first,
            last,
        },
    )?;
    let least = get_in(view.words, view.layout, view.n, Field::Minimum, h as u32);
    let root = least_root(view, h);
    let items = view.word(Field::Count, h);
    let amount = view.word(Field::Amount, h);
    if (least == root) & (items == count) & ((items > 0) | (amount == 0)) {
        Some(length)
    } else {
        None
    }
}

// The number of all trees, if every heap is right.
fn trees(view: &View, counts: [usize; 9]) -> Option<usize>
    requires counts { Counts view.now.n (values view.now) counts }
    ensures is { result ≡ trees_if_ok view.now.n (values view.now) }
    ensures most { IfSome result (λ k. k ≤ 32768) }
{
    let mut sum: usize = 0;
    for h in 0..8 {
        sum += heap_length(view, h, counts[h + 1])?;
    }
    Some(sum)
}

// Every item and every heap is right, and each item stands in a list or is free.
fn all_ok(view: &View) -> bool
    ensures { result ≡ all_ok view.now.n (values view.now) }
{
    let Some(ranks) = ranks(view) else {
        return false;
    };
    let counts = counts(view);
    let Some(trees) = trees(view, counts) else {
        return false;
    };
    trees + ranks + counts[0] == view.n
}

// Whether any words are those of a sound store, in either order.
pub fn sound(store: &[u32], layout: Layout) -> bool
    ensures { result ≡ sound_words_in layout store.now }
{
    if !is_store(store) {
        return false;
    }
    all_ok(&View {
        words: store,
        layout,
        n: items_of(store),
    })
}

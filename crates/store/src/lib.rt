// The words of a store for n items: the only code that knows how many there are and where each lies.
// Nothing above this crate computes a size or indexes a store, but for `worked`, which prints words as they lie.
// The words and n are two parameters: as fields of a lent struct, every contract would have to say besides that n stays.
#![tactic(auto)]

ghost use Rattle.std.specs.Prelude.{◌≡◌, ◌<◌, ◌≤◌};
ghost use Rattle.rules.specs.Queues.{empty_queues};
ghost use Rattle.rules.specs.SetWord.{set_word};
ghost use Rattle.rules.specs.Words.{store_size, items_in, is_store, place_in, look_in, look, encode};
ghost use Rattle.store.specs.Says.{Sized, Within, Changes};
ghost use Rattle.store.specs.Empty.{empty_heap, free_item};
ghost use Rattle.store.specs.Siblings.{
  parent_in,
  last_of,
  set_first,
  set_last,
  set_next,
  set_prev,
  add_rank,
  drop_rank,
  joined,
  concatenated,
  appended,
  removed,
};
ghost use Rattle.store.specs.Siblings.{
  RankRises,
  RankFalls,
  OwnerReady,
  LinkReady,
  JoinReady,
  ConcatReady,
  AppendReady,
  RemoveReady,
};

pub mod keys;
pub mod order;

use rules::{Field, Layout};

// No item.
pub const NONE: u32 = 4294967295;

// Whose list of siblings: the row of a heap, or the children of an item.
#[derive(Clone, Copy)]
pub enum Owner {
    Row(u32),
    Children(u32),
}

// ---- how many words there are and where each lies

// The words of the eight heaps, which come first, and the words of an item.
pub const HEAP_WORDS: usize = 40;

pub const ITEM_WORDS: usize = 8;

// The most items that a store is for.
const MOST_ITEMS: usize = 4096;

// The words of a store for n items.
pub fn size_for(n: usize) -> usize
    requires { n ≤ 4096 }
    ensures { result ≡ store_size n }
{
    HEAP_WORDS + ITEM_WORDS * n
}

// The number of items, which the length sets.
pub fn items_of(s: &[u32]) -> usize
    ensures { result ≡ items_in s.now }
{
    s.len().saturating_sub(HEAP_WORDS) / ITEM_WORDS
}

// Whether the length is that of a store, for at most 4,096 items.
pub fn is_store(s: &[u32]) -> bool
    ensures { result ≡ is_store s.now }
{
    let n = items_of(s);
    n <= MOST_ITEMS && s.len() == size_for(n)
}

// Where word i of a kind lies. The kinds are numbered in the sequence in which their words lie: five of a heap, then
// eight of an item.
fn place(layout: Layout, n: usize, f: Field, i: usize) -> usize
    requires n_bound { n ≤ 4096 }
    requires i_bound { i ≤ 4096 }
    ensures { result ≡ place_in layout n f i }
{
    let number = f as usize;
    if number < 5 {
        return 5 * i + number;
    }
    match layout {
        Layout::ByItem => HEAP_WORDS + ITEM_WORDS * i + (number - 5),
        Layout::ByKind => HEAP_WORDS + (number - 5) * n + i,
    }
}

// ---- words

// Word i of a kind, in the order in use: what a hundred calls mean, so they do not name it.
pub fn get(s: &[u32], n: usize, f: Field, i: u32) -> u32
    requires { Within n s.now f i }
    ensures { result ≡ look n s.now f i }
{
    let at = place(Layout::ByItem, n, f, i as usize);
    s[at]
}

// The same in either order. The word is read in each case, so that a loop that reads words is compiled for each order.
pub fn get_in(s: &[u32], layout: Layout, n: usize, f: Field, i: u32) -> u32
    requires { Within n s.now f i }
    ensures { result ≡ look_in layout n s.now f i }
{
    match layout {
        Layout::ByItem => get(s, n, f, i),
        Layout::ByKind => s[place(Layout::ByKind, n, f, i as usize)],
    }
}

// Word i of a kind stored.
pub fn put(s: &mut [u32], n: usize, f: Field, i: u32, x: u32)
    requires { Within n s.old f i }
    ensures { Changes n s.old (set_word f i x) s.new }
{
    let at = place(Layout::ByItem, n, f, i as usize);
    s[at] = x;
}

// The words of an empty heap. A line for each word says which value it has; a loop over kinds and values says no more.
pub fn empty_heap(s: &mut [u32], n: usize, h: u32)
    requires sized { Sized n s.old }
    requires h_bound { h < 8 }
    ensures { Changes n s.old (empty_heap h) s.new }
{
    put(s, n, Field::FirstTree, h, NONE);
    put(s, n, Field::LastTree, h, NONE);
    put(s, n, Field::Minimum, h, NONE);
    put(s, n, Field::Count, h, 0);
    put(s, n, Field::Amount, h, 0);
}

// The words of a free item, each by its own line, as above.
pub fn free_item(s: &mut [u32], n: usize, i: u32)
    requires sized { Sized n s.old }
    requires i_lt_n { i < n }
    ensures { Changes n s.old (free_item i) s.new }
{
    put(s, n, Field::Key, i, 0);
    put(s, n, Field::Parent, i, 0);
    put(s, n, Field::FirstChild, i, 0);
    put(s, n, Field::LastChild, i, 0);
    put(s, n, Field::Next, i, 0);
    put(s, n, Field::Prev, i, 0);
    put(s, n, Field::Rank, i, 0);
    put(s, n, Field::State, i, 0);
}

// The words of eight empty heaps over free items.
pub fn make_empty(s: &mut [u32], n: usize)
    requires { Sized n s.old }
    ensures { s.new ≡ encode (empty_queues n) }
{
    s.fill(0);
    for h in 0..8 {
        empty_heap(s, n, h);
    }
}

// ---- lists of siblings

// The last of a list of siblings.
pub fn last(s: &[u32], n: usize, o: Owner) -> u32
    requires { OwnerReady n s.now o }
    ensures { result ≡ last_of o (look n s.now) }
{
    match o {
        Owner::Row(h) => get(s, n, Field::LastTree, h),
        Owner::Children(p) => get(s, n, Field::LastChild, p),
    }
}

// The first of a list stored. One function for both ends would match owner and end: four cases for two.
fn put_first(s: &mut [u32], n: usize, o: Owner, x: u32)
    requires { OwnerReady n s.old o }
    ensures { Changes n s.old (set_first o x) s.new }
{
    match o {
        Owner::Row(h) => put(s, n, Field::FirstTree, h, x),
        Owner::Children(p) => put(s, n, Field::FirstChild, p, x),
    }
}

// The last of a list stored.
fn put_last(s: &mut [u32], n: usize, o: Owner, x: u32)
    requires { OwnerReady n s.old o }
    ensures { Changes n s.old (set_last o x) s.new }
{
    match o {
        Owner::Row(h) => put(s, n, Field::LastTree, h, x),
        Owner::Children(p) => put(s, n, Field::LastChild, p, x),
    }
}

// x follows a, or is the first of the list where a is NONE. It differs from put_prev in the word, the end and the side.
fn put_next(s: &mut [u32], n: usize, o: Owner, a: u32, x: u32)
    requires { LinkReady n s.old o a }
    ensures { Changes n s.old (set_next o a x) s.new }
{
    if a == NONE {
        put_first(s, n, o, x);
    } else {
        put(s, n, Field::Next, a, x);
    }
}

// x precedes b, or is the last of the list where b is NONE.
fn put_prev(s: &mut [u32], n: usize, o: Owner, b: u32, x: u32)
    requires { LinkReady n s.old o b }
    ensures { Changes n s.old (set_prev o b x) s.new }
{
    if b == NONE {
        put_last(s, n, o, x);
    } else {
        put(s, n, Field::Prev, b, x);
    }
}

// The parent that the members of a list have.
fn parent_in(o: Owner) -> u32
    ensures { result ≡ parent_in o }
{
    match o {
        Owner::Row(_) => NONE,
        Owner::Children(p) => p,
    }
}

// The rank of the owner, if it is an item, one more. It asks something else of the words than drop_rank does.
fn add_rank(s: &mut [u32], n: usize, o: Owner)
    requires owner_ready { OwnerReady n s.old o }
    requires rank_rises { RankRises o (look n s.old) }
    ensures { Changes n s.old (add_rank o) s.new }
{
    if let Owner::Children(p) = o {
        let r = get(s, n, Field::Rank, p);
        put(s, n, Field::Rank, p, r + 1);
    }
}

// The rank of the owner, if it is an item, one less.
fn drop_rank(s: &mut [u32], n: usize, o: Owner)
    requires owner_ready { OwnerReady n s.old o }
    requires rank_falls { RankFalls o (look n s.old) }
    ensures { Changes n s.old (drop_rank o) s.new }
{
    if let Owner::Children(p) = o {
        let r = get(s, n, Field::Rank, p);
        put(s, n, Field::Rank, p, r - 1);
    }
}

// The siblings from x to y, each linked to the next, joined to the end of a list, whose last is l.
fn join(s: &mut [u32], n: usize, o: Owner, l: u32, x: u32, y: u32)
    requires { JoinReady n s.old o l x }
    ensures { Changes n s.old (joined o l x y) s.new }
{
    put_next(s, n, o, l, x);
    put(s, n, Field::Prev, x, l);
    put_last(s, n, o, y);
}

// The same where x may be NONE, and nothing is joined then. Only links change: the parents and marks of the siblings
// and the rank of the owner are the caller's.
pub fn concat(s: &mut [u32], n: usize, o: Owner, x: u32, y: u32)
    requires { ConcatReady n s.old o x }
    ensures { Changes n s.old (concatenated o x y) s.new }
{
    if x != NONE {
        let l = last(s, n, o);
        join(s, n, o, l, x, y);
    }
}

// The item i made the last of a list, with the owner as its parent.
pub fn append(s: &mut [u32], n: usize, o: Owner, i: u32)
    requires { AppendReady n s.old o i }
    ensures { Changes n s.old (appended o i) s.new }
{
    let l = last(s, n, o);
    let p = parent_in(o);
    add_rank(s, n, o);
    put(s, n, Field::Next, i, NONE);
    put(s, n, Field::Parent, i, p);
    join(s, n, o, l, i, i);
}

// The item i taken out of a list. Its own links are left as they are.
pub fn remove(s: &mut [u32], n: usize, o: Owner, i: u32)
    requires { RemoveReady n s.old o i }
    ensures { Changes n s.old (removed o i) s.new }
{
    let a = get(s, n, Field::Prev, i);
    let b = get(s, n, Field::Next, i);
    drop_rank(s, n, o);
    put_next(s, n, o, a, b);
    put_prev(s, n, o, b, a);
}

// Linking, and taking a heap's minimum, on a store for n items.
#![tactic(auto)]

ghost use Rattle.std.specs.Prelude.{◌≡◌, cond, ◌≤◌, ◌<◌, get_or};
ghost use Rattle.rules.specs.declared.Field.TheVariants.{Key, Parent};
ghost use Rattle.rules.specs.Order.{comes_before};
ghost use Rattle.rules.specs.Words.{decode, look};
ghost use Rattle.store.specs.ItemOrder.{item_key};
ghost use Rattle.store.specs.Says.{Changes, Within};
ghost use Rattle.linking_places.specs.Places.{trees_of};
ghost use Rattle.linking_places.specs.Taken.{taken_of, TakenAt};
ghost use Rattle.consolidate.specs.Consolidating.{ClimbReady, ConsolidateReady, RowReady};
ghost use Rattle.consolidate.specs.Consolidating.{Consolidates, LinksRow, Climbs, WritesRow};
ghost use Rattle.consolidate.specs.Extract.{ExtractReady, Performs};
ghost use Rattle.consolidate.specs.Released.{ReleaseReady, Releases, released_one};
ghost use Rattle.consolidate.specs.Removed.{DetachesRoot, RemovesRoot, RootReady};
ghost use Rattle.consolidate.specs.Writing.{TreeReady, WritesTree};

use linking_places::{
    any_from, free_place, free_places, hold, holder, is_taken, leave, take_place,
};
use rules::{Field, Layout, Tally};
use store::keys::{key_of, settle_amount};
use store::order::{lesser_of, precedes};
use store::{NONE, Owner, append, concat, free_item, get, put, remove};

// Two items of heap h in their order.
fn in_order(s: &[u32], n: usize, h: u32, a: u32, b: u32) -> (u32, u32)
    requires h_bound { h < 8 }
    requires within { Within n s.now Key a }
    requires within_2 { Within n s.now Key b }
    ensures first_value { result.0 ≡ cond (comes_before (item_key h (look n s.now)) a b) a b }
    ensures second_value { result.1 ≡ cond (comes_before (item_key h (look n s.now)) a b) b a }
{
    if precedes(s, Layout::ByItem, n, h, a, b) {
        (a, b)
    } else {
        (b, a)
    }
}

// The links made so far in a row, the places, and the number of those that are taken.
#[derive(Clone, Copy)]
struct Linked {
    links: u32,
    taken: u32,
    places: [u16; 17],
    ghost taken_places: { taken ≡ taken_of (trees_of places) },
}

// A tree of heap h comes to the places: it is linked with the holder of the place of its rank, and the winner climbs
// one rank, until it rests at a free place. The number tells whether a place is taken before it is known by which tree;
// holders are read from the places as they were before.
fn climb(s: &mut [u32], n: usize, h: u32, before: Linked, tree: u32) -> Linked
    requires { ClimbReady n h s.old (trees_of before.places) tree before.links }
    ensures { Climbs n h s.old (trees_of before.places) tree before.links
        s.new (trees_of result.places) result.links }
{
    let held = before.places;
    let mut places = held;
    let mut taken = before.taken;
    let mut links = before.links;
    let mut x = tree;
    let mut r = get(s, n, Field::Rank, x) as u16;
    while is_taken(taken, r) {
        let y = holder(&held, r);
        let (winner, loser) = in_order(s, n, h, y, x);
        append(s, n, Owner::Children(winner), loser);
        // A call's result that holds an array goes through a variable of its own: the check covers no other form.
        let left = leave(places, y);
        places = left;
        taken = free_place(taken, r);
        links += 1;
        x = winner;
        r += 1;
    }
    Linked {
        links,
        taken: take_place(taken, r),
        places: hold(places, r, x),
    }
}

// The item x becomes a root of heap h, unmarked: its own words only.
fn release_tree(s: &mut [u32], n: usize, h: u32, x: u32)
    requires h_bound { h < 8 }
    requires within { Within n s.old Parent x }
    ensures { Changes n s.old (released_one h x) s.new }
{
    let state = 1 + 2 * h;
    put(s, n, Field::Parent, x, NONE);
    put(s, n, Field::State, x, state);
}

// The trees of the row of heap h come to the places, left to right. Each is released first, since the children of a
// root that was taken out are not yet. The links of the row are left as they are.
fn link_row(s: &mut [u32], n: usize, h: u32) -> Linked
    requires { ConsolidateReady n s.old h 0 }
    ensures links_row { LinksRow n s.old h s.new (trees_of result.places) result.links }
    ensures links_bound { result.links ≤ 4096 }
{
    let mut linked = Linked {
        links: 0,
        taken: 0,
        places: free_places(),
    };
    let mut x = get(s, n, Field::FirstTree, h);
    // A `while`, since the words that are linked say where it ends.
    while x != NONE {
        let next = get(s, n, Field::Next, x);
        release_tree(s, n, h, x);
        let climbed = climb(s, n, h, linked, x);
        linked = climbed;
        x = next;
    }
    linked
}

// The siblings from `child` on, `count` of them, become roots of heap h, unmarked.
fn release(s: &mut [u32], n: usize, h: u32, child: u32, count: u32)
    requires { ReleaseReady n s.old h child count }
    ensures { Releases n s.old h child count s.new }
{
    let mut c = child;
    for _k in 0..count {
        release_tree(s, n, h, c);
        c = get(s, n, Field::Next, c);
    }
}

// The root x of heap h leaves the row and is free; its children join the end, not yet released. The minimum is left as
// it is.
fn detach_root(s: &mut [u32], n: usize, h: u32, x: u32)
    requires { RootReady n s.old h x }
    ensures { DetachesRoot n s.old h x s.new }
{
    let first = get(s, n, Field::FirstChild, x);
    let end = get(s, n, Field::LastChild, x);
    let count = get(s, n, Field::Count, h);
    remove(s, n, Owner::Row(h), x);
    concat(s, n, Owner::Row(h), first, end);
    free_item(s, n, x);
    put(s, n, Field::Count, h, count - 1);
}

// The root x of heap h leaves the row and is free; its children join the end. The minimum is left as it is.
pub fn remove_root(s: &mut [u32], n: usize, h: u32, x: u32)
    requires { RootReady n s.old h x }
    ensures { RemovesRoot n s.old h x s.new }
{
    let first = get(s, n, Field::FirstChild, x);
    let rank = get(s, n, Field::Rank, x);
    detach_root(s, n, h, x);
    release(s, n, h, first, rank);
}

// The tree at place r, unless that is free, put at the end of the row of heap h, whose least item was m. Gives the
// least item.
fn write_tree(s: &mut [u32], n: usize, h: u32, m: u32, linked: &Linked, r: u16) -> u32
    requires tree_ready { TreeReady n s.old h m (get_or (trees_of linked.now.places) r 0) }
    requires taken_at { TakenAt (trees_of linked.now.places) linked.now.taken r }
    ensures { WritesTree n s.old h m (get_or (trees_of linked.now.places) r 0) s.new result }
{
    if !is_taken(linked.taken, r) {
        return m;
    }
    let x = holder(&linked.places, r);
    append(s, n, Owner::Row(h), x);
    lesser_of(s, Layout::ByItem, n, h, m, x)
}

// The row of heap h written anew from the places, by ascending rank, with its minimum. The loop ends after the last
// place that is taken, which their number tells.
fn write_row(s: &mut [u32], n: usize, h: u32, linked: Linked)
    requires { RowReady n s.old h (trees_of linked.places) }
    ensures { WritesRow n s.old h (trees_of linked.places) s.new }
{
    put(s, n, Field::FirstTree, h, NONE);
    put(s, n, Field::LastTree, h, NONE);
    let mut m = NONE;
    let mut r = 0;
    while any_from(linked.taken, r) {
        m = write_tree(s, n, h, m, &linked, r);
        r += 1;
    }
    put(s, n, Field::Minimum, h, m);
}

// Linking: the row of heap h has no two trees of one rank then.
fn consolidate(s: &mut [u32], n: usize, h: u32, tally: Tally) -> Tally
    requires { ConsolidateReady n s.old h tally.links }
    ensures consolidates { Consolidates n s.old h tally.links s.new result.links }
    ensures cuts_value { result.cuts ≡ tally.cuts }
{
    let linked = link_row(s, n, h);
    write_row(s, n, h, linked);
    tally.link(linked.links)
}

// What a call that is done answers: an item or a heap, a key or a count, and the tally after it.
#[derive(Clone, Copy)]
pub struct Reply {
    pub item: u32,
    pub key: u32,
    pub tally: Tally,
}

// T: the minimum of heap h leaves, then linking follows, which releases its children. `heap` takes the tally alone, and
// what nobody reads of item and key is not computed.
pub fn extract_min(s: &mut [u32], n: usize, h: u32, tally: Tally) -> Reply
    requires { ExtractReady n s.old h tally.links }
    ensures performs { Performs s.new tally.links result.item result.key result.tally.links
        (decode n (look n s.old)) h }
    ensures cuts_value { result.tally.cuts ≡ tally.cuts }
{
    let x = get(s, n, Field::Minimum, h);
    let key = key_of(s, Layout::ByItem, n, h, x);
    detach_root(s, n, h, x);
    let t = consolidate(s, n, h, tally);
    settle_amount(s, n, h);
    Reply {
        item: x,
        key,
        tally: t,
    }
}

// Any call on a sound store: refused under 7 to 13 or 25, or done.
ghost use Rattle.rules.specs.declared.Call.TheVariants.{Insert, FindMin, ExtractMin, DecreaseKey, Delete, Meld, Raise};
ghost use Rattle.heap.specs.Allowed.{MayMove};
ghost use Rattle.heap.specs.Performed.{Ready, Done, Performed};

use super::Reply;
use super::decrease::{decrease_key, heap_of};
use super::delete::{delete, extract_min};
use super::insert::{find_min, insert};
use super::meld::meld;
use super::raise::raise;
use super::refusal::refusal;
use rules::{Call, Field, Layout, Refusal, Tally};
use store::keys::key_of;
use store::{get, items_of};

fn inserted(s: &mut [u32], n: usize, h: u32, i: u32, k: u32, tally: Tally) -> Reply
    requires { MayMove s.old n (Insert h i k) tally }
    ensures { Done s.old (Insert h i k) tally result s.new }
{
    insert(s, n, h, i, k);
    Reply {
        item: i,
        key: k,
        tally,
    }
}

fn found_min(s: &mut [u32], n: usize, h: u32, tally: Tally) -> Reply
    requires { MayMove s.old n (FindMin h) tally }
    ensures { Done s.old (FindMin h) tally result s.new }
{
    let i = find_min(s, n, h);
    let k = key_of(s, Layout::ByItem, n, h, i);
    Reply {
        item: i,
        key: k,
        tally,
    }
}

// Item and key are read before the call: with those of `consolidate::extract_min` a feed call, which wants neither, takes
// 1.02 times as long.
fn extracted(s: &mut [u32], n: usize, h: u32, tally: Tally) -> Reply
    requires { MayMove s.old n (ExtractMin h) tally }
    ensures { Done s.old (ExtractMin h) tally result s.new }
{
    let i = get(s, n, Field::Minimum, h);
    let k = key_of(s, Layout::ByItem, n, h, i);
    let after = extract_min(s, n, h, tally);
    Reply {
        item: i,
        key: k,
        tally: after,
    }
}

fn decreased(s: &mut [u32], n: usize, i: u32, k: u32, tally: Tally) -> Reply
    requires { MayMove s.old n (DecreaseKey i k) tally }
    ensures { Done s.old (DecreaseKey i k) tally result s.new }
{
    let after = decrease_key(s, n, i, k, tally);
    Reply {
        item: i,
        key: k,
        tally: after,
    }
}

fn deleted(s: &mut [u32], n: usize, i: u32, tally: Tally) -> Reply
    requires { MayMove s.old n (Delete i) tally }
    ensures { Done s.old (Delete i) tally result s.new }
{
    let k = key_of(s, Layout::ByItem, n, heap_of(s, n, i), i);
    let after = delete(s, n, i, tally);
    Reply {
        item: i,
        key: k,
        tally: after,
    }
}

fn melded(s: &mut [u32], n: usize, a: u32, b: u32, tally: Tally) -> Reply
    requires { MayMove s.old n (Meld a b) tally }
    ensures { Done s.old (Meld a b) tally result s.new }
{
    let c = get(s, n, Field::Count, a);
    let d = get(s, n, Field::Count, b);
    meld(s, n, a, b);
    Reply {
        item: a,
        key: c + d,
        tally,
    }
}

fn raised(s: &mut [u32], n: usize, h: u32, d: u32, tally: Tally) -> Reply
    requires { MayMove s.old n (Raise h d) tally }
    ensures { Done s.old (Raise h d) tally result s.new }
{
    let c = get(s, n, Field::Count, h);
    raise(s, n, h, d);
    Reply {
        item: h,
        key: c,
        tally,
    }
}

// A call that is not refused.
fn perform_allowed(s: &mut [u32], n: usize, call: Call, tally: Tally) -> Reply
    requires { MayMove s.old n call tally }
    ensures { Done s.old call tally result s.new }
{
    match call {
        Call::Insert { heap, item, key } => inserted(s, n, heap, item, key, tally),
        Call::FindMin { heap } => found_min(s, n, heap, tally),
        Call::ExtractMin { heap } => extracted(s, n, heap, tally),
        Call::DecreaseKey { item, key } => decreased(s, n, item, key, tally),
        Call::Delete { item } => deleted(s, n, item, tally),
        Call::Meld { into, from } => melded(s, n, into, from, tally),
        Call::Raise { heap, by } => raised(s, n, heap, by, tally),
    }
}

// Any call, refused under 7 to 13 or 25, or done.
pub fn perform(s: &mut [u32], call: Call, tally: Tally) -> Result<Reply, Refusal>
    requires { Ready s.old tally }
    ensures { Performed s.old call tally result s.new }
{
    let n = items_of(s);
    refusal(s, n, call)?;
    Ok(perform_allowed(s, n, call, tally))
}

// Why a call is refused, by the order of the table.
ghost use Rattle.std.specs.Prelude.{◌≡◌, ℕ};
ghost use Rattle.rules.specs.declared.Call.TheVariants.{Insert, ExtractMin, DecreaseKey, Delete, Meld, Raise};
ghost use Rattle.rules.specs.Answers as answers;
ghost use Rattle.rules.specs.Forests.{Forests};
ghost use Rattle.rules.specs.Refusals.{code_of};
ghost use Rattle.rules.specs.Words.{forests_of};
ghost use Rattle.heap.specs.Allowed.{Store};

use super::decrease::heap_of;
use super::raise::carries_over;
use rules::{Call, Field, Layout, Refusal};
use store::keys::key_of;
use store::{NONE, get};

fn refuse_insert(s: &[u32], n: usize, h: u32, i: u32) -> Result<(), Refusal>
    requires { Store s.now n }
    ensures { (k : ℕ) → code_of result ≡ answers.refusal (forests_of s.now) (Insert h i k) }
{
    if h > 7 {
        return Err(Refusal::NoSuchHeap);
    }
    if i as usize >= n {
        return Err(Refusal::NoSuchItem);
    }
    if get(s, n, Field::State, i) != 0 {
        return Err(Refusal::ItemInHeap);
    }
    Ok(())
}

// M and T.
fn refuse_minimum(s: &[u32], n: usize, h: u32) -> Result<(), Refusal>
    requires { Store s.now n }
    ensures { code_of result ≡ answers.refusal (forests_of s.now) (ExtractMin h) }
{
    if h > 7 {
        return Err(Refusal::NoSuchHeap);
    }
    let first = get(s, n, Field::FirstTree, h);
    if first == NONE {
        return Err(Refusal::EmptyHeap);
    }
    Ok(())
}

fn refuse_delete(s: &[u32], n: usize, i: u32) -> Result<(), Refusal>
    requires { Store s.now n }
    ensures { code_of result ≡ answers.refusal (forests_of s.now) (Delete i) }
{
    if i as usize >= n {
        return Err(Refusal::NoSuchItem);
    }
    if get(s, n, Field::State, i) == 0 {
        return Err(Refusal::ItemFree);
    }
    Ok(())
}

// As for X, and then by the key.
fn refuse_decrease(s: &[u32], n: usize, i: u32, k: u32) -> Result<(), Refusal>
    requires { Store s.now n }
    ensures { code_of result ≡ answers.refusal (forests_of s.now) (DecreaseKey i k) }
{
    refuse_delete(s, n, i)?;
    if k > key_of(s, Layout::ByItem, n, heap_of(s, n, i), i) {
        return Err(Refusal::LargerKey);
    }
    Ok(())
}

fn refuse_meld(a: u32, b: u32) -> Result<(), Refusal>
    ensures { (t : Forests) → code_of result ≡ answers.refusal t (Meld a b) }
{
    if a > 7 || b > 7 {
        return Err(Refusal::NoSuchHeap);
    }
    if a == b {
        return Err(Refusal::SameHeap);
    }
    Ok(())
}

fn refuse_raise(s: &[u32], n: usize, h: u32, d: u32) -> Result<(), Refusal>
    requires { Store s.now n }
    ensures { code_of result ≡ answers.refusal (forests_of s.now) (Raise h d) }
{
    if h > 7 {
        return Err(Refusal::NoSuchHeap);
    }
    if carries_over(s, n, h, d) {
        return Err(Refusal::KeyOverflow);
    }
    Ok(())
}

pub fn refusal(s: &[u32], n: usize, call: Call) -> Result<(), Refusal>
    requires { Store s.now n }
    ensures { code_of result ≡ answers.refusal (forests_of s.now) call }
{
    match call {
        Call::Insert { heap, item, key: _ } => refuse_insert(s, n, heap, item),
        Call::FindMin { heap } => refuse_minimum(s, n, heap),
        Call::ExtractMin { heap } => refuse_minimum(s, n, heap),
        Call::DecreaseKey { item, key } => refuse_decrease(s, n, item, key),
        Call::Delete { item } => refuse_delete(s, n, item),
        Call::Meld { into, from } => refuse_meld(into, from),
        Call::Raise { heap, by } => refuse_raise(s, n, heap, by),
    }
}

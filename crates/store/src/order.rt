// The order of items of one heap, on the words of a store.
ghost use Rattle.std.specs.Prelude.{◌≡◌, ◌+◌, ◌*◌, ◌<◌};
ghost use Rattle.rules.specs.declared.Field.TheVariants.{Key};
ghost use Rattle.rules.specs.Order.{comes_before, lesser};
ghost use Rattle.rules.specs.Words.{look_in};
ghost use Rattle.store.specs.ItemOrder.{item_key, TwoItems};
ghost use Rattle.store.specs.Says.{Within};

use super::NONE;
use super::keys::key_of;
use rules::Layout;

// The place of an item in the order as one number, so that no branch depends on the keys.
fn order_number(key: u32, i: u32) -> u64
    ensures { result ≡ key * 4294967296 + i }
{
    u64::from(key) * 4294967296 + u64::from(i)
}

// Item a comes before item b, both of heap h, in either order of the words.
pub fn precedes(s: &[u32], layout: Layout, n: usize, h: u32, a: u32, b: u32) -> bool
    requires h_bound { h < 8 }
    requires within { Within n s.now Key a }
    requires within_2 { Within n s.now Key b }
    ensures { result ≡ comes_before (item_key h (look_in layout n s.now)) a b }
{
    let x = key_of(s, layout, n, h, a);
    let y = key_of(s, layout, n, h, b);
    order_number(x, a) < order_number(y, b)
}

// The one of two items of heap h that comes first, in either order of the words; NONE stands for no item.
pub fn lesser_of(s: &[u32], layout: Layout, n: usize, h: u32, a: u32, b: u32) -> u32
    requires h_bound { h < 8 }
    requires two_items { TwoItems n s.now a b }
    ensures { result ≡ lesser (item_key h (look_in layout n s.now)) a b }
{
    if a == NONE {
        return b;
    }
    if b == NONE {
        return a;
    }
    // The item is read off the lesser number: a choice of the items would become a branch in a loop.
    let x = order_number(key_of(s, layout, n, h, a), a);
    let y = order_number(key_of(s, layout, n, h, b), b);
    let least = if y < x { y } else { x };
    (least % 4294967296) as u32
}

// The seventeen places of linking, one to a rank (the array of roots by rank), and which of them are taken. Only this
// crate knows what the 16 bits of a place stand for, and what the bits of the taken places do.
#![tactic(auto)]

ghost use Rattle.std.specs.Prelude.{◌≡◌, ◌≢◌, List, cond, not, ℕ, ◌≤◌, ◌<◌, eqb, drop, get_or, replicate, set};
ghost use Rattle.rules.specs.Forests.{none};
ghost use Rattle.linking_places.specs.Places.{free_place, trees_of, without};
ghost use Rattle.linking_places.specs.Taken.{taken_of, TakenAt};

use std::array;

// What a place holds that has no tree. Which places are taken is known by their number, and no other place is read: an
// Option would say it twice, in four bytes for two, and the places are to stay in registers.
const FREE: u16 = 65535;

// The places before any tree has come.
pub fn free_places() -> [u16; 17]
    ensures { trees_of result ≡ replicate 17 none }
{
    [FREE; 17]
}

// The tree at place r, which is taken.
pub fn holder(places: &[u16; 17], r: u16) -> u32
    requires r_bound { r < 17 }
    requires r_nonzero { get_or (trees_of places.now) r 0 ≢ none }
    ensures { result ≡ get_or (trees_of places.now) r 0 }
{
    u32::from(places[usize::from(r)])
}

// The tree x put at place r. Every place is chosen anew, so that all of them stay in registers: after a store to one
// place, a copy of all would have to wait for it. For the same reason ranks have the width of a place.
pub fn hold(held: [u16; 17], r: u16, x: u32) -> [u16; 17]
    requires r_bound { r < 17 }
    requires x_lt_free_place { x < free_place }
    ensures { trees_of result ≡ set (trees_of held) r x }
{
    let place = x as u16;
    let at = usize::from(r);
    array::from_fn(
        move |i|
            requires { i < 17 }
            ensures { result ≡ cond (eqb i at) place (get_or held i 0) }
        { if i == at { place } else { held[i] } },
    )
}

// The places without the tree x, found by what they hold: a comparison of ranks would be made place by place. `held.map`
// passes the places through memory one by one: `feed_table` takes 2.6 times as long with it.
pub fn leave(held: [u16; 17], x: u32) -> [u16; 17]
    requires { x < free_place }
    ensures { trees_of result ≡ without x (trees_of held) }
{
    let gone = x as u16;
    array::from_fn(
        move |i|
            requires { i < 17 }
            ensures { result ≡ cond (eqb (get_or held i 0) gone) free_place (get_or held i 0) }
        { if held[i] == gone { FREE } else { held[i] } },
    )
}

// Whether place r is taken, by the number of the taken places: known before the tree there is.
pub fn is_taken(taken: u32, r: u16) -> bool
    requires { r < 17 }
    ensures { (ps : List ℕ) → TakenAt ps taken r → result ≡ not (eqb (get_or ps r 0) none) }
{
    (taken >> r) % 2 == 1
}

// Whether a place from place r on is taken.
pub fn any_from(taken: u32, r: u16) -> bool
    requires { r ≤ 17 }
    ensures { (ps : List ℕ) → taken ≡ taken_of ps → result ≡ not (eqb (taken_of (drop r ps)) 0) }
{
    taken >> r != 0
}

// The number of the taken places when place r, which was free, is taken. It and the next are two, since a sign passed
// would make one contract of both cases, which is longer than two.
pub fn take_place(taken: u32, r: u16) -> u32
    requires r_bound { r < 17 }
    requires by_index { (ps : List ℕ) × TakenAt ps taken r × (get_or ps r 0 ≡ none) }
    ensures { (ps : List ℕ) (x : ℕ) → TakenAt ps taken r → get_or ps r 0 ≡ none → x ≢ none
        → result ≡ taken_of (set ps r x) }
{
    taken + (1 << r)
}

// The same when place r, which was taken, is free.
pub fn free_place(taken: u32, r: u16) -> u32
    requires r_bound { r < 17 }
    requires by_index { (ps : List ℕ) × TakenAt ps taken r × (get_or ps r 0 ≢ none) }
    ensures { (ps : List ℕ) → TakenAt ps taken r → get_or ps r 0 ≢ none → result ≡ taken_of (set ps r none) }
{
    taken - (1 << r)
}

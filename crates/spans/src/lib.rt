// What is found of a feed call's lists before the search: the reason for which it is refused, and the spans of each
// place.
#![tactic(auto, unfolding(rules::specs::Refusals::code_of, rules::specs::Refusals::code, paths::specs::Codes::fault, paths::specs::Codes::window_fault, paths::specs::Map::usable_at, paths::specs::Codes::window_lists_fit))]

pub mod index;
pub mod refusal;
pub mod window;

// A map as a feed call is lent it: its places, the start and the minute, and for each span a word in every list, its
// from, to and loss and the minutes at which its window opens and closes.
#[derive(Clone, Copy)]
pub struct MapView<'a> {
    pub places: u32,
    pub start: u32,
    pub minute: u32,
    pub from: &'a [u32],
    pub to: &'a [u32],
    pub loss: &'a [u32],
    pub opens: &'a [u32],
    pub closes: &'a [u32],
}

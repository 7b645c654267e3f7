// The calls on the heaps whose words a store holds.
#![tactic(auto)]

pub mod decrease;
pub mod delete;
pub mod insert;
pub mod meld;
pub mod perform;
pub mod raise;
pub mod refusal;

// What a call that is done answers, with the tally after it.
pub use consolidate::Reply;

// A span offers its end a loss, and the queue and the table follow (relaxation of an edge).
#![tactic(auto, unfolding(crate::specs::Tracks::examine_one, crate::specs::Tracks::visit_one))]

ghost use Rattle.std.specs.Prelude.{◌≡◌, ◌≢◌, ◌+◌, ◌<◌, length, get_or, set};
ghost use Rattle.rules.specs.declared.Call.TheVariants.{Insert, DecreaseKey};
ghost use Rattle.rules.specs.Forests.{none};
ghost use Rattle.paths.specs.Search.{wins_tie};
ghost use Rattle.relax.specs.Tracks.{examine_one, visit_one};
ghost use Rattle.relax.specs.Lent.{lists_of, SameLists, SameLengths};
ghost use Rattle.relax.specs.Advances.{offering, OfferReady, Improved, Advances};

use heap::decrease::decrease_key;
use heap::insert::insert;
use rules::Tally;
use store::{NONE, items_of};

// How far a search is: the places whose spans were tried, the places met, the spans examined, and the tally of its
// queue calls.
#[derive(Clone, Copy)]
pub struct Progress {
    pub visited: u32,
    pub met: u32,
    pub examined: u32,
    pub tally: Tally,
}

impl Progress {
    // One span more is examined.
    pub fn examine(self) -> Progress
        requires { self.examined < 4294967295 }
        ensures { result ≡ examine_one self }
    {
        Progress {
            examined: self.examined + 1,
            ..self
        }
    }

    // The spans of one place more were tried.
    pub fn visit(self) -> Progress
        requires { self.visited < 4294967295 }
        ensures { result ≡ visit_one self }
    {
        Progress {
            visited: self.visited + 1,
            ..self
        }
    }
}

// What a span offers its end: a loss over so many spans, of which it is the last.
#[derive(Clone, Copy)]
pub struct Offer {
    pub place: u32,
    pub loss: u32,
    pub hops: u32,
    pub span: u32,
}

// The feed table and the store of the queue, as they are lent: the least loss of each place, the last span of its
// chain and the number of spans in it.
#[derive(Drop)]
pub struct Table<'a> {
    pub best: &'a mut [u32],
    pub last: &'a mut [u32],
    pub joints: &'a mut [u32],
    pub store: &'a mut [u32],
}

// Whether a chain wins a tie against the one that is shown: by fewer spans, or by a lower-numbered last span.
#[tactic(auto, unfolding(paths::specs::Search::wins_tie))]
fn wins_tie(has_hops: u32, has_span: u32, hops: u32, span: u32) -> bool
    ensures { result ≡ wins_tie has_hops has_span hops span }
{
    (hops, span) < (has_hops, has_span)
}

impl<'a> Table<'a> {
    // The place shows what it is offered.
    fn show(&mut self, offer: Offer)
        requires place_in_bounds { offer.place < length self.old.best.now }
        requires place_in_bounds_2 { offer.place < length self.old.last.now }
        requires place_in_bounds_3 { offer.place < length self.old.joints.now }
        ensures same { SameLists self.old self.new }
        ensures best_is { self.new.best.now ≡ set self.old.best.now offer.place offer.loss }
        ensures last_is { self.new.last.now ≡ set self.old.last.now offer.place offer.span }
        ensures joints_is { self.new.joints.now ≡ set self.old.joints.now offer.place offer.hops }
        ensures store_is { self.new.store.now ≡ self.old.store.now }
    {
        let i = offer.place as usize;
        self.best[i] = offer.loss;
        self.last[i] = offer.span;
        self.joints[i] = offer.hops;
    }

    // A place that was not met is inserted, and shows what it is offered.
    fn meet(&mut self, offer: Offer, go: Progress) -> Progress
        requires offer_ready { OfferReady offer.place offer.loss (lists_of self.old) go }
        requires place_value { get_or self.old.best.now offer.place 0 ≡ none }
        ensures same { SameLists self.old self.new }
        ensures lengths { SameLengths self.old self.new }
        ensures improved { Improved (Insert 0 offer.place offer.loss) offer.place offer.loss offer.hops offer.span
            (go.met + 1) (lists_of self.old) go (lists_of self.new) result }
    {
        let store = &mut *self.store;
        let n = items_of(store);
        insert(store, n, 0, offer.place, offer.loss);
        self.show(offer);
        Progress {
            met: go.met + 1,
            ..go
        }
    }

    // A place that was met with a larger loss has its key decreased, and shows what it is offered.
    fn lower(&mut self, offer: Offer, go: Progress) -> Progress
        requires offer_ready { OfferReady offer.place offer.loss (lists_of self.old) go }
        requires place_nonzero { get_or self.old.best.now offer.place 0 ≢ none }
        requires loss_bound { offer.loss < get_or self.old.best.now offer.place 0 }
        ensures same { SameLists self.old self.new }
        ensures lengths { SameLengths self.old self.new }
        ensures improved { Improved (DecreaseKey offer.place offer.loss) offer.place offer.loss offer.hops offer.span
            go.met (lists_of self.old) go (lists_of self.new) result }
    {
        let store = &mut *self.store;
        let n = items_of(store);
        let tally = decrease_key(store, n, offer.place, offer.loss, go.tally);
        self.show(offer);
        Progress { tally, ..go }
    }

    // The place is offered a loss. An equal loss makes no call, but the better chain is shown. A place that is not met has
    // no `Option`: C reads the words, of which NONE is one (`feed_table`).
    pub fn relax(&mut self, offer: Offer, go: Progress) -> Progress
        requires { OfferReady offer.place offer.loss (lists_of self.old) go }
        ensures same { SameLists self.old self.new }
        ensures lengths { SameLengths self.old self.new }
        ensures advances { Advances offer.place (offering offer)
            (lists_of self.old) go (lists_of self.new) result }
    {
        let at = offer.place as usize;
        let has_loss = self.best[at];
        if has_loss == NONE {
            return self.meet(offer, go);
        }
        if offer.loss < has_loss {
            return self.lower(offer, go);
        }
        if has_loss < offer.loss
            || !wins_tie(self.joints[at], self.last[at], offer.hops, offer.span)
        {
            return go;
        }
        self.joints[at] = offer.hops;
        self.last[at] = offer.span;
        go
    }
}

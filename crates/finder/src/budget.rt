// The feed table within a budget of loss, and the list of the places in it.
ghost use Rattle.std.specs.Prelude.{◌≡◌, cond, length, ltb};
ghost use Rattle.rules.specs.Forests.{none};
ghost use Rattle.spans.specs.Lists.{map_from};
ghost use Rattle.relax.specs.Lent.{lists_of, SameLists};
ghost use Rattle.paths.specs.Feed.{budget_result};
ghost use Rattle.finder.specs.SearchState.{ListReady, FoundListed};
ghost use Rattle.finder.specs.Hidden.{Hidden};
ghost use Rattle.finder.specs.Answers.{budget_feed_of};

use super::visit::visit_next;
use super::{Fed, begin_search};
use heap::insert::find_min;
use relax::{Progress, Table};
use rules::Refusal;
use spans::MapView;
use spans::index::{Index, index_spans};
use spans::refusal::{Lengths, check_feed};
use store::{NONE, make_empty};

// What a feed call with a budget answers that is done: what a full one does, and the number of places listed.
#[derive(Clone, Copy)]
pub struct FedWithin {
    pub fed: Fed,
    pub listed: u32,
}

// Places are visited and listed until each that was met is, or the first that waits is beyond the budget. The full
// search looks at no place before it visits it, and lists none: one search with a closure for that would be no plainer.
fn search_within(
    map: MapView,
    budget: u32,
    table: &mut Table,
    listed: &mut [u32],
    begun: Progress,
) -> Progress
    requires { ListReady budget (map_from map) (lists_of table.old) listed.old begun }
    ensures same { SameLists table.old table.new }
    ensures found { FoundListed budget (map_from map.entry) listed.old (lists_of table.new) listed.new result }
{
    let mut index: Index = [0; 4097];
    index_spans(map.places, map.from, &mut index);
    let n = map.places as usize;
    let mut go = begun;
    while go.visited < go.met {
        let store = &mut *table.store;
        let u = find_min(store, n, 0);
        if budget < table.best[u as usize] {
            return go;
        }
        listed[go.visited as usize] = u;
        go = visit_next(map, &index, table, go);
    }
    go
}

// The word that the table shows at a place with a loss: none if the loss is beyond the budget. It is a word and no
// `Option`, since C reads the table (`feed_budget`).
fn word_within(budget: u32, loss: u32, word: u32) -> u32
    ensures { result ≡ cond (ltb budget loss) none word }
{
    if budget < loss { NONE } else { word }
}

// Losses beyond the budget, and the words beside them, are made none.
fn hide_beyond(budget: u32, table: &mut Table)
    requires { (length table.old.last.now ≡ length table.old.best.now)
        × (length table.old.joints.now ≡ length table.old.best.now) }
    ensures same { SameLists table.old table.new }
    ensures hidden { Hidden budget table.old.best.now table.old.last.now table.old.joints.now
        table.new.best.now table.new.last.now table.new.joints.now }
    ensures store_is { table.new.store.now ≡ table.old.store.now }
{
    for p in 0..table.best.len() {
        let loss = table.best[p];
        table.best[p] = word_within(budget, loss, loss);
        table.last[p] = word_within(budget, loss, table.last[p]);
        table.joints[p] = word_within(budget, loss, table.joints[p]);
    }
}

// The feed table of a map within a budget, the places in it by loss, the links and cuts of the search for them, and the
// number of spans that leave them.
pub fn feed_within(
    map: MapView,
    budget: u32,
    table: &mut Table,
    listed: &mut [u32],
) -> Result<FedWithin, Refusal>
    ensures same { SameLists table.old table.new }
    ensures fed { budget_feed_of result (lists_of table.new) listed.new
        ≡ budget_result budget (map_from map.entry) (lists_of table.old) listed.old }
{
    let lent = Lengths {
        best: table.best.len(),
        last: table.last.len(),
        joints: table.joints.len(),
        listed: listed.len(),
        store: table.store.len(),
    };
    check_feed(map, lent)?;
    let begun = begin_search(map.places, map.start, table);
    let found = search_within(map, budget, table, listed, begun);
    hide_beyond(budget, table);
    make_empty(table.store, map.places as usize);
    Ok(FedWithin {
        fed: Fed::of(found),
        listed: found.visited,
    })
}

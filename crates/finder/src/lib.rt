// The feed finder: the least losses from a start (shortest paths), found over the queues.
#![tactic(auto)]

ghost use Rattle.std.specs.Prelude.{◌≡◌, length};
ghost use Rattle.spans.specs.Lists.{map_from};
ghost use Rattle.relax.specs.Lent.{lists_of, SameLists};
ghost use Rattle.paths.specs.Search.{never};
ghost use Rattle.paths.specs.Feed.{feed_result};
ghost use Rattle.finder.specs.SearchState.{BeginReady, Begun, Stands, Found};
ghost use Rattle.finder.specs.Answers.{done_fed, feed_of};

use heap::insert::insert;
use relax::{Progress, Table};
use rules::{Refusal, Tally};
use spans::MapView;
use spans::index::{Index, index_spans};
use spans::refusal::{Lengths, check_feed};
use store::{NONE, make_empty};
use visit::visit_next;

pub mod budget;
mod visit;

// What a feed call that is done answers: the links and cuts of its search, and the number of spans examined.
#[derive(Clone, Copy)]
pub struct Fed {
    pub links: u32,
    pub cuts: u32,
    pub examined: u32,
}

impl Fed {
    // The answer of a call by its search.
    fn of(found: Progress) -> Fed
        ensures { result ≡ done_fed found }
    {
        let tally = found.tally;
        Fed {
            links: tally.links,
            cuts: tally.cuts,
            examined: found.examined,
        }
    }
}

// The store is made empty, and the start inserted with key 0.
fn begin_search(places: u32, start: u32, table: &mut Table) -> Progress
    requires { BeginReady places start (lists_of table.old) }
    ensures same { SameLists table.old table.new }
    ensures begun { Begun places start (lists_of table.new) result }
{
    table.best.fill(NONE);
    table.last.fill(NONE);
    table.joints.fill(NONE);
    let n = places as usize;
    make_empty(table.store, n);
    insert(table.store, n, 0, start, 0);
    let i = start as usize;
    table.best[i] = 0;
    table.joints[i] = 0;
    let tally = Tally { links: 0, cuts: 0 };
    Progress {
        visited: 0,
        met: 1,
        examined: 0,
        tally,
    }
}

// Places are visited until each that was met is.
fn search(map: MapView, table: &mut Table, begun: Progress) -> Progress
    requires { Stands never (map_from map) (lists_of table.old) begun }
    ensures same { SameLists table.old table.new }
    ensures found { Found never (map_from map.entry) (lists_of table.new) result }
{
    let mut index: Index = [0; 4097];
    index_spans(map.places, map.from, &mut index);
    let mut go = begun;
    // A `while`, since visits meet further places.
    while go.visited < go.met {
        go = visit_next(map, &index, table, go);
    }
    go
}

// The feed table of a map, the links and cuts of the search for it, and the number of spans that leave reached places. No
// place list is lent, so none is too short.
pub fn feed(map: MapView, table: &mut Table) -> Result<Fed, Refusal>
    ensures same { SameLists table.old table.new }
    ensures fed { feed_of result (lists_of table.new) ≡ feed_result (map_from map.entry) (lists_of table.old) }
{
    let lent = Lengths {
        best: table.best.len(),
        last: table.last.len(),
        joints: table.joints.len(),
        listed: map.places as usize,
        store: table.store.len(),
    };
    check_feed(map, lent)?;
    let begun = begin_search(map.places, map.start, table);
    let found = search(map, table, begun);
    Ok(Fed::of(found))
}

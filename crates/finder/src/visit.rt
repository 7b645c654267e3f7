// A place is taken from the queue, and its spans are tried. The stopping rule is no argument: the contracts hold for
// any rule.
ghost use Rattle.spans.specs.Lists.{map_from};
ghost use Rattle.relax.specs.Lent.{lists_of, SameLists};
ghost use Rattle.paths.specs.Queue.{Stop};
ghost use Rattle.finder.specs.SearchState.{Taken, Goes, Visits};

use heap::delete::extract_min;
use heap::insert::find_min;
use relax::{Offer, Progress, Table};
use spans::MapView;
use spans::index::Index;
use spans::window::usable_at;
use store::items_of;

// The spans of place u, which was taken with loss d, are tried in list order. One that is closed is examined only.
fn try_spans(
    map: MapView,
    index: &Index,
    table: &mut Table,
    u: u32,
    d: u32,
    taken: Progress,
) -> Progress
    requires { (stop : Stop) × Taken stop (map_from map) index.now u d (lists_of table.old) taken }
    ensures same { SameLists table.old table.new }
    ensures visits { (stop : Stop)
        → Taken stop (map_from map.entry) index.now u d (lists_of table.old) taken
        → Visits stop (map_from map.entry) taken (lists_of table.new) result }
{
    let i = u as usize;
    let hops = table.joints[i] + 1;
    let first = index[i] as usize;
    let end = index[i + 1] as usize;
    let mut go = taken;
    for e in first..end {
        let seen = go.examine();
        go = if usable_at(map.minute, map.opens[e], map.closes[e]) {
            let offer = Offer {
                place: map.to[e],
                loss: d + map.loss[e],
                hops,
                span: e as u32,
            };
            table.relax(offer, seen)
        } else {
            seen
        };
    }
    go.visit()
}

// The place that comes next is taken, and its spans are tried. Its key is its loss, which the table shows.
pub fn visit_next(map: MapView, index: &Index, table: &mut Table, go: Progress) -> Progress
    requires { (stop : Stop) × Goes stop (map_from map) index.now (lists_of table.old) go }
    ensures same { SameLists table.old table.new }
    ensures visits { (stop : Stop)
        → Goes stop (map_from map.entry) index.now (lists_of table.old) go
        → Visits stop (map_from map.entry) go (lists_of table.new) result }
{
    let store = &mut *table.store;
    let n = items_of(store);
    let u = find_min(store, n, 0);
    let tally = extract_min(store, n, 0, go.tally);
    let d = table.best[u as usize];
    let taken = Progress { tally, ..go };
    try_spans(map, index, table, u, d, taken)
}

// The entries for hosts in C, all but the modem's own run and the turn of a store. C passes each list and number by
// itself, so their parameters stay loose here.
#![tactic(auto)]

ghost use Rattle.std.specs.Prelude.{◌≡◌, length, replicate};
ghost use Rattle.rules.specs.Refusals.{code, code_of};
ghost use Rattle.sheet.specs.Runs.{fresh_run, kept_run};
ghost use Rattle.paths.specs.Map.{span_lists, windows, map_at};
ghost use Rattle.paths.specs.Feed.{result_lists, feed_result, budget_result};
ghost use Rattle.mapfile.specs.Read.{read_map};
ghost use Rattle.host.specs.Entries.{RunReturns, sound_number, FeedReturns, BudgetReturns, ReadReturns};

use finder::budget::{FedWithin, feed_within};
use mapfile::MapLists;
use relax::Table;
use rules::{Layout, Refusal};
use sheet::Ran;
use spans::MapView;

// The code of a run, 0 if it is done.
fn code(ran: Result<Ran, Refusal>) -> u32
    ensures { result ≡ code_of ran }
{
    match ran {
        Ok(_) => 0,
        Err(refusal) => refusal.code(),
    }
}

// A refused feed call or reading: its figures are zeros, its code is returned.
fn refuse(refusal: Refusal, figures: &mut [u32]) -> u32
    ensures code_is { result ≡ code refusal }
    ensures zeros { figures.new ≡ replicate (length figures.old) 0 }
{
    figures.fill(0);
    refusal.code()
}

// A fresh run. Returns the code; the figures are lines and bytes written.
#[unsafe(no_mangle)]
pub extern "C" fn fresh_run(
    store: &mut [u32],
    sheet: &[u8],
    out: &mut [u8],
    figures: &mut [u32; 2],
) -> u32
    ensures { RunReturns (fresh_run store.old sheet.now out.old) result
        store.new out.new figures.new }
{
    let fresh = sheet::run_fresh(store, sheet, out);
    *figures = sheet::figures(fresh);
    code(fresh)
}

// A kept run: the same, on the store as it is.
#[unsafe(no_mangle)]
pub extern "C" fn kept_run(
    store: &mut [u32],
    sheet: &[u8],
    out: &mut [u8],
    figures: &mut [u32; 2],
) -> u32
    ensures { RunReturns (kept_run store.old sheet.now out.old) result
        store.new out.new figures.new }
{
    let kept = sheet::run_kept(store, sheet, out);
    *figures = sheet::figures(kept);
    code(kept)
}

// 1 if the words are those of a sound store, else 0.
#[tactic(auto, unfolding(crate::specs::Entries::sound_number))]
#[unsafe(no_mangle)]
pub extern "C" fn store_sound(store: &[u32]) -> u32
    ensures { result ≡ sound_number store.now }
{
    u32::from(audit::sound(store, Layout::ByItem))
}

// The feed table of a map. Returns the code; the figures are links, cuts and the number of spans examined, which are
// those that leave a reached place.
#[unsafe(no_mangle)]
pub extern "C" fn feed_table(
    places: u32,
    start: u32,
    minute: u32,
    from: &[u32],
    to: &[u32],
    loss: &[u32],
    opens: &[u32],
    closes: &[u32],
    best: &mut [u32],
    last: &mut [u32],
    joints: &mut [u32],
    store: &mut [u32],
    figures: &mut [u32; 3],
) -> u32
    ensures { FeedReturns
        (feed_result
        (map_at places start minute (span_lists from.now to.now loss.now)
        (windows opens.now closes.now))
        (result_lists best.old last.old joints.old store.old))
        result (result_lists best.new last.new joints.new store.new)
        figures.new }
{
    let map = MapView {
        places,
        start,
        minute,
        from,
        to,
        loss,
        opens,
        closes,
    };
    let mut table = Table {
        best,
        last,
        joints,
        store,
    };
    match finder::feed(map, &mut table) {
        Ok(fed) => {
            *figures = [fed.links, fed.cuts, fed.examined];
            0
        }
        Err(refusal) => refuse(refusal, figures),
    }
}

// The feed table of a map within a budget, and the places in it by loss. Returns the code; the figures are links, cuts,
// the number of spans examined, which are those that leave a listed place, and that of places listed.
#[unsafe(no_mangle)]
pub extern "C" fn feed_budget(
    places: u32,
    start: u32,
    minute: u32,
    from: &[u32],
    to: &[u32],
    loss: &[u32],
    opens: &[u32],
    closes: &[u32],
    budget: u32,
    best: &mut [u32],
    last: &mut [u32],
    joints: &mut [u32],
    listed: &mut [u32],
    store: &mut [u32],
    figures: &mut [u32; 4],
) -> u32
    ensures { BudgetReturns
        (budget_result budget
        (map_at places start minute (span_lists from.now to.now loss.now)
        (windows opens.now closes.now))
        (result_lists best.old last.old joints.old store.old)
        listed.old)
        result (result_lists best.new last.new joints.new store.new)
        listed.new figures.new }
{
    let map = MapView {
        places,
        start,
        minute,
        from,
        to,
        loss,
        opens,
        closes,
    };
    let mut table = Table {
        best,
        last,
        joints,
        store,
    };
    match feed_within(map, budget, &mut table, listed) {
        Ok(FedWithin { fed, listed }) => {
            *figures = [fed.links, fed.cuts, fed.examined, listed];
            0
        }
        Err(refusal) => refuse(refusal, figures),
    }
}

// Reads a map text into span and window lists. Returns the code; the figures are places, start, minute and number of
// spans.
#[unsafe(no_mangle)]
pub extern "C" fn read_map(
    text: &[u8],
    from: &mut [u32],
    to: &mut [u32],
    loss: &mut [u32],
    opens: &mut [u32],
    closes: &mut [u32],
    figures: &mut [u32; 4],
) -> u32
    ensures { ReadReturns
        (read_map text.now (span_lists from.old to.old loss.old)
        (windows opens.old closes.old))
        result (span_lists from.new to.new loss.new)
        (windows opens.new closes.new) figures.new }
{
    let mut lists = MapLists {
        from,
        to,
        loss,
        opens,
        closes,
    };
    match mapfile::read(text, &mut lists) {
        Ok(map) => {
            *figures = [map.places, map.start, map.minute, map.spans];
            0
        }
        Err(refusal) => refuse(refusal, figures),
    }
}

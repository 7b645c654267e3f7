// Why a feed call is refused, in the order in which the reasons are tested.
ghost use Rattle.std.specs.Prelude.{◌≡◌, cond, not, ◌&&◌, ◌||◌, ◌≤◌, length, eqb, ltb, leb};
ghost use Rattle.rules.specs.Refusals.{code_of};
ghost use Rattle.paths.specs.Map.{spans, last_minute};
ghost use Rattle.paths.specs.Codes.{fault, window_fault, first_code};
ghost use Rattle.paths.specs.Codes.{span_lists_fit, window_lists_fit, result_lists_fit, feed_code};
ghost use Rattle.spans.specs.Lists.{OneLength, spans_in, windows_in, map_from, faults};

use super::MapView;
use super::window::check_window;
use rules::Refusal;
use store::size_for;

// The lengths of what a feed call is lent beside the map: the result lists, the place list and the store.
#[derive(Clone, Copy)]
pub struct Lengths {
    pub best: usize,
    pub last: usize,
    pub joints: usize,
    pub listed: usize,
    pub store: usize,
}

// The faults of a span, without its window's; `before` is the from of the span before it.
fn check_span(places: u32, from: u32, to: u32, loss: u32, before: u32) -> Result<(), Refusal>
    ensures { code_of result ≡ fault places from to loss before }
{
    if places <= from || places <= to {
        return Err(Refusal::SpanEnds);
    }
    if loss == 0 || 1000000 < loss {
        return Err(Refusal::SpanLoss);
    }
    if from < before {
        return Err(Refusal::SpanOrder);
    }
    Ok(())
}

// Whether a span or its window has a fault, without a branch.
fn is_faulty(
    places: u32,
    from: u32,
    to: u32,
    loss: u32,
    before: u32,
    opens: u32,
    closes: u32,
) -> bool
    ensures { result ≡ not (eqb (first_code (fault places from to loss before) (window_fault opens closes)) 0) }
{
    let span = (places <= from) | (places <= to) | (loss == 0) | (1000000 < loss) | (from < before);
    span | (closes <= opens) | (1440 < closes)
}

// Whether no span is faulty. No span ends the loop, so that several are tested at a time; a chain of iterators over five
// lists, each a pair more, would be no plainer.
fn faultless(map: MapView) -> bool
    requires { OneLength (spans_in map) (windows_in map) }
    ensures { result ≡ eqb (faults map.entry) 0 }
{
    let mut before = 0;
    let mut faulty = false;
    for e in 0..map.from.len() {
        let from = map.from[e];
        faulty = faulty
            | is_faulty(
                map.places,
                from,
                map.to[e],
                map.loss[e],
                before,
                map.opens[e],
                map.closes[e],
            );
        before = from;
    }
    !faulty
}

// The fault of the lowest-numbered faulty span, if one is.
fn lowest_fault(map: MapView) -> Result<(), Refusal>
    requires { OneLength (spans_in map) (windows_in map) }
    ensures { code_of result ≡ faults map.entry }
{
    let mut before = 0;
    for e in 0..map.from.len() {
        let from = map.from[e];
        check_span(map.places, from, map.to[e], map.loss[e], before)?;
        check_window(map.opens[e], map.closes[e])?;
        before = from;
    }
    Ok(())
}

// The same, at once where no span is faulty.
fn check_spans(map: MapView) -> Result<(), Refusal>
    requires { OneLength (spans_in map) (windows_in map) }
    ensures { code_of result ≡ faults map.entry }
{
    if faultless(map) {
        return Ok(());
    }
    lowest_fault(map)
}

// No place or too many, and a start that is none of them.
fn check_places(places: u32, start: u32) -> Result<(), Refusal>
    ensures { code_of result ≡ cond (eqb places 0 || ltb 4096 places) 14 (cond (leb places start) 15 0) }
{
    if places == 0 || 4096 < places {
        return Err(Refusal::PlaceCount);
    }
    if places <= start {
        return Err(Refusal::StartPlace);
    }
    Ok(())
}

// A minute that is not of the day.
fn check_minute(minute: u32) -> Result<(), Refusal>
    ensures { code_of result ≡ cond (not (leb minute last_minute)) 24 0 }
{
    if 1439 < minute {
        return Err(Refusal::Minute);
    }
    Ok(())
}

// Span and window lists that differ in length or are too long.
fn check_span_lists(map: MapView) -> Result<(), Refusal>
    ensures { code_of result ≡ cond (not (span_lists_fit (spans_in map.entry)
        && window_lists_fit (length map.entry.from.now) (map_from map.entry).supply)) 16 0 }
{
    let spans = map.from.len();
    if map.to.len() != spans || map.loss.len() != spans || 16384 < spans {
        return Err(Refusal::SpanLists);
    }
    if map.opens.len() != spans || map.closes.len() != spans {
        return Err(Refusal::SpanLists);
    }
    Ok(())
}

// Result lists or a store of another size than that for the places.
fn check_result_lists(places: usize, lent: Lengths) -> Result<(), Refusal>
    requires { places ≤ 4096 }
    ensures { code_of result ≡ cond (not (result_lists_fit places lent.best lent.last lent.joints lent.store)) 17 0 }
{
    if lent.best != places || lent.last != places || lent.joints != places {
        return Err(Refusal::ResultLists);
    }
    if lent.store != size_for(places) {
        return Err(Refusal::ResultLists);
    }
    Ok(())
}

// A place list that has not a word for each place.
fn check_place_list(listed: usize, places: usize) -> Result<(), Refusal>
    ensures { code_of result ≡ cond (ltb listed places) 22 0 }
{
    if listed < places {
        return Err(Refusal::PlaceList);
    }
    Ok(())
}

// The first condition that a feed call meets, if it meets one.
pub fn check_feed(map: MapView, lent: Lengths) -> Result<(), Refusal>
    ensures { code_of result
        ≡ feed_code (map_from map.entry) lent.best lent.last lent.joints lent.listed lent.store }
{
    check_places(map.places, map.start)?;
    check_minute(map.minute)?;
    // The tests after these need few places, and lists of one length.
    check_span_lists(map)?;
    let places = map.places as usize;
    check_result_lists(places, lent)?;
    check_place_list(lent.listed, places)?;
    check_spans(map)
}

// Reads a map on standard input and prints its feed table, or the code of the refusal alone.
#![tactic(auto)]

ghost use Rattle.std.specs.Prelude.{[], ◌∷◌, ◌+◌, ◌≤◌, length};
ghost use Rattle.text.specs.Decimal.{row};
ghost use Rattle.text.specs.Output.{Wrote};
ghost use Rattle.spans.specs.Lists.{map_from};
ghost use Rattle.relax.specs.Lent.{lists_of};
ghost use Rattle.paths.specs.Feed.{feed_result};
ghost use Rattle.feed.specs.Shown.{word_field, entry_row, feed_text, program_text, Shows, Told};
ghost use Rattle.feed.specs.Shown.{entry_most, figures_most, Roomy, WroteRow, TableReady, TableWrote};

use finder::Fed;
use input::read_full;
use mapfile::MapLists;
use relax::Table;
use rules::Refusal;
use spans::MapView;
use std::io;
use store::NONE;
use text::output::{put_byte, put_field};

// The most places and spans that the program has room for.
const PLACES: usize = 1024;

const SPANS: usize = 4096;

// Writes a word of the table, as C gets it, and the byte that ends it.
fn put_word(out: &mut [u8], at: usize, word: u32, end: u8) -> usize
    requires { at + 11 ≤ length out.old }
    ensures { Wrote out.old at (word_field word end) out.new result }
{
    if word == NONE {
        let next = put_byte(out, at, b'-');
        return put_byte(out, next, end);
    }
    put_field(out, at, word, end)
}

// Writes the row of a place; `hops` is its number of joints.
fn put_entry(out: &mut [u8], at: usize, place: u32, loss: u32, span: u32, hops: u32) -> usize
    requires { at + entry_most ≤ length out.old }
    ensures { WroteRow entry_most out.old at (entry_row place loss span hops) out.new result }
{
    let second = put_field(out, at, place, b',');
    let third = put_word(out, second, loss, b',');
    let fourth = put_word(out, third, span, b',');
    put_word(out, fourth, hops, b'\n')
}

// Writes the rows of all places.
fn put_table(out: &mut [u8], table: &Table) -> usize
    requires { TableReady table.now.best.now table.now.last.now table.now.joints.now out.old }
    ensures { TableWrote table.now.best.now table.now.last.now table.now.joints.now out.old result out.new }
{
    let mut at = 0;
    for p in 0..table.best.len() {
        let (loss, span, hops) = (table.best[p], table.last[p], table.joints[p]);
        at = put_entry(out, at, p as u32, loss, span, hops);
    }
    at
}

// Writes the three figures of a call that is done.
fn put_figures(out: &mut [u8], at: usize, fed: Fed) -> usize
    requires { at + figures_most ≤ length out.old }
    ensures { WroteRow figures_most out.old at (row (fed.links ∷ fed.cuts ∷ fed.examined ∷ [])) out.new
        result }
{
    let second = put_field(out, at, fed.links, b',');
    let third = put_field(out, second, fed.cuts, b',');
    put_field(out, third, fed.examined, b'\n')
}

// Leaves in `out` the table and the figures of a feed call, and returns the number of its bytes.
fn put_feed(map: MapView, table: &mut Table, out: &mut [u8]) -> Result<usize, Refusal>
    requires { Roomy map.places out.old }
    ensures { Told (feed_text map.entry.places (feed_result (map_from map.entry) (lists_of table.old))) out.old result
        out.new }
{
    let fed = finder::feed(map, table)?;
    let at = put_table(out, table);
    Ok(put_figures(out, at, fed))
}

// The same of the map that a text is of. `out` has room for the rows of 1,024 places and for the figures.
fn put_map(text: &[u8], out: &mut [u8]) -> Result<usize, Refusal>
    requires { 46000 ≤ length out.old }
    ensures { Told (program_text text.now) out.old result out.new }
{
    let mut from = [0u32; SPANS];
    let mut to = [0u32; SPANS];
    let mut loss = [0u32; SPANS];
    let mut opens = [0u32; SPANS];
    let mut closes = [0u32; SPANS];
    let mut lists = MapLists {
        from: &mut from,
        to: &mut to,
        loss: &mut loss,
        opens: &mut opens,
        closes: &mut closes,
    };
    let read = mapfile::read(text, &mut lists)?;
    let n = read.places as usize;
    if n > PLACES {
        return Err(Refusal::PlaceCount);
    }
    let mut best = [0u32; PLACES];
    let mut last = [0u32; PLACES];
    let mut joints = [0u32; PLACES];
    let mut store = [0u32; store::HEAP_WORDS + store::ITEM_WORDS * PLACES];
    let MapLists {
        from,
        to,
        loss,
        opens,
        closes,
    } = lists;
    let e = read.spans as usize;
    let words = store::size_for(n);
    let map = MapView {
        places: read.places,
        start: read.start,
        minute: read.minute,
        from: &from[..e],
        to: &to[..e],
        loss: &loss[..e],
        opens: &opens[..e],
        closes: &closes[..e],
    };
    let mut table = Table {
        best: &mut best[..n],
        last: &mut last[..n],
        joints: &mut joints[..n],
        store: &mut store[..words],
    };
    put_feed(map, &mut table, out)
}

// Leaves in `out` what is printed of a map text, and returns the number of its bytes.
fn answer_text(text: &[u8], out: &mut [u8]) -> usize
    requires { 46000 ≤ length out.old }
    ensures { Shows (program_text text.now) out.old result out.new }
{
    match put_map(text, out) {
        Ok(bytes) => bytes,
        Err(refusal) => put_field(out, 0, refusal.code(), b'\n'),
    }
}

// A text of 60,001 bytes is one byte too long.
fn main(rt: HostRuntime) -> io::Result<()> {
    let mut text = [0u8; 60001];
    let read = read_full(&mut rt.stdin(), &mut text)?;
    let mut out = [0u8; 46000];
    let bytes = answer_text(&text[..read], &mut out);
    rt.write_all(&out[..bytes])
}

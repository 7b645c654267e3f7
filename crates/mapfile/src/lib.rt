// Map text to span and window lists.
#![tactic(auto)]

ghost use Rattle.std.specs.Prelude.{◌≡◌, ℕ, ◌≤◌, length, drop, slice_index};
ghost use Rattle.text.specs.Fields.{RowAnswered};
ghost use Rattle.text.specs.Numbers.{number_at};
ghost use Rattle.text.specs.Lines.{lines};
ghost use Rattle.mapfile.specs.Lines.{row_of, has_numbers, count_of};
ghost use Rattle.mapfile.specs.Lent.{spans_in, windows_in, SameLists};
ghost use Rattle.mapfile.specs.Read.{run_out, with_spans, with_windows, read_map};
ghost use Rattle.mapfile.specs.Read.{Reads, HeadRead, SpansFit};

use rules::Refusal;
use text::{NumberRow, line_end, number_at, row_from};

// The first line of a map that is read, and the number of its spans.
#[derive(Clone, Copy)]
pub struct MapRead {
    pub places: u32,
    pub start: u32,
    pub minute: u32,
    pub spans: u32,
}

// The lists that a map is read into: a word for each span in every list.
#[derive(Drop)]
pub struct MapLists<'a> {
    pub from: &'a mut [u32],
    pub to: &'a mut [u32],
    pub loss: &'a mut [u32],
    pub opens: &'a mut [u32],
    pub closes: &'a mut [u32],
}

// The numbers of a line.
fn line_numbers(line: &[u8]) -> Option<NumberRow<5>>
    ensures { RowAnswered line.now (number_at line.now 0) (row_of line.now) result }
{
    row_from(line, number_at(line, 0))
}

fn is_span(line: &[u8]) -> bool
    ensures { result ≡ has_numbers 5 line.now }
{
    line_numbers(line).is_some_and(|row| row.count == 5)
}

// The five numbers of a line that is a span; zeros in the places of those that a line lacks.
fn span_numbers(line: &[u8]) -> [u32; 5]
    ensures { (i : ℕ) → slice_index result i ≡ slice_index (row_of line.now) i }
{
    match line_numbers(line) {
        Some(row) => row.numbers,
        None => [0; 5],
    }
}

// How many spans the lines from a position on hold, if each is a span. Lines differ in length, so the position is no
// counter of a `for`.
fn count_spans(text: &[u8], first: usize) -> Result<u32, Refusal>
    requires { length text.now ≤ 60000 }
    ensures { result ≡ count_of (lines (drop first text.now)) }
{
    let mut at = first;
    let mut n: u32 = 0;
    while at < text.len() {
        let end = line_end(text, at);
        if !is_span(&text[at..end]) {
            return Err(Refusal::MalformedMap);
        }
        n += 1;
        at = end + 1;
    }
    Ok(n)
}

impl<'a> MapLists<'a> {
    // Whether the five lists differ in length, or have no word for each of n spans.
    #[tactic(auto, unfolding(crate::specs::Read::run_out))]
    fn run_out(&self, n: u32) -> bool
        ensures { result ≡ run_out (spans_in self.now) (windows_in self.now) n }
    {
        let words = self.from.len();
        let uneven = (self.to.len() != words) | (self.loss.len() != words);
        uneven | (self.opens.len() != words) | (self.closes.len() != words) | (words < n as usize)
    }

    // The spans of the lines from a position on go to the beginning of the five lists.
    fn fill(&mut self, text: &[u8], first: usize)
        requires { SpansFit (lines (drop first text.now)) (spans_in self.old) (windows_in self.old) }
        ensures same { SameLists self.old self.new }
        ensures loss_after { spans_in self.new ≡ with_spans (lines (drop first text.now)) (spans_in self.old) }
        ensures closes_after { windows_in self.new
            ≡ with_windows (lines (drop first text.now)) (windows_in self.old) }
    {
        let mut at = first;
        let mut n = 0;
        while at < text.len() {
            let end = line_end(text, at);
            let numbers = span_numbers(&text[at..end]);
            self.from[n] = numbers[0];
            self.to[n] = numbers[1];
            self.loss[n] = numbers[2];
            self.opens[n] = numbers[3];
            self.closes[n] = numbers[4];
            n += 1;
            at = end + 1;
        }
    }
}

// Reads the spans of a map whose first line is read, from the position after it on.
fn read_spans(
    text: &[u8],
    first: usize,
    places: u32,
    start: u32,
    minute: u32,
    lists: &mut MapLists,
) -> Result<MapRead, Refusal>
    requires { HeadRead text.now first places start minute }
    ensures same { SameLists lists.old lists.new }
    ensures reads { Reads (read_map text.now (spans_in lists.old) (windows_in lists.old)) result
        (spans_in lists.new) (windows_in lists.new) }
{
    let spans = count_spans(text, first)?;
    if lists.run_out(spans) {
        return Err(Refusal::SpanLists);
    }
    lists.fill(text, first);
    Ok(MapRead {
        places,
        start,
        minute,
        spans,
    })
}

// Reads a map text into three span lists and two window lists.
pub fn read(text: &[u8], lists: &mut MapLists) -> Result<MapRead, Refusal>
    ensures same { SameLists lists.old lists.new }
    ensures reads { Reads (read_map text.now (spans_in lists.old) (windows_in lists.old)) result
        (spans_in lists.new) (windows_in lists.new) }
{
    if text.len() > 60000 {
        return Err(Refusal::MalformedMap);
    }
    let end = line_end(text, 0);
    let Some(head) = line_numbers(&text[0..end]) else {
        return Err(Refusal::MalformedMap);
    };
    if head.count != 3 {
        return Err(Refusal::MalformedMap);
    }
    let numbers = head.numbers;
    let places = numbers[0];
    let start = numbers[1];
    let minute = numbers[2];
    read_spans(text, end + 1, places, start, minute, lists)
}

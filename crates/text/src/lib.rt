// Text as bytes: numbers, fields and lines are read here, numbers are written in `output`.
#![tactic(auto)]

ghost use Rattle.std.specs.Prelude.{◌≡◌, suc, ◌+◌, min, max, [], length, ◌≤◌};
ghost use Rattle.text.specs.Numbers.{most_digits, number_at, first_digits, DigitsRead};
ghost use Rattle.text.specs.Fields.{field_at, ends_at, row_from, RowAnswered};
ghost use Rattle.text.specs.Lines.{lines, line_end, line_feeds};

pub mod output;

// ---- numbers

// Where the digits that are read end, and their value.
#[derive(Clone, Copy)]
struct DigitRun {
    end: usize,
    value: u64,
}

// Where reading digits from `at` on ends at the latest: with the text, or after one digit too many.
fn reading_end(s: &[u8], at: usize) -> usize
    ensures { result ≡ max at (min (length s.now) (at + suc most_digits)) }
{
    at.max(s.len().min(at.saturating_add(11)))
}

// Eleven digits are read at most, so their value fits.
fn digits_at(s: &[u8], at: usize) -> DigitRun
    ensures { DigitsRead (first_digits s.now at) at result.end result.value }
{
    let end = reading_end(s, at);
    let mut value: u64 = 0;
    for i in at..end {
        // A byte below `0` wraps to a number above 9: one test instead of two finds a byte that is no digit.
        let digit = (s[i] as u64).wrapping_sub(48);
        if digit > 9 {
            return DigitRun { end: i, value };
        }
        value = value * 10 + digit;
    }
    DigitRun { end, value }
}

// The number at a position, of one to ten digits and a value of 32 bits, and the position after it.
pub fn number_at(s: &[u8], at: usize) -> Option<(u32, usize)>
    ensures { result ≡ number_at s.now at }
{
    let DigitRun { end, value } = digits_at(s, at);
    if end == at {
        return None;
    }
    if value > 4294967295 {
        return None;
    }
    if end - at > 10 {
        return None;
    }
    Some((value as u32, end))
}

// ---- fields

// The number after the comma at a position, and the position after it.
pub fn field_at(s: &[u8], at: usize) -> Option<(u32, usize)>
    ensures { result ≡ field_at s.now at }
{
    match s.get(at) {
        Some(b',') => number_at(s, at + 1),
        _ => None,
    }
}

// Whether a line ends at a position.
fn ends_at(s: &[u8], at: usize) -> bool
    ensures { result ≡ ends_at s.now at }
{
    match s.get(at) {
        Some(b) => *b == b'\n',
        None => true,
    }
}

// The numbers of a line, first to last, `count` of them and zeros after them, and where the line ends.
#[derive(Clone, Copy)]
pub struct NumberRow<const N: usize> {
    pub count: usize,
    pub numbers: [u32; N],
    pub end: usize,
}

// One to N numbers up to the end of the first line of s, the first of which the caller has read. The text is not
// searched for that end: it is where the numbers end.
pub fn row_from<const N: usize>(s: &[u8], first: Option<(u32, usize)>) -> Option<NumberRow<N>>
    ensures { RowAnswered s.now first (row_from N s.now [] first) result }
{
    let mut numbers = [0u32; N];
    let mut next = first;
    for i in 0..N {
        let (x, at) = next?;
        numbers[i] = x;
        if ends_at(s, at) {
            return Some(NumberRow {
                count: i + 1,
                numbers,
                end: at,
            });
        }
        next = field_at(s, at);
    }
    None
}

// ---- lines

// Where the line at a position ends: at its LF, or at the end of the text.
pub fn line_end(s: &[u8], at: usize) -> usize
    ensures { result ≡ line_end s.now at }
{
    for i in at..s.len() {
        if s[i] == b'\n' {
            return i;
        }
    }
    at.max(s.len())
}

// How many LF a short part of a text has. A byte counts them, so that many bytes are compared at a time.
fn line_feeds_in(part: &[u8]) -> u8
    requires { length part.now ≤ 255 }
    ensures { result ≡ line_feeds part.now }
{
    let mut n: u8 = 0;
    for b in part {
        if *b == b'\n' {
            n += 1;
        }
    }
    n
}

fn line_feeds(s: &[u8]) -> usize
    ensures { result ≡ line_feeds s.now }
{
    let mut n = 0;
    for part in s.chunks(255) {
        n += line_feeds_in(part) as usize;
    }
    n
}

// How many lines there are.
pub fn line_count(s: &[u8]) -> usize
    ensures { result ≡ length (lines s.now) }
{
    let n = line_feeds(s);
    match s.last() {
        None | Some(b'\n') => n,
        Some(_) => n + 1,
    }
}

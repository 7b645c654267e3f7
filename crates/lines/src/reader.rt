// A reader goes over the lines of a sheet. It holds the sheet's bytes by reference and the position of the line that comes
// next; the work is in `read_line`, on the bytes and the position.
ghost use Rattle.std.specs.Prelude.{◌≡◌, drop};
ghost use Rattle.std.specs.Iterator.{YieldsFirst, item_count};
ghost use Rattle.lines.specs.LineAt.{line_at};
ghost use Rattle.lines.specs.Parse.{lines_of};

use super::calls::parse;
use rules::Call;

#[derive(Clone, Copy)]
pub struct LineReader<'a> {
    pub sheet: &'a [u8],
    pub at: usize,
}

// The line at a position, if one is left: its call and where it ends.
pub fn read_line(sheet: &[u8], at: usize) -> Option<(Option<Call>, usize)>
    ensures { result ≡ line_at sheet.now at }
{
    if at < sheet.len() {
        let parsed = parse(&sheet[at..]);
        return Some((parsed.line, at + parsed.bytes));
    }
    None
}

// A reader of the lent bytes that stands at a position.
pub fn reader_at<'a>(sheet: &'a [u8], at: usize) -> LineReader<'a>
    ensures { (result.sheet ≡ sheet.entry) × (result.at ≡ at) }
{
    LineReader { sheet, at }
}

// The line that a reader stands at, if one is left: its call and where it ends.
pub fn next_line<'a>(reader: LineReader<'a>) -> Option<(Option<Call>, usize)>
    ensures { result ≡ line_at reader.entry.sheet.now reader.entry.at }
{
    read_line(reader.sheet, reader.at)
}

// The lines of a sheet, first to last.
pub fn lines_in<'a>(sheet: &'a [u8]) -> LineReader<'a>
    ensures { (result.sheet ≡ sheet.entry) × (result.at ≡ 0) }
{
    reader_at(sheet, 0)
}

// A line that yields no call is an item too.
impl<'a> Iterator for LineReader<'a> {
    type Item = Option<Call>;

    ghost next_gives = { YieldsFirst (λ r. lines_of (drop r.at r.sheet.now)) };

    ghost remaining = { item_count (λ r. lines_of (drop r.at r.sheet.now)) };

    fn next(&mut self) -> Option<Option<Call>> {
        let (line, end) = next_line(*self)?;
        self.at = end + 1;
        Some(line)
    }
}

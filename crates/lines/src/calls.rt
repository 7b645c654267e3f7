// The call that a line yields: a letter and its numbers.
ghost use Rattle.std.specs.Prelude.{◌≡◌};
ghost use Rattle.lines.specs.Parse.{call_of};
ghost use Rattle.lines.specs.LineAt.{CallFound, Parses};

use rules::Call;

// The call of a letter and the numbers after it.
fn call_of(letter: u8, numbers: &[u32]) -> Option<Call>
    ensures { result ≡ call_of letter numbers.now }
{
    match (numbers, letter) {
        (&[heap], b'M') => Some(Call::FindMin { heap }),
        (&[heap], b'T') => Some(Call::ExtractMin { heap }),
        (&[item], b'X') => Some(Call::Delete { item }),
        (&[item, key], b'D') => Some(Call::DecreaseKey { item, key }),
        (&[into, from], b'J') => Some(Call::Meld { into, from }),
        (&[heap, by], b'A') => Some(Call::Raise { heap, by }),
        (&[heap, item, key], b'I') => Some(Call::Insert { heap, item, key }),
        _ => None,
    }
}

// The call that the first line of a text yields, and how many bytes the line has: it ends where its last number does. At
// an empty line the letter is LF, which no call has.
fn first_call(text: &[u8]) -> Option<(Call, usize)>
    ensures { CallFound text.now result }
{
    let letter = *text.first()?;
    let row = text::row_from::<3>(text, text::field_at(text, 1))?;
    let call = call_of(letter, &row.numbers[..row.count])?;
    Some((call, row.end))
}

// The call that a line yields, and how many bytes the line has.
#[derive(Clone, Copy)]
pub struct Parsed {
    pub line: Option<Call>,
    pub bytes: usize,
}

// The first line of a text. Only where it yields no call, the text is searched for its end.
pub fn parse(text: &[u8]) -> Parsed
    ensures { Parses text.now result }
{
    match first_call(text) {
        Some((call, bytes)) => Parsed {
            line: Some(call),
            bytes,
        },
        None => Parsed {
            line: None,
            bytes: text::line_end(text, 0),
        },
    }
}

// The line of an answer: five numbers, commas between them and LF at the end.
ghost use Rattle.std.specs.Prelude.{[], ◌∷◌, ◌+◌, ◌≤◌, length};
ghost use Rattle.text.specs.Decimal.{row};
ghost use Rattle.text.specs.Output.{Wrote};
ghost use Rattle.lines.specs.Print.{answer_row};

use rules::Answer;
use text::output::put_field;

// Writes the last two numbers of an answer and LF from `at` on, and returns the position after them.
fn put_counts(out: &mut [u8], at: usize, links: u32, cuts: u32) -> usize
    requires { at + length (row (links ∷ cuts ∷ [])) ≤ length out.old }
    ensures { Wrote out.old at (row (links ∷ cuts ∷ [])) out.new result }
{
    let next = put_field(out, at, links, b',');
    put_field(out, next, cuts, b'\n')
}

// Writes an answer from `at` on, and returns the position after it.
pub fn put_answer(out: &mut [u8], at: usize, a: Answer) -> usize
    requires { at + length (answer_row a) ≤ length out.old }
    ensures { Wrote out.old at (answer_row a) out.new result }
{
    let item = put_field(out, at, a.code, b',');
    let key = put_field(out, item, a.item, b',');
    let links = put_field(out, key, a.key, b',');
    put_counts(out, links, a.links, a.cuts)
}

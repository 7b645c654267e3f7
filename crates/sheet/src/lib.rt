// Sheets of queue calls: each line is read and answered, in fresh and in kept runs.
#![tactic(auto)]

ghost use Rattle.std.specs.Prelude.{◌≡◌, ◌≤◌, [], ◌∷◌, length};
ghost use Rattle.lines.specs.Parse.{lines_of};
ghost use Rattle.sheet.specs.Promises.{Answerable, Answered, Runnable, RanLines, Limited};
ghost use Rattle.sheet.specs.Runs.{fresh_run, kept_run, lines_done, bytes_done, Leaves};

use audit::sound;
use heap::perform::perform;
use lines::answers::put_answer;
use lines::reader::lines_in;
use rules::{Answer, Call, Layout, Refusal, Tally};
use store::{is_store, items_of, make_empty};

// ---- the lines of a sheet

// Answers a line on a sound store: writes the answer from `at` on, and returns the position after it.
fn answer_line(store: &mut [u32], out: &mut [u8], at: usize, line: Option<Call>) -> usize
    requires { Answerable store.old out.old at line }
    ensures { Answered store.old out.old at line result
        store.new out.new }
{
    let Some(call) = line else {
        return put_answer(out, at, Answer::refused(Refusal::NoCall));
    };
    let answer = match perform(store, call, Tally { links: 0, cuts: 0 }) {
        Ok(reply) => Answer {
            code: 0,
            item: reply.item,
            key: reply.key,
            links: reply.tally.links,
            cuts: reply.tally.cuts,
        },
        Err(refusal) => Answer::refused(refusal),
    };
    put_answer(out, at, answer)
}

// Answers every line of a sheet on a sound store, and returns the number of bytes written.
fn run_lines(store: &mut [u32], sheet: &[u8], out: &mut [u8]) -> usize
    requires { Runnable store.old sheet.now out.old }
    ensures { RanLines store.old sheet.now out.old result
        store.new out.new }
{
    let mut to = 0;
    for line in lines_in(sheet) {
        to = answer_line(store, out, to, line);
    }
    to
}

// ---- runs

// What a run that is done answers: the lines answered and the bytes written.
#[derive(Clone, Copy)]
pub struct Ran {
    pub lines: u32,
    pub bytes: u32,
}

// The lines answered and the bytes written, two zeros after a refusal: what a host gets beside the code.
pub fn figures(ran: Result<Ran, Refusal>) -> [u32; 2]
    ensures { result ≡ lines_done ran ∷ bytes_done ran ∷ [] }
{
    match ran {
        Ok(ran) => [ran.lines, ran.bytes],
        Err(_) => [0, 0],
    }
}

// The items of a store and the lines of a sheet that are within the limits.
#[derive(Clone, Copy)]
struct Within {
    items: usize,
    lines: u32,
}

// The first of the refusals 1 to 4 whose condition is met.
fn check_limits(store: &[u32], sheet: &[u8], out: &[u8]) -> Result<Within, Refusal>
    ensures { Limited store.now sheet.now out.now result }
{
    if !is_store(store) {
        return Err(Refusal::StoreSize);
    }
    if sheet.len() > 60000 {
        return Err(Refusal::SheetLength);
    }
    let lines = text::line_count(sheet);
    if lines > 2000 {
        return Err(Refusal::LineCount);
    }
    if out.len() < 32 * lines {
        return Err(Refusal::OutputLength);
    }
    Ok(Within {
        items: items_of(store),
        lines: lines as u32,
    })
}

// Answers the lines of a sheet within the limits on a sound store.
fn run_within(store: &mut [u32], sheet: &[u8], out: &mut [u8], lines: u32) -> Ran
    requires runnable { Runnable store.old sheet.now out.old }
    requires few { length (lines_of sheet.now) ≤ 2000 }
    ensures same { result.lines ≡ lines }
    ensures ran { RanLines store.old sheet.now out.old result.bytes
        store.new out.new }
{
    let bytes = run_lines(store, sheet, out);
    Ran {
        lines,
        bytes: bytes as u32,
    }
}

// Runs a sheet on the store made empty.
pub fn run_fresh(store: &mut [u32], sheet: &[u8], out: &mut [u8]) -> Result<Ran, Refusal>
    ensures { Leaves (fresh_run store.old sheet.now out.old) result
        store.new out.new }
{
    let within = check_limits(store, sheet, out)?;
    make_empty(store, within.items);
    Ok(run_within(store, sheet, out, within.lines))
}

// Runs a sheet on the store as it is.
pub fn run_kept(store: &mut [u32], sheet: &[u8], out: &mut [u8]) -> Result<Ran, Refusal>
    ensures { Leaves (kept_run store.old sheet.now out.old) result
        store.new out.new }
{
    let within = check_limits(store, sheet, out)?;
    if !sound(store, Layout::ByItem) {
        return Err(Refusal::UnsoundStore);
    }
    Ok(run_within(store, sheet, out, within.lines))
}

// Prints what a fresh run answers to the sheet on standard input, or its code alone where it is refused.
#![tactic(auto)]

ghost use Rattle.std.specs.Prelude.{◌≤◌, length};
ghost use Rattle.queue.specs.Shown.{Shows, program_run};

use input::read_full;
use std::io;

// Runs a sheet for 1,024 items, on words of its own. Leaves in `out` what the program prints, and returns the number of
// its bytes.
fn answer_sheet(sheet: &[u8], out: &mut [u8]) -> usize
    requires { 2 ≤ length out.old }
    ensures { Shows (program_run sheet.now out.old) result out.new }
{
    let mut store = [0u32; store::HEAP_WORDS + store::ITEM_WORDS * 1024];
    match sheet::run_fresh(&mut store, sheet, out) {
        Ok(ran) => ran.bytes as usize,
        Err(refusal) => text::output::put_field(out, 0, refusal.code(), b'\n'),
    }
}

// A sheet of 60,001 bytes is one byte too long; 64,000 bytes are room for the answers of 2,000 lines.
fn main(rt: HostRuntime) -> io::Result<()> {
    let mut sheet = [0u8; 60001];
    let read = read_full(&mut rt.stdin(), &mut sheet)?;
    let mut out = [0u8; 64000];
    let bytes = answer_sheet(&sheet[..read], &mut out);
    rt.write_all(&out[..bytes])
}

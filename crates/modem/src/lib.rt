// The one run that the firmware's C side calls: a fresh run for 256 items, on words of its own.
#![tactic(auto)]

ghost use Rattle.std.specs.Prelude.{◌≡◌};
ghost use Rattle.rules.specs.Refusals.{code_of};
ghost use Rattle.sheet.specs.Runs.{bytes_done};
ghost use Rattle.modem.specs.QueueRun.{Returns, result_number};

use rules::Refusal;
use sheet::{Ran, run_fresh};

// The number that C gets of a run: the bytes written, or 100,000 and the code.
fn result_number(ran: Result<Ran, Refusal>) -> u32
    ensures { result ≡ result_number (code_of ran) (bytes_done ran) }
{
    match ran {
        Ok(ran) => ran.bytes,
        Err(refusal) => 100000 + refusal.code(),
    }
}

// Runs a sheet on an empty store for 256 items and writes the answers to `out`.
#[unsafe(no_mangle)]
pub extern "C" fn queue_run(sheet: &[u8], out: &mut [u8]) -> u32
    ensures { Returns sheet.now out.old result out.new }
{
    let mut store = [0u32; store::HEAP_WORDS + store::ITEM_WORDS * 256];
    result_number(run_fresh(&mut store, sheet, out))
}

// Supply windows: whether a span is usable at a minute, and the fault of a window.
ghost use Rattle.std.specs.Prelude.{◌≡◌};
ghost use Rattle.rules.specs.Refusals.{code_of};
ghost use Rattle.paths.specs.Map.{usable_at};
ghost use Rattle.paths.specs.Codes.{window_fault};

use rules::Refusal;

// Whether a span with these opening and closing minutes is usable at a minute.
pub fn usable_at(minute: u32, opens: u32, closes: u32) -> bool
    ensures { result ≡ usable_at minute opens closes }
{
    opens <= minute && minute < closes
}

// The fault of a window that closes before or as it opens, or after the day.
pub fn check_window(opens: u32, closes: u32) -> Result<(), Refusal>
    ensures { code_of result ≡ window_fault opens closes }
{
    if closes <= opens || 1440 < closes {
        return Err(Refusal::SupplyWindow);
    }
    Ok(())
}

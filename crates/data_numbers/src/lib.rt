// Document 01's numbers for the answers that are enums: refusals, verdicts, the status of a call and how many numbers it wrote; and whether a verdict accepts.
#![tactic(auto)]

ghost use Rattle.std.specs.Prelude.{◌≡◌, ◌≤◌};
ghost use Rattle.definitions.specs.Dispatcher.{Progress};
ghost use Rattle.definitions.specs.Numbers.{number, status_of, tally_of, verdict_of};
ghost use Rattle.data_numbers.specs.Codes.{call_code, code, is_given, largest_refusal, tally_code};

use definitions::{Refusal, Verdict};

// What is added to a refusal's number, so that it reads as no verdict (specs/Codes.antt, `refusals_past`).
pub const REFUSALS_PAST: u32 = 256;

// The refusal's number.
pub fn refusal_number(k: Refusal) -> u32
    ensures { (result ≡ number k) × (result ≤ largest_refusal) }
{
    k as u32
}

// Whether a sheet is accepted.
pub fn accepted(verdict: Verdict) -> bool
    ensures { result ≡ is_given (verdict_of verdict) }
{
    verdict.is_ok()
}

// A verdict: 0 or 1 where the sheet is accepted, and the refusal's number past 256 where it is refused.
pub fn verdict_code(verdict: Verdict) -> u32
    ensures { result ≡ code (verdict_of verdict) }
{
    match verdict {
        Ok(accepted) => accepted as u32,
        Err(k) => REFUSALS_PAST + refusal_number(k),
    }
}

// A call's status: 0 where it went through, else the refusal's number past 256.
pub fn status_code(status: Result<(), Refusal>) -> u32
    ensures { (g : Progress) → result ≡ call_code (status_of status g) }
{
    match status {
        Ok(()) => 0,
        Err(why) => REFUSALS_PAST + refusal_number(why),
    }
}

// How many numbers a call wrote: 0 where it went through, for the count is left beside it; else the refusal's number past 256.
pub fn tally_code(tally: Result<usize, Refusal>) -> u32
    ensures { result ≡ tally_code (tally_of tally) }
{
    match tally {
        Ok(_) => 0,
        Err(refused) => REFUSALS_PAST + refusal_number(refused),
    }
}

// The library over bytes: the price of the control box of a sheet (request L5), registers and comparisons counted over its plan. The answer is that of the definitions, for every input.
#![tactic(auto)]

ghost use Rattle.std.specs.Prelude.{◌≡◌, ℕ, Ok};
ghost use Rattle.definitions.specs.Basics.{given, test_bit};
ghost use Rattle.definitions.specs.Numbers.{verdict_of};
ghost use Rattle.definitions.specs.Price.{price_of, price_when};
ghost use Rattle.price_counts.specs.Plans.{Planned};
ghost use Rattle.price_sheet.specs.Returned.{PriceReturned, QuoteReturned, Quotes, plan_verdict};

use definitions::{Acceptance, Refusal, Verdict};
use plan_answer::{Question, answer};

// The plan of the most steps.
const LARGEST_PLAN: usize = 64 * 64;

// What pricing returns beside the lists: the verdict, and both totals, 0 on a refusal.
#[derive(Clone, Copy)]
pub struct Totals {
    pub verdict: Verdict,
    pub registers: u32,
    pub comparisons: u32,
}

// The price of an accepted sheet, with N and the map of step 0 and the open steps, for whoever prints it.
#[derive(Clone, Copy)]
pub struct Quotation {
    pub acceptance: Acceptance,
    pub n: usize,
    pub unbounded: u64,
    pub registers: u32,
    pub comparisons: u32,
}

// The price of a plan of n steps, where the sheet is accepted so. Refuses 19 and 14.
fn quote_plan(
    acceptance: Acceptance,
    entries: &[u16],
    n: usize,
    unbounded: u64,
    plan: &[u32],
    registers: &mut [u32],
    comparisons: &mut [u32],
) -> Result<Quotation, Refusal>
    requires { Planned n plan.now }
    ensures { (v : ℕ) → verdict_of (Ok acceptance) ≡ given v → Quotes
        (price_when (plan_verdict (test_bit unbounded) n plan.now registers.old comparisons.old v)
        (price_of (test_bit unbounded) entries.now n plan.now) registers.old comparisons.old)
        n unbounded result registers.new comparisons.new }
{
    if price_counts::too_large(plan, n, unbounded) {
        return Err(Refusal::LargeOffset);
    }
    if registers.len() < n {
        return Err(Refusal::TooShort);
    }
    if comparisons.len() < n {
        return Err(Refusal::TooShort);
    }
    let register_total = price_counts::fill_registers(entries, plan, n, unbounded, registers);
    let comparison_total = price_counts::fill_comparisons(plan, n, comparisons);
    Ok(Quotation {
        acceptance,
        n,
        unbounded,
        registers: register_total,
        comparisons: comparison_total,
    })
}

// The price of a sheet by a table of entries, whatever its bytes, with N and the map of its open steps.
pub fn quote(
    s: &[u8],
    allow: bool,
    entries: &[u16],
    registers: &mut [u32],
    comparisons: &mut [u32],
) -> Result<Quotation, Refusal>
    ensures { QuoteReturned entries.now s.now allow registers.old comparisons.old result registers.new comparisons.new }
{
    let list = [0u32; 0];
    let mut table = [0u32; LARGEST_PLAN];
    let mut maps = [0u64; 64];
    let found = answer(s, allow, Question::Plan, &list, &mut table, &mut maps);
    let acceptance = found.verdict?;
    let mut n = 0;
    let mut unbounded = 0;
    let mut leasts = [0u16; 64];
    // What was accepted is read again without a refusal.
    let _ = run_sheet::steps(s, &mut n, &mut unbounded, &mut leasts);
    let size = n * n;
    quote_plan(
        acceptance,
        entries,
        n,
        unbounded,
        &table[..size],
        registers,
        comparisons,
    )
}

// Prices a sheet by the printed table, whatever its bytes: on acceptance the first N numbers of `registers` are the registers of its steps, 0 where a step is fixed, and the first N of `comparisons` the comparisons.
// All other numbers stay as lent. Refuses what judging refuses, 1 to 12, 26 and 28; then 19, where a largest offset is 1,024 or more; then 14, where a list has fewer than N numbers. Nothing changes on a refusal.
pub fn price(s: &[u8], allow: bool, registers: &mut [u32], comparisons: &mut [u32]) -> Totals
    ensures { PriceReturned s.now allow registers.old comparisons.old result registers.new comparisons.new }
{
    let entries = price_entries::printed();
    match quote(s, allow, &entries, registers, comparisons) {
        Ok(quoted) => Totals {
            verdict: Ok(quoted.acceptance),
            registers: quoted.registers,
            comparisons: quoted.comparisons,
        },
        Err(k) => Totals {
            verdict: Err(k),
            registers: 0,
            comparisons: 0,
        },
    }
}

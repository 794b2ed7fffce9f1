// What C and Rust call for the price of a sheet's control box (request L5), on numbers and slices: thin over price_sheet, and its answer is that of the definitions for every input.
#![tactic(auto)]

ghost use Rattle.definitions.specs.Price.{price_answer, printed_table};
ghost use Rattle.c_price.specs.Memory.{PricesInto};

// Prices a sheet: on acceptance the first N numbers of `registers` and of `comparisons` are the counts of its steps, and `totals` their two sums, registers first. Returns the verdict then, 0 or 1, and 256 + k where it is refused by k.
// All other numbers stay as lent, and on a refusal all of them, the totals too.
#[unsafe(no_mangle)]
pub extern "C" fn standplan_price(
    sheet: &[u8],
    allow: bool,
    registers: &mut [u32],
    comparisons: &mut [u32],
    totals: &mut [u32; 2],
) -> u32
    ensures { PricesInto (price_answer printed_table sheet.now allow registers.old comparisons.old)
        totals.old result registers.new comparisons.new totals.new }
{
    let priced = price_sheet::price(sheet, allow, registers, comparisons);
    let code = data_numbers::verdict_code(priced.verdict);
    if data_numbers::REFUSALS_PAST <= code {
        return code;
    }
    *totals = [priced.registers, priced.comparisons];
    code
}

// What C and Rust call for the few records of an impossible sheet that clash (request L14), on numbers and slices: thin over clash_sheet, and its answer is that of the definitions for every input.
#![tactic(auto)]

ghost use Rattle.definitions.specs.Clashes.{few_answer};
ghost use Rattle.data_numbers.specs.Codes.{CountsInto};

// Where the sheet is refused as 10 or 11, the numbers of the records that clash, counted from 0 and rising, become the first numbers, and `count` how many they are. Returns 0 then, and 256 + k where it is refused by k.
// All other numbers stay as lent, and on a refusal all of them, the count too.
#[unsafe(no_mangle)]
pub extern "C" fn standplan_clashes(sheet: &[u8], numbers: &mut [u32], count: &mut usize) -> u32
    ensures { CountsInto (few_answer sheet.now numbers.old) count.old result numbers.new count.new }
{
    let tally = clash_sheet::clashes(sheet, numbers);
    if let Ok(k) = tally {
        *count = k;
        return 0;
    }
    data_numbers::tally_code(tally)
}

// What C and Rust call to write a sheet (request L4): its parts as numbers, thin over write_sheet, and its answer is that of the definitions for every input.
#![tactic(auto)]

ghost use Rattle.c_writer.specs.Memory.{WritesSheet};

use definitions::MOST_RECORDS;

// Writes the sheet of n steps and r link records. `steps` has two numbers for each step, its map (0, 1, 2 or 5) and its ticks; `records` seven for each link record, which may come in any order: its map, i, j, at
// least, at most, the gap, at most from the finish. A field whose bit does not stand is not looked at. The bytes become the first ones of the buffer, and `length` how many they are. Returns 0 then, and 256 + k
// where the parts are refused by k. All other bytes stay as lent, and on a refusal all of them, the length too.
#[unsafe(no_mangle)]
pub extern "C" fn standplan_write(
    n: usize,
    steps: &[u16],
    r: usize,
    records: &[u16],
    buffer: &mut [u8],
    length: &mut usize,
) -> u32
    ensures { WritesSheet n r steps.now records.now buffer.old
        length.old result buffer.new length.new }
{
    let a = n.min(64).min(steps.len() / 2);
    let b = r.min(MOST_RECORDS).min(records.len() / 7);
    let tally = write_sheet::write_given(
        n,
        write_numbers::steps_from(steps, a),
        a,
        r,
        write_numbers::records_from(records, b),
        b,
        buffer,
    );
    if let Ok(k) = tally {
        *length = k;
    }
    data_numbers::tally_code(tally)
}

// The sheet writer (request L4): the bytes of a sheet from its steps and link records, which may come in any order.
#![tactic(auto)]

ghost use Rattle.std.specs.Prelude.{◌≤◌, take};
ghost use Rattle.definitions.specs.Limits.{most_records, most_steps};
ghost use Rattle.definitions.specs.Writer.{sheet_bytes};
ghost use Rattle.write_bytes.specs.Sheets.{sheet_text};
ghost use Rattle.write_sheet.specs.Written.{Counts, Faults, Leaves, WholeReady, WriteReturned, Wrote, parts_there, parts_verdict, room_verdict};

use definitions::{Link, MOST_RECORDS, Operation, Refusal};
use write_parts::{LinksFound, StepsFound};

// The first fault of the parts, by number: 4, 26, 5.
#[tactic(auto, using(crate::proofs::Verdicts::fault_maps, crate::proofs::Verdicts::fault_limits, crate::proofs::Verdicts::fault_ends, crate::proofs::Verdicts::fault_none))]
fn fault(found: StepsFound, seen: LinksFound) -> Result<(), Refusal>
    ensures { Faults found seen result }
{
    let wrong = !found.mapped || seen.unmapped;
    if wrong {
        return Err(Refusal::BadMap);
    }
    if seen.unsequenced {
        return Err(Refusal::Unsequenced);
    }
    if seen.misplaced {
        return Err(Refusal::BadEndpoint);
    }
    Ok(())
}

// The sheet, of so many bytes, if there is room for it: 14.
fn write_whole(
    n: usize,
    steps: [Operation; 64],
    r: usize,
    links: [Link; 512],
    order: &[u16],
    size: usize,
    out: &mut [u8],
) -> Result<usize, Refusal>
    requires { WholeReady n steps r links order.now size }
    ensures { Leaves (room_verdict (sheet_text n steps r links order.now) out.old)
        (sheet_text n steps r links order.now) out.old result out.new }
{
    if out.len() < size {
        return Err(Refusal::TooShort);
    }
    write_bytes::put_sheet(n, steps, r, links, order, out);
    Ok(size)
}

// From 4 on, where a of n steps and b of r link records are there.
fn write_counted(
    n: usize,
    steps: [Operation; 64],
    a: usize,
    r: usize,
    links: [Link; 512],
    b: usize,
    out: &mut [u8],
) -> Result<usize, Refusal>
    requires { Counts n a r b }
    ensures { Leaves (parts_verdict n r (parts_there steps a links b) out.old) (sheet_bytes (parts_there steps a links b)) out.old result out.new }
{
    let found = write_parts::scan_steps(steps, a);
    let mut cells = [0u16; MOST_RECORDS];
    let seen = write_parts::scan_links(links, b, n, &mut cells);
    fault(found, seen)?;
    let mut order = [0u16; MOST_RECORDS];
    if write_order::order_cells(&cells[..b], &mut order) {
        return Err(Refusal::BadOrder);
    }
    if a < n {
        return Err(Refusal::TooShort);
    }
    if b < r {
        return Err(Refusal::TooShort);
    }
    write_whole(n, steps, r, links, &order, 3 + found.size + seen.size, out)
}

// Writes the sheet of n steps and r link records, of which a and b stand at the front of the arrays. Refuses, of what is there, 2 to 4, 26, 5 and 6, where 6 is a pair that comes twice;
// then 14, where fewer are there than n and r or the buffer is short. On a refusal the buffer stays as lent, and so do the bytes past the sheet.
pub fn write_given(
    n: usize,
    steps: [Operation; 64],
    a: usize,
    r: usize,
    links: [Link; 512],
    b: usize,
    out: &mut [u8],
) -> Result<usize, Refusal>
    requires { (a ≤ most_steps) × (b ≤ most_records) }
    ensures { WriteReturned n r (take a steps) (take b links) out.old result out.new }
{
    if n < 1 {
        return Err(Refusal::OperationCount);
    }
    if 64 < n {
        return Err(Refusal::OperationCount);
    }
    if MOST_RECORDS < r {
        return Err(Refusal::LinkCount);
    }
    let steps_taken = n.min(a);
    let links_taken = r.min(b);
    write_counted(n, steps, steps_taken, r, links, links_taken, out)
}

// Writes the sheet of the first n steps and the first r link records, and returns how many bytes it has. Refuses 2 to 4, 26, 5, 6 for a pair that comes twice, and 14 for a short buffer.
// On a refusal the buffer stays as lent, and so do the bytes past the sheet.
pub fn write(
    n: usize,
    steps: [Operation; 64],
    r: usize,
    links: [Link; 512],
    out: &mut [u8],
) -> Result<usize, Refusal>
    ensures { Wrote n r steps links out.old result out.new }
{
    write_given(n, steps, 64, r, links, MOST_RECORDS, out)
}

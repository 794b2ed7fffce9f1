// The bytes of a sheet (request L4), put into a lent buffer that has room for them: N and R, the steps, and the link records in a given order.
#![tactic(auto)]

ghost use Rattle.std.specs.Prelude.{◌+◌, ◌≤◌};
ghost use Rattle.data_buffers.specs.Texts.{Put};
ghost use Rattle.write_bytes.specs.Sheets.{LinksFit, SheetFits, StepsFit, links_text, sheet_text, steps_text};

use data_buffers::put_byte;
use definitions::{Link, Operation};

// The first n steps.
fn put_steps(steps: [Operation; 64], n: usize, out: &mut [u8], at: usize) -> usize
    requires { StepsFit steps n out.old at }
    ensures { Put (steps_text steps n) at result out.old out.new }
{
    let mut p = at;
    for step in &steps[..n] {
        p = write_fields::put_step(*step, out, p);
    }
    p
}

// The r link records whose numbers stand at the front of the order, one after the other.
fn put_links(links: [Link; 512], order: &[u16], r: usize, out: &mut [u8], at: usize) -> usize
    requires { LinksFit links order.now r out.old at }
    ensures { Put (links_text links order.now r) at result out.old out.new }
{
    let mut p = at;
    for i in 0..r {
        let k = usize::from(order[i]);
        let l = links[k];
        p = write_fields::put_link(l, out, p);
    }
    p
}

// The whole sheet, from the front of the buffer. Returns how many bytes there are.
pub fn put_sheet(
    n: usize,
    steps: [Operation; 64],
    r: usize,
    links: [Link; 512],
    order: &[u16],
    out: &mut [u8],
) -> usize
    requires { SheetFits n steps r links order.now out.old }
    ensures { Put (sheet_text n steps r links order.now) 0 result out.old out.new }
{
    let a = put_byte(n as u8, out, 0);
    let b = write_fields::put_number(r as u16, out, a);
    let c = put_steps(steps, n, out, b);
    put_links(links, order, r, out, c)
}

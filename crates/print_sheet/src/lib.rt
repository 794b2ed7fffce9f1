// The text that `standplan` prints of a sheet, formatted into a lent buffer: the plan where the sheet is accepted with waits allowed, else its refusal.
#![tactic(auto)]

ghost use Rattle.std.specs.Prelude.{◌≡◌, ◌≤◌, length, get_or, Ok};
ghost use Rattle.definitions.specs.Basics.{given};
ghost use Rattle.definitions.specs.Numbers.{verdict_of};
ghost use Rattle.definitions.specs.Output.{standplan};
ghost use Rattle.print_line.specs.Texts.{Printed};
ghost use Rattle.print_plan.specs.Texts.{plan_room};
ghost use Rattle.print_sheet.specs.Plans.{Plans};

use definitions::Acceptance;
use plan_answer::{Question, answer};

// The plan of the most steps.
const LARGEST_PLAN: usize = 64 * 64;

// The first byte, which is the number of steps of a sheet that is read.
fn first_byte(s: &[u8]) -> usize
    ensures { result ≡ get_or s.now 0 0 }
{
    match s.first() {
        Some(&n) => usize::from(n),
        None => 0,
    }
}

// The number of an acceptance: 0 as it is, 1 with waits.
fn acceptance_number(acceptance: Acceptance) -> u32
    ensures { verdict_of (Ok acceptance) ≡ given result }
{
    acceptance as u32
}

// The text of an accepted sheet, from its waits and its plan.
fn print_accepted(
    s: &[u8],
    verdict: u32,
    count: u32,
    maps: &[u64; 64],
    table: &[u32],
    out: &mut [u8],
) -> usize
    requires { Plans s.now verdict count maps.now table.now × (plan_room ≤ length out.old) }
    ensures { Printed (standplan s.now) result out.old out.new }
{
    let n = first_byte(s);
    print_plan::print_plan(verdict, count, maps, table, n, out)
}

// What `standplan` prints of a sheet, whatever its bytes. Returns how many bytes the text has. The table has room for every plan.
pub fn standplan(s: &[u8], out: &mut [u8]) -> usize
    requires { plan_room ≤ length out.old }
    ensures { Printed (standplan s.now) result out.old out.new }
{
    let list = [0u32; 0];
    let mut table = [0u32; LARGEST_PLAN];
    let mut maps = [0u64; 64];
    let found = answer(s, true, Question::Plan, &list, &mut table, &mut maps);
    match found.verdict {
        Ok(acceptance) => {
            let verdict = acceptance_number(acceptance);
            print_accepted(s, verdict, found.count, &maps, &table, out)
        }
        Err(k) => {
            let number = data_numbers::refusal_number(k);
            print_line::print_refusal(number, out)
        }
    }
}

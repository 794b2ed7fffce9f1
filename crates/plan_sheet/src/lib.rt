// The library over bytes: the plan of a sheet. The answer is that of the definitions, for every input. The crate plan_rows has a row of a plan.
#![tactic(auto)]

ghost use Rattle.plan_answer.specs.Returned.{PlanReturned};

use definitions::Verdict;
use plan_answer::{Question, answer};

// Plans a sheet: on acceptance the first n × n numbers of the table are its plan. All other numbers stay as lent.
pub fn plan(s: &[u8], allow: bool, table: &mut [u32]) -> Verdict
    ensures { PlanReturned s.now allow table.old result table.new }
{
    let list = [0u32; 0];
    let mut maps = [0u64; 64];
    let found = answer(s, allow, Question::Plan, &list, table, &mut maps);
    found.verdict
}

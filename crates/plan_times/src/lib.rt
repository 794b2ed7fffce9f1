// The library over bytes: the start times of a sheet for a list of durations. The answer is that of the definitions, for every input.
#![tactic(auto)]

ghost use Rattle.plan_answer.specs.Returned.{StartsReturned};

use definitions::Verdict;
use plan_answer::{Question, answer};

// Works out the start times of a sheet for a list of durations: on acceptance they are the first n numbers of `out`. All other numbers stay as lent.
pub fn starts(s: &[u8], allow: bool, list: &[u32], out: &mut [u32]) -> Verdict
    ensures { StartsReturned s.now allow list.now out.old result out.new }
{
    let mut maps = [0u64; 64];
    let found = answer(s, allow, Question::Starts, list, out, &mut maps);
    found.verdict
}

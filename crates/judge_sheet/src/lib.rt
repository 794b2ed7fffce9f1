// The library over bytes: judging a sheet and listing its waits. Each answer is that of the definitions, for every input.
#![tactic(auto)]

ghost use Rattle.plan_answer.specs.Returned.{JudgeReturned, WaitsReturned};

use definitions::{Verdict, WaitMaps};
use plan_answer::{Question, answer};

// Judges a sheet. `allow` says whether waits are allowed.
pub fn judge(s: &[u8], allow: bool) -> Verdict
    ensures { JudgeReturned s.now allow result }
{
    let list = [0u32; 0];
    let mut out = [0u32; 0];
    let mut maps = [0u64; 64];
    let found = answer(s, allow, Question::Judgement, &list, &mut out, &mut maps);
    found.verdict
}

// Lists the waits of a sheet: bit a of map i, and their count. Whoever asks for them allows them.
pub fn waits(s: &[u8]) -> WaitMaps
    ensures { WaitsReturned s.now result }
{
    let list = [0u32; 0];
    let mut out = [0u32; 0];
    let mut maps = [0u64; 64];
    let found = answer(s, true, Question::Judgement, &list, &mut out, &mut maps);
    WaitMaps {
        verdict: found.verdict,
        maps,
        count: found.count,
    }
}

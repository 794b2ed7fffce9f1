// What C and Rust call to plan: judging, waits, plans and start times, and what a run is begun with, on numbers and slices. A verdict is returned as one number: 0 or 1 where the sheet is accepted, 256 + k where it is refused by k.
// Each function is thin over one of judge_sheet, plan_sheet, plan_times or run_sheet, and its answer is that of the definitions for every input. Nothing that is lent changes on a refusal.
#![tactic(auto)]

ghost use Rattle.std.specs.Prelude.{◌≡◌};
ghost use Rattle.definitions.specs.Answers.{judged, planned, starts_answer, steps_answer, waits_answer};
ghost use Rattle.data_numbers.specs.Codes.{code};
ghost use Rattle.run_sheet.specs.Steps.{memory};
ghost use Rattle.c_planner.specs.Memory.{BeginsInto, ListsInto, WritesInto};

// Judges a sheet. `allow` says whether waits are allowed.
#[unsafe(no_mangle)]
pub extern "C" fn standplan_judge(sheet: &[u8], allow: bool) -> u32
    ensures { result ≡ code (judged sheet.now allow) }
{
    data_numbers::verdict_code(judge_sheet::judge(sheet, allow))
}

// Lists the waits of a sheet: on acceptance bit a of map i, and their count. On a refusal all stays as lent.
#[unsafe(no_mangle)]
pub extern "C" fn standplan_waits(sheet: &[u8], maps: &mut [u64; 64], count: &mut u32) -> u32
    ensures { ListsInto (waits_answer sheet.now) maps.old count.old result maps.new count.new }
{
    let found = judge_sheet::waits(sheet);
    let code = data_numbers::verdict_code(found.verdict);
    if data_numbers::REFUSALS_PAST <= code {
        return code;
    }
    let listed = found.maps;
    *maps = listed;
    *count = found.count;
    code
}

// Plans a sheet: on acceptance the first n × n numbers of the table are its plan. All other numbers stay as lent.
#[unsafe(no_mangle)]
pub extern "C" fn standplan_plan(sheet: &[u8], allow: bool, table: &mut [u32]) -> u32
    ensures { WritesInto (planned sheet.now allow table.old) result table.new }
{
    data_numbers::verdict_code(plan_sheet::plan(sheet, allow, table))
}

// Works out the start times of a sheet for a list of durations: on acceptance they are the first n numbers of `out`. All other numbers stay as lent.
#[unsafe(no_mangle)]
pub extern "C" fn standplan_starts(sheet: &[u8], allow: bool, list: &[u32], out: &mut [u32]) -> u32
    ensures { WritesInto (starts_answer sheet.now allow list.now out.old) result out.new }
{
    data_numbers::verdict_code(plan_times::starts(sheet, allow, list, out))
}

// Gives what a run of a sheet is begun with: where the bytes can be read, n is its N, bit i of `unbounded` stands where step i is open, 0 among them, and the first n numbers of `leasts` are its least durations. Returns 0 then.
// All other numbers stay as lent, and on a refusal all of them.
#[unsafe(no_mangle)]
pub extern "C" fn standplan_steps(
    sheet: &[u8],
    n: &mut usize,
    unbounded: &mut u64,
    leasts: &mut [u16],
) -> u32
    ensures { BeginsInto (steps_answer sheet.now leasts.old)
        (memory n.old unbounded.old leasts.old) result
        (memory n.new unbounded.new leasts.new) }
{
    data_numbers::status_code(run_sheet::steps(sheet, n, unbounded, leasts))
}

// Whether a step is ready to start, by its row of the plan: the row names some step, and each that it names has finished and its offset has run out.
#![tactic(auto)]

ghost use Rattle.std.specs.Prelude.{◌≡◌, ◌<◌, ◌≤◌, length};
ghost use Rattle.definitions.specs.Dispatcher.{ready};
ghost use Rattle.definitions.specs.Limits.{most_steps};
ghost use Rattle.run_ready.specs.Rows.{RowThere, due_in, row_ready};

use definitions::{State, UNDECIDED};

// Whether step a, named with this offset, has finished and its offset has run out. The sum has 64 bits: the numbers may come from anywhere.
#[tactic(auto, unfolding(crate::specs::Rows::due_in))]
fn is_due(st: &State, a: usize, offset: u32) -> bool
    requires { a < most_steps }
    ensures { result ≡ due_in st.now.finished st.now.finish st.now.tick a offset }
{
    data_bits::has(st.finished, a)
        && u64::from(st.finish[a]) + u64::from(offset) <= u64::from(st.tick)
}

// Whether a row names some step and each that it names is due. It stops at the first that is not.
fn row_due(st: &State, row: &[u32]) -> bool
    requires { length row.now ≤ most_steps }
    ensures { result ≡ row_ready st.now.finished st.now.finish st.now.tick row.now (length row.now) }
{
    let mut named = false;
    for (a, &offset) in row.iter().enumerate() {
        if offset != UNDECIDED {
            named = true;
            if !is_due(st, a, offset) {
                return false;
            }
        }
    }
    named
}

// Whether step v has not started and its row is due.
pub fn is_ready(st: &State, table: &[u32], v: usize) -> bool
    requires { RowThere st.now.n v table.now }
    ensures { result ≡ ready st.now table.now v }
{
    if data_bits::has(st.started, v) {
        return false;
    }
    let at = v * st.n;
    row_due(st, &table[at..at + st.n])
}

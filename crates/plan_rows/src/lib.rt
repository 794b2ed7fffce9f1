// A row of a plan, asked for: the part of the caller's table that holds it, or a refusal.
#![tactic(auto)]

ghost use Rattle.std.specs.Prelude.{◌≡◌};
ghost use Rattle.definitions.specs.Answers.{row_answer};
ghost use Rattle.definitions.specs.Numbers.{status_of};
ghost use Rattle.plan_rows.specs.Answers.{part_of};

use definitions::Refusal;

// Whether row v of a plan for n steps can be handed back, or the refusal: 2, 5, 14.
#[tactic(auto, using(crate::proofs::Parts::row_cases))]
pub fn row_status(table: &[u32], n: usize, v: usize) -> Result<(), Refusal>
    ensures { status_of result (part_of (row_answer table.now n v)) ≡ row_answer table.now n v }
{
    if n < 1 || 64 < n {
        return Err(Refusal::OperationCount);
    }
    if n <= v {
        return Err(Refusal::BadEndpoint);
    }
    if table.len() < n * n {
        return Err(Refusal::TooShort);
    }
    Ok(())
}

// Row v of a plan for n steps: that part of the caller's table, or the empty part where it is refused.
pub fn row<'a>(table: &'a [u32], n: usize, v: usize) -> &'a [u32]
    ensures { result.now ≡ part_of (row_answer table.now n v) }
{
    match row_status(table, n, v) {
        Ok(()) => {
            let start = v * n;
            let end = start + n;
            &table[start..end]
        }
        Err(_) => &table[0..0],
    }
}

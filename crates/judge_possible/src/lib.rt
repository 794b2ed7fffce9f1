// Refusals 8, 10 and 11 alone, for who asks whether a sheet is impossible and no more (request L14). Words stand for edges, as in the crate data_edges.
#![tactic(auto)]

ghost use Rattle.std.specs.Prelude.{◌≡◌, true, ℕ, ◌≤◌};
ghost use Rattle.definitions.specs.Answers.{inconsistent, judge_edges};
ghost use Rattle.definitions.specs.Basics.{refused};
ghost use Rattle.definitions.specs.Clashes.{is_impossible};
ghost use Rattle.definitions.specs.Limits.{most_steps};
ghost use Rattle.definitions.specs.Links.{members};
ghost use Rattle.definitions.specs.Numbers.{number, status_of};
ghost use Rattle.data_lists.specs.Graphs.{edges_in};
ghost use Rattle.theory.specs.Graphs.{Entered, Shape};
ghost use Rattle.judge_possible.specs.Possible.{Passing, judge_possible};

use data_lists::Edges;
use definitions::Refusal;
use order_forward::sort;

// Refusal 11, of edges that pass 8, with their anchor sets. Where no return brings anything new no step waits for its own end.
fn waits_for_itself(es: Edges, sets: &[u64; 64], order: &[u8; 64], n: usize) -> bool
    requires some { 1 ≤ n }
    requires few { n ≤ most_steps }
    ensures { Passing n (edges_in es.entry) sets.now → result ≡ inconsistent n (edges_in es.entry) }
{
    let mut rows = [0u64; 64];
    if !order_reach::reach(es, order, sets, n, &mut rows) {
        return false;
    }
    judge_waits::is_inconsistent(&rows, n)
}

// Refusals 8, 10 and 11 alone, of the edges of a sheet of n steps, with their adjacency lists.
pub fn judge_possible(es: Edges, n: usize) -> Result<(), Refusal>
    requires some { 1 ≤ n }
    requires few { n ≤ most_steps }
    ensures { Shape n (members (edges_in es.entry)) → Entered n (members (edges_in es.entry)) → status_of result tt ≡ judge_possible n (edges_in es.entry) }
{
    let mut sets = [0u64; 64];
    let mut arranged = [0u8; 64];
    if !sort(es.words, n, &mut sets, &mut arranged) {
        return Err(Refusal::ForwardCycle);
    }
    if !walk_feasible::feasible(es, &arranged, n) {
        return Err(Refusal::Infeasible);
    }
    if waits_for_itself(es, &sets, &arranged, n) {
        return Err(Refusal::Inconsistent);
    }
    Ok(())
}

// Whether a refusal calls a sheet impossible: 10 or 11.
#[tactic(auto, unfolding(definitions::specs::Clashes::is_impossible))]
fn means_impossible(k: Refusal) -> bool
    ensures { result ≡ is_impossible (refused (number k)) }
{
    matches!(k, Refusal::Infeasible | Refusal::Inconsistent)
}

// Whether such a sheet is refused as 10 or 11, whatever its leasts.
pub fn is_impossible(es: Edges, n: usize) -> bool
    requires some { 1 ≤ n }
    requires few { n ≤ most_steps }
    ensures { Shape n (members (edges_in es.entry)) → Entered n (members (edges_in es.entry)) → (least : ℕ → ℕ) → result ≡ is_impossible (judge_edges n least (edges_in es.entry) true) }
{
    match judge_possible(es, n) {
        Ok(()) => false,
        Err(k) => means_impossible(k),
    }
}

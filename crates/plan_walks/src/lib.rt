// The working table and the anchor sets of a sheet, from its edges: what plans and start times are read off. Words stand for edges, as in the crate data_edges.
#![tactic(auto)]

ghost use Rattle.std.specs.Prelude.{◌≡◌, true, ◌&&◌, ◌||◌, ℕ, ◌<◌, ◌≤◌, eqb, ltb, length};
ghost use Rattle.definitions.specs.Limits.{most_steps};
ghost use Rattle.definitions.specs.Links.{members};
ghost use Rattle.definitions.specs.Numbers.{verdict_of};
ghost use Rattle.data_edges.specs.Serial.{leasts_in};
ghost use Rattle.data_lists.specs.Graphs.{edges_in};
ghost use Rattle.data_numbers.specs.Codes.{is_given};
ghost use Rattle.data_relations.specs.Rows.{row_bit};
ghost use Rattle.theory.specs.Graphs.{Rooted};
ghost use Rattle.walk_seed.specs.Seeds.{Blank as Unnumbered};
ghost use Rattle.plan_walks.specs.Tables as Tables;
ghost use Rattle.plan_walks.specs.Tables.{Blanks, Plannable, Tabulable, Tabulated, Tabulates};

use data_lists::Edges;
use data_numbers::accepted;
use definitions::{Refusal, Verdict};
use judge_edges::{Found, judge_assuming_feasible};
use walk_feasible::feasible;

// Step 0 beside what reaches each of n steps, and no member that is no step. With the waits in these are the anchor sets, so nothing is searched for a second time.
fn add_source(rows: &mut [u64; 64], n: usize)
    requires { n ≤ most_steps }
    ensures { length rows.old ≡ most_steps → (v a : ℕ) → v < n → row_bit rows.new v a ≡ ((row_bit rows.old v a || eqb a 0) && ltb a n) }
{
    let all = data_sets::below(n);
    for v in 0..n {
        let set = data_bits::insert(rows[v], 0);
        rows[v] = data_sets::both(set, all);
    }
}

// Whether edges that pass 8 also pass 10, beside the verdict of an analysis with 10 left out. Where that accepts, the table and the sets are filled, and the search for walks tells 10; else 10 is searched for alone.
fn fill(
    d: &mut [[i32; 64]],
    number: &mut [u8; 64],
    es: Edges,
    leasts: &[u16; 64],
    n: usize,
    order: &[u8; 64],
    maps: &[u64; 64],
    sets: &mut [u64; 64],
    verdict: Verdict,
) -> bool
    requires { Tabulable n (leasts_in leasts.now) es.words.now d.old × Unnumbered number.old }
    ensures told { Rooted n (members (edges_in es.entry)) → length sets.old ≡ most_steps → result ≡ Tables.feasible n (edges_in es.entry) }
    ensures held { result ≡ true → is_given (verdict_of verdict) ≡ true → Plannable n (leasts_in leasts.now) (edges_in es.entry) sets.old maps.now → Tabulated n (leasts_in leasts.now) (edges_in es.entry) number.new d.new sets.new }
{
    if !accepted(verdict) {
        return feasible(es, order, n);
    }
    add_source(sets, n);
    walk_heaviest::walks_if_possible(d, number, es, leasts, maps, sets, order, n)
}

// The verdict on the edges of a sheet of n steps, with the waits into maps that come blank: none where the sheet would be refused with waits allowed.
// On acceptance the table, which comes without walks, holds the heaviest walks, in columns by the numbers, which come blank, and the sets, which come blank, are the anchor sets, both with the waits in.
pub fn tabulate(
    d: &mut [[i32; 64]],
    number: &mut [u8; 64],
    es: Edges,
    leasts: &[u16; 64],
    n: usize,
    allow: bool,
    sets: &mut [u64; 64],
    maps: &mut [u64; 64],
) -> Found
    requires { Tabulable n (leasts_in leasts.now) es.words.now d.old × Blanks sets.old maps.old number.old }
    ensures { Tabulates n (leasts_in leasts.now) (edges_in es.entry) allow result maps.new number.new d.new sets.new }
{
    let mut order = [0u8; 64];
    let found = judge_assuming_feasible(es, leasts, n, allow, &mut order, sets, maps);
    if !found.sorted {
        return found;
    }
    if fill(d, number, es, leasts, n, &order, maps, sets, found.verdict) {
        return found;
    }
    *maps = [0u64; 64];
    Found {
        sorted: true,
        verdict: Err(Refusal::Infeasible),
        count: 0,
    }
}

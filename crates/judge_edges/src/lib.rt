// The analysis of a sheet's edges: its verdict and its waits, by the kernels in document 01's order of refusals. Words stand for edges, as in the crate data_edges.
#![tactic(auto)]

ghost use Rattle.std.specs.Prelude.{◌≡◌, true, List, ℕ, ◌≤◌, replicate, Err};
ghost use Rattle.definitions.specs.Answers.{judge_edges, unserializable};
ghost use Rattle.definitions.specs.Limits.{most_steps};
ghost use Rattle.definitions.specs.Links.{Edge, members};
ghost use Rattle.definitions.specs.Numbers.{verdict_of};
ghost use Rattle.definitions.specs.Waits.{wait_count};
ghost use Rattle.data_edges.specs.Serial.{leasts_in};
ghost use Rattle.data_lists.specs.Graphs.{edges_in};
ghost use Rattle.judge_serial.specs.Waiting.{Waiting};
ghost use Rattle.theory.specs.Graphs.{SheetGraph};
ghost use Rattle.judge_edges.specs.Analysis.{BlankRows, WaitsCounted, Lent, Listed, NoneListed, Presumed, Rooting, Unweighed, judge_serial, judge_waits};

use data_lists::Edges;
use definitions::{Acceptance, Refusal, Verdict};
use order_forward::sort;

// Whether the edges pass 8, the verdict, and the count of the waits: the rest of an analysis is lent.
#[derive(Clone, Copy)]
pub struct Found {
    pub sorted: bool,
    pub verdict: Verdict,
    pub count: u32,
}

fn refused(k: Refusal, sorted: bool) -> Found
    ensures { (result.verdict ≡ Err k) × NoneListed sorted result }
{
    Found {
        sorted,
        verdict: Err(k),
        count: 0,
    }
}

// Refusal 12, and the verdict where it does not apply.
fn waits_verdict(count: u32, allow: bool) -> Verdict
    ensures { (n : ℕ) (g : List Edge) → count ≡ wait_count n g → verdict_of result ≡ judge_waits n g allow }
{
    if count == 0 {
        return Ok(Acceptance::WellPosed);
    }
    if allow {
        return Ok(Acceptance::Serialized);
    }
    Err(Refusal::WaitsNeeded)
}

// The same with the count.
fn waits_counted(count: u32, allow: bool) -> Found
    ensures { WaitsCounted count allow result }
{
    Found {
        sorted: true,
        verdict: waits_verdict(count, allow),
        count,
    }
}

// Refusal 28: waits are needed and cannot be put in.
fn waits_clash(
    es: Edges,
    leasts: &[u16; 64],
    maps: &[u64; 64],
    count: u32,
    order: &[u8; 64],
    n: usize,
) -> bool
    requires some { 1 ≤ n }
    requires few { n ≤ most_steps }
    ensures { Waiting n (leasts_in leasts.now) (edges_in es.entry) maps.now → count ≡ wait_count n (edges_in es.entry) → result ≡ unserializable n (leasts_in leasts.now) (edges_in es.entry) }
{
    if count == 0 {
        return false;
    }
    !judge_serial::can_serialize(es, leasts, maps, order, n)
}

// The analysis from refusal 28 on, with the waits in maps, which are made blank where 28 applies.
fn put_in(
    es: Edges,
    leasts: &[u16; 64],
    order: &[u8; 64],
    n: usize,
    allow: bool,
    maps: &mut [u64; 64],
) -> Found
    requires some { 1 ≤ n }
    requires few { n ≤ most_steps }
    ensures { (result.sorted ≡ true) × (Waiting n (leasts_in leasts.now) (edges_in es.entry) maps.old → Listed n (edges_in es.entry) (judge_serial n (leasts_in leasts.now) (edges_in es.entry)) allow result.verdict maps.new result.count) }
{
    let count = judge_waits::count_waits(maps, n);
    if waits_clash(es, leasts, maps, count, order, n) {
        *maps = [0u64; 64];
        return refused(Refusal::Unserializable, true);
    }
    waits_counted(count, allow)
}

// The analysis from refusal 11 on, with what reaches what and the waits into rows that are blank. What it says of 28 counts only where 10 does not apply.
fn serialize(
    es: Edges,
    leasts: &[u16; 64],
    sets: &[u64; 64],
    order: &[u8; 64],
    n: usize,
    allow: bool,
    reach: &mut [u64; 64],
    maps: &mut [u64; 64],
) -> Found
    requires some { 1 ≤ n }
    requires few { n ≤ most_steps }
    requires rows { BlankRows reach.old maps.old }
    ensures { (result.sorted ≡ true) × (Rooting n (leasts_in leasts.now) (edges_in es.entry) sets.now → Unweighed n (leasts_in leasts.now) (edges_in es.entry) allow result.verdict reach.new maps.new result.count) }
{
    if !order_reach::reach(es, order, sets, n, reach) {
        return waits_counted(0, allow);
    }
    if judge_waits::is_inconsistent(reach, n) {
        return refused(Refusal::Inconsistent, true);
    }
    judge_waits::wait_maps(es, reach, sets, maps);
    put_in(es, leasts, order, n, allow, maps)
}

// The analysis of the edges of a sheet of n steps, with their adjacency lists and the order and rows lent, but with refusal 10 left out, for who finds out about it in another way: an infeasible sheet is analysed as if it were feasible, and refusal 10 comes before what is said of a sorted one.
pub fn judge_assuming_feasible(
    es: Edges,
    leasts: &[u16; 64],
    n: usize,
    allow: bool,
    order: &mut [u8; 64],
    reach: &mut [u64; 64],
    maps: &mut [u64; 64],
) -> Found
    requires some { 1 ≤ n }
    requires few { n ≤ most_steps }
    requires lent { Lent order.old reach.old maps.old }
    ensures { SheetGraph n (leasts_in leasts.now) (members (edges_in es.entry)) → Presumed n (leasts_in leasts.now) (edges_in es.entry) allow result.sorted result.verdict reach.new maps.new result.count }
{
    let mut sets = [0u64; 64];
    if !sort(es.words, n, &mut sets, order) {
        return refused(Refusal::ForwardCycle, false);
    }
    serialize(es, leasts, &sets, order, n, allow, reach, maps)
}

// The verdict of the edges of a sheet of n steps, with their adjacency lists, and the waits into maps that are blank.
pub fn judge_edges(
    es: Edges,
    leasts: &[u16; 64],
    n: usize,
    allow: bool,
    maps: &mut [u64; 64],
) -> Found
    requires some { 1 ≤ n }
    requires few { n ≤ most_steps }
    requires blank { maps.old ≡ replicate 64 0 }
    ensures { SheetGraph n (leasts_in leasts.now) (members (edges_in es.entry)) → Listed n (edges_in es.entry) (judge_edges n (leasts_in leasts.now) (edges_in es.entry)) allow result.verdict maps.new result.count }
{
    let mut sets = [0u64; 64];
    let mut order = [0u8; 64];
    if !sort(es.words, n, &mut sets, &mut order) {
        return refused(Refusal::ForwardCycle, false);
    }
    if !walk_feasible::feasible(es, &order, n) {
        return refused(Refusal::Infeasible, true);
    }
    let mut reach = [0u64; 64];
    serialize(es, leasts, &sets, &order, n, allow, &mut reach, maps)
}

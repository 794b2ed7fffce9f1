// Refusal 8, an order of the steps along the forward edges, and their anchor sets: see specs/Sorting.antt.
#![tactic(auto)]

ghost use Rattle.std.specs.Prelude.{◌≡◌, ◌&&◌, ◌||◌, ℕ};
ghost use Rattle.definitions.specs.Basics.{any_below, test_bit};
ghost use Rattle.definitions.specs.Links.{members};
ghost use Rattle.data_edges.specs.Words.{graph};
ghost use Rattle.data_relations.specs.Rows.{row_bit};
ghost use Rattle.theory.specs.Graphs.{Entered, Shape};
ghost use Rattle.order_forward.specs.Sorting.{Drawable, Drawn, Sortable, Sorting};

// The members of a map and of the rows of the steps in another.
fn gather(rows: &[u64; 64], own: u64, steps: u64) -> u64
    ensures { (a : ℕ) → test_bit result a ≡ (test_bit own a || any_below (λ u. test_bit steps u && row_bit rows.now u a) 64) }
{
    let mut all = own;
    for u in data_bits::members(steps) {
        all = data_sets::union(all, rows[u]);
    }
    all
}

// Each step of the order takes in what those right before it have: they have it all, for they come before it in the order.
fn draw(before: &[u64; 64], order: &[u8; 64], n: usize, rows: &mut [u64; 64])
    requires { Drawable n before.now order.now rows.old }
    ensures { Drawn n before.now rows.old rows.new }
{
    for k in 0..n {
        let u = data_indices::place(order[k]);
        let own = rows[u];
        rows[u] = gather(rows, own, before[u]);
    }
}

// Whether forward edges close no circle, which is refusal 8; then an order of the steps, and the anchor sets into rows that are blank. Step 0 is in its own set.
pub fn sort(es: &[u64], n: usize, sets: &mut [u64; 64], order: &mut [u8; 64]) -> bool
    requires { Sortable n sets.old order.old }
    ensures { Shape n (members (graph es.now)) → Entered n (members (graph es.now)) → Sorting n (graph es.now) sets.new result }
{
    let mut before = [0u64; 64];
    order_steps::predecessors(es, &mut before, sets);
    if !order_steps::arrange(&before, n, order) {
        return false;
    }
    sets[0] = data_bits::insert(sets[0], 0);
    draw(&before, order, n, sets);
    true
}

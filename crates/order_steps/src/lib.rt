// What comes right before what, and an order of the steps in which each comes behind those right before it; where there is none, a circle is closed (refusals 8 and 28). See specs/Orders.antt.
#![tactic(auto)]

ghost use Rattle.std.specs.Prelude.{◌≡◌, ◌<◌, ◌≤◌, length, replicate};
ghost use Rattle.data_edges.specs.Words.{graph};
ghost use Rattle.order_steps.specs.Orders.{Arranged, Counted, PassedOver, Placing, Predecessors, Room, Tried};

// From where edges lead, into rows that are blank: bit u of row v of `before` stands where a forward edge leads from u to v, that of `counted` where a counted one does.
pub fn predecessors(es: &[u64], before: &mut [u64; 64], counted: &mut [u64; 64])
    requires { (before.old ≡ replicate 64 0) × (counted.old ≡ replicate 64 0) }
    ensures { Predecessors (graph es.now) before.new × Counted (graph es.now) counted.new }
{
    for &w in es {
        let v = data_edges::edge_to(w);
        let u = data_edges::edge_from(w);
        let forward = !data_edges::is_back(w);
        before[v] = data_bits::insert_if(before[v], u, forward);
        let counts = data_edges::is_counted(w);
        counted[v] = data_bits::insert_if(counted[v], u, counts);
    }
}

// The steps that are left, a map, and how many are in the order.
#[derive(Clone, Copy)]
struct Front {
    left: u64,
    placed: usize,
}

// Step u is put at the next place, where none of those right before it is left.
fn place(order: &mut [u8; 64], front: Front, u: usize, before: u64) -> Front
    requires { Room order.old u front.placed }
    ensures { Tried before u order.old order.new front.left result.left front.placed result.placed }
{
    let blocking = data_sets::both(before, front.left);
    if blocking != 0 {
        return front;
    }
    let at = front.placed;
    order[at] = u as u8;
    let left = data_bits::remove(front.left, u);
    Front {
        left,
        placed: at + 1,
    }
}

// The steps of n that are left are tried, one after another, from the lowest: sheets are mostly numbered forwards, and then all go at once.
fn pass(rows: &[u64; 64], n: usize, order: &mut [u8; 64], front: Front) -> Front
    requires { (n ≤ 64) × Placing n rows.now order.old front.left front.placed }
    ensures { PassedOver n rows.now order.new front.left result.left front.placed result.placed }
{
    let mut after = front;
    for u in data_bits::members(front.left) {
        after = place(order, after, u, rows[u]);
    }
    after
}

// An order of n steps, from the rows of what comes right before each, in passes until one puts no step into it. Says whether there is one.
pub fn arrange(rows: &[u64; 64], n: usize, order: &mut [u8; 64]) -> bool
    requires { (n ≤ 64) × (length order.old ≡ 64) }
    ensures { Arranged n rows.now order.new result }
{
    let mut front = Front {
        left: data_sets::below(n),
        placed: 0,
    };
    while front.placed < n {
        let next = pass(rows, n, order, front);
        if next.placed == front.placed {
            return false;
        }
        front = next;
    }
    true
}

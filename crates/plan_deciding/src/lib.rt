// Deciding sets (irredundant anchor sets), read off the working tables: heaviest walks and anchor sets.
// Every function is safe for any tables with a row for v and for each member of its set; on orderly ones, as those of an accepted sheet are, its answer is the definition's.
#![tactic(auto)]

ghost use Rattle.std.specs.Prelude.{◌≡◌, not, ◌&&◌, ℕ, ◌<◌, ◌≤◌, eqb, get_or};
ghost use Rattle.definitions.specs.Basics.{test_bit};
ghost use Rattle.definitions.specs.Rounds.{entry};
ghost use Rattle.plan_deciding.specs.Working.{Full, Orderly, Row, Rowed, Ways, cells_in, offset_in, reaching, covering, deciding};

// The working tables.
#[derive(Clone, Copy)]
pub struct Tables<'a> {
    // The cell of row v in the column of a is the weight of a walk from a to v, counted from the start of a, or below 0 where none comes.
    pub cells: &'a [[i32; 64]],
    // The column of each step.
    pub number: &'a [u8; 64],
    // The least duration of each step.
    pub leasts: &'a [u16; 64],
    // Bit a of map v stands where a is in the anchor set of v.
    pub sets: &'a [u64; 64],
}

// The offset of v for a, 0 where there is none. It counts from the end of a, so the least of a is taken away.
pub fn offset_at(t: Tables, v: usize, a: usize) -> u32
    requires { Row v t.cells.now × (a < 64) }
    ensures { result ≡ offset_in (cells_in t.entry) t.entry.leasts.now v a }
{
    let k = data_indices::place(t.number[a]);
    walk_cells::weight_past(t.cells[v][k], t.leasts[a])
}

// Whether the way from a over b comes to v as late as a itself.
fn reaches(t: Tables, v: usize, a: usize, b: usize) -> bool
    requires { (a < 64) × Ways v b t.cells.now }
    ensures { 1 ≤ entry (cells_in t.entry) v a → 1 ≤ entry (cells_in t.entry) b a → 1 ≤ entry (cells_in t.entry) v b → result ≡ reaching (cells_in t.entry) v a b }
{
    let k = data_indices::place(t.number[a]);
    let j = data_indices::place(t.number[b]);
    walk_cells::sum_reaches(t.cells[b][k], t.cells[v][j], t.cells[v][k])
}

// The map without a, where a is out.
fn remove_if(map: u64, a: usize, out: bool) -> u64
    requires { a < 64 }
    ensures { (j : ℕ) → test_bit result j ≡ (test_bit map j && not (eqb j a && out)) }
{
    if out {
        return data_bits::remove(map, a);
    }
    map
}

// The map without those of the given ones from which the way over b reaches.
fn without_reached(t: Tables, v: usize, b: usize, map: u64, given: u64) -> u64
    requires { Ways v b t.cells.now }
    ensures { 1 ≤ entry (cells_in t.entry) v b → Full (cells_in t.entry) v given → Full (cells_in t.entry) b given → (a : ℕ) → test_bit result a ≡ (test_bit map a && not (test_bit given a && reaching (cells_in t.entry) v a b)) }
{
    let mut kept = map;
    for a in data_bits::members(given) {
        let out = reaches(t, v, a, b);
        kept = remove_if(kept, a, out);
    }
    kept
}

// The map without those that b leaves out of the deciding set of v: only members of b's own anchor set are compared.
fn without_covered(t: Tables, v: usize, b: usize, map: u64) -> u64
    requires { Ways v b t.cells.now }
    ensures { 1 ≤ entry (cells_in t.entry) v b → Full (cells_in t.entry) v map → Full (cells_in t.entry) b (get_or t.entry.sets.now b 0) → (a : ℕ) → test_bit result a ≡ (test_bit map a && not (covering (cells_in t.entry) t.entry.sets.now v a b)) }
{
    let behind = data_bits::remove(t.sets[b], b);
    let given = data_sets::both(map, behind);
    without_reached(t, v, b, map, given)
}

// The deciding set of v: its anchor set without those that a member leaves out. The largest members are often the latest and leave out most, so they come first; a member that is out is not asked whom it leaves out, nor is step 0, which leaves nobody out.
pub fn deciding_set(t: Tables, v: usize) -> u64
    requires { Rowed v t.sets.now t.cells.now }
    ensures { Orderly (cells_in t.entry) t.entry.sets.now v → (a : ℕ) → test_bit result a ≡ deciding (cells_in t.entry) t.entry.sets.now v a }
{
    let mut kept = t.sets[v];
    let mut left = t.sets[v];
    while 1 < left {
        let b = data_bits::highest(left);
        kept = without_covered(t, v, b, kept);
        let less = data_bits::remove(left, b);
        left = data_sets::both(less, kept);
    }
    kept
}

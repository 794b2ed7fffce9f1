// A row of cells made ready to be handed on, all numbered columns at once: see specs/Rows.antt. The loop that copies a row has no branch, so that the compiler makes vectors of it.
#![tactic(auto)]

ghost use Rattle.std.specs.Prelude.{◌≡◌, [], ◌+◌, ◌%◌, ◌≤◌, get_or};
ghost use Rattle.walk_take.specs.Rows.{CopiedCell, Takeable, Taken, Trimmable, Trimmed};

// How many columns of a row hold walks, at least 4: none beyond does.
fn trimmed(cells: &[i32; 64], width: usize) -> usize
    requires { Trimmable cells.now width }
    ensures { Trimmed cells.now width result }
{
    for w in (5..=width).rev() {
        if walk_cells::is_walk(cells[w - 1]) {
            return w;
        }
    }
    width.min(4)
}

// The next multiple of four: the loops over a row then leave nothing over.
fn fours(w: usize) -> usize
    requires { w ≤ 64 }
    ensures { (w ≤ result) × (result ≤ 64) × (result % 4 ≡ 0) }
{
    (w + 3) / 4 * 4
}

// How many columns of a row to hand on, a multiple of four.
pub fn extent(cells: &[i32; 64], width: usize) -> usize
    requires { Trimmable cells.now width }
    ensures { Trimmed cells.now width result × (result % 4 ≡ 0) }
{
    let w = trimmed(cells, width);
    fours(w)
}

// The cell of row u in column k, made ready to be handed on; its weight, 0 where it holds none.
fn copy_cell(d: &[[i32; 64]], u: usize, row: &mut [i32; 64], k: usize) -> u32
    requires { Takeable u (k + 1) d.now row.old }
    ensures { CopiedCell (get_or d.now u []) row.old row.new k result }
{
    let c = walk_cells::clean(d[u][k]);
    row[k] = c;
    walk_cells::weight(c)
}

// The first cells of row u, made ready to be handed on, four at a time: so many make a vector; a weight that none of them is above, gathered by the places of a vector.
pub fn take(d: &[[i32; 64]], u: usize, row: &mut [i32; 64], width: usize) -> u32
    requires { Takeable u width d.now row.old × (width % 4 ≡ 0) }
    ensures { Taken (get_or d.now u []) row.new width result }
{
    let mut t0 = 0u32;
    let mut t1 = 0u32;
    let mut t2 = 0u32;
    let mut t3 = 0u32;
    let mut k = 0;
    while k < width {
        t0 |= copy_cell(d, u, row, k);
        t1 |= copy_cell(d, u, row, k + 1);
        t2 |= copy_cell(d, u, row, k + 2);
        t3 |= copy_cell(d, u, row, k + 3);
        k += 4;
    }
    t0 | t1 | t2 | t3
}

// Cells of the working table: the one crate that knows how a cell is held. A cell is the weight of a walk, or a number below 0 where there is none. See specs/Cells.antt.
#![tactic(auto)]

ghost use Rattle.std.specs.Prelude.{◌≡◌, suc, ◌+◌, ◌-◌, ◌≤◌, ◌<◌, eqb, leb, ltb, pos};
ghost use Rattle.definitions.specs.Limits.{most_ticks};
ghost use Rattle.definitions.specs.Rounds.{extend};
ghost use Rattle.walk_cells.specs.Cells.{Clear, Compared, Delta, Larger, Movable, Small, ground, height, move_limit, value};

// The cell of no walk: no gain leads from there to 0. Its four bytes are equal, so that a table is cleared at once.
pub const NONE: i32 = -117901064;

// ---- while walks are sought

// What cells move by along an edge.
pub fn delta(gain: u64, loss: u64) -> i32
    requires { (gain < move_limit) × (loss < move_limit) }
    ensures { Delta gain loss result × Small result }
{
    (gain as i32) - (loss as i32)
}

// A cell moved.
pub fn moved(c: i32, delta: i32) -> i32
    requires { Movable c × Small delta }
    ensures { height result + ground ≡ height c + height delta }
{
    c + delta
}

// The larger of two cells.
pub fn larger(old: i32, c: i32) -> i32
    ensures { Larger old c result }
{
    old.max(c)
}

// The bits in which a cell differs from what it was: 0 where it is the same. Bits, so that the compiler makes vectors of the loop that gathers them.
pub fn change(old: i32, new: i32) -> i32
    ensures { result ≡ pos 0 → new ≡ old }
{
    old ^ new
}

// A cell that says the same, made ready to be handed on.
pub fn clean(c: i32) -> i32
    ensures { Clear result × (value result ≡ value c) }
{
    if c < 0 { NONE } else { c }
}

// Whether a cell holds a walk.
pub fn is_walk(c: i32) -> bool
    ensures { result ≡ ltb 0 (value c) }
{
    0 <= c
}

// Whether no walk that weighs at most this gets longer than 0 by an edge.
pub fn is_idle(top: u32, gain: u64, loss: u64) -> bool
    requires { gain < move_limit }
    ensures { result ≡ leb (top + gain) loss }
{
    u64::from(top) + gain <= loss
}

// The cell of a walk that weighs a least.
pub fn of_least(least: u16) -> i32
    ensures { (value result ≡ suc least) × (least ≤ most_ticks) }
{
    i32::from(least)
}

// The cell of a walk that is one edge; of weight 0 where it loses more than it gains.
pub fn of_edge(gain: u64, loss: u64) -> i32
    requires { gain < move_limit }
    ensures { value result ≡ suc (gain - loss) }
{
    if loss < gain { (gain - loss) as i32 } else { 0 }
}

// Whether a cell is less than another.
pub fn is_less(old: i32, c: i32) -> bool
    ensures { Compared old c result }
{
    old < c
}

// ---- once they are found

// Whether no walk comes.
pub fn is_none(c: i32) -> bool
    ensures { result ≡ eqb (value c) 0 }
{
    c < 0
}

// The weight, 0 where there is none.
pub fn weight(c: i32) -> u32
    ensures { result ≡ value c - 1 }
{
    if c < 0 {
        return 0;
    }
    c as u32
}

// The weight without a least; 0 where there is none, or where it is less.
pub fn weight_past(c: i32, least: u16) -> u32
    ensures { result ≡ value c - 1 - least }
{
    let x = i32::from(least);
    if c < x {
        return 0;
    }
    (c - x) as u32
}

// Whether a walk and another one behind it are as heavy as a third.
pub fn sum_reaches(x: i32, y: i32, z: i32) -> bool
    ensures { 1 ≤ value x → 1 ≤ value y → 1 ≤ value z → result ≡ leb (value z - 1) (value x - 1 + (value y - 1)) }
{
    i64::from(z) <= i64::from(x) + i64::from(y)
}

// Whether a walk, made longer by an edge, is no heavier than another.
pub fn has_handed(c: i32, gain: u64, loss: u64, to: i32) -> bool
    requires { (gain < move_limit) × (loss < move_limit) }
    ensures { result ≡ leb (extend (value c) gain loss) (value to) }
{
    if c < 0 {
        return true;
    }
    if to < 0 {
        return false;
    }
    u64::from(weight(c)) + gain <= u64::from(weight(to)) + loss
}

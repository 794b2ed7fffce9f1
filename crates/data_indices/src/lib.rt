// Numbers that are held in one byte or two, as those that places and lengths are counted in.
#![tactic(auto)]

ghost use Rattle.std.specs.Prelude.{◌≡◌, ◌<◌, ◌%◌};
ghost use Rattle.definitions.specs.Limits.{most_steps};

// A number that stands in two bytes, such as a place in an adjacency list.
pub fn index(x: u16) -> usize
    ensures { result ≡ x }
{
    x as usize
}

// A number that stands in a byte, such as a count of steps.
pub fn byte_index(b: u8) -> usize
    ensures { (result ≡ b) × (result < 256) }
{
    b as usize
}

// A step, a place in an order of the steps or the number of a column: one of 64.
pub fn place(x: u8) -> usize
    ensures { (result ≡ x % most_steps) × (result < most_steps) }
{
    (x % 64) as usize
}

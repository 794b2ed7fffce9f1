// Operations on whole sets of numbers below 64, each a u64 as in the crate data_bits. Contracts say of every number whether it is a member.
#![tactic(auto)]

ghost use Rattle.std.specs.Prelude.{◌≡◌, not, ◌&&◌, ◌||◌, ℕ, ◌≤◌, ltb, length};
ghost use Rattle.definitions.specs.Basics.{select_below, test_bit};

// The numbers below n.
pub fn below(n: usize) -> u64
    requires { n ≤ 64 }
    ensures { (k : ℕ) → test_bit result k ≡ ltb k n }
{
    if n < 64 {
        (1 << n) - 1
    } else {
        18446744073709551615
    }
}

// The members of either.
pub fn union(a: u64, b: u64) -> u64
    ensures { (j : ℕ) → test_bit result j ≡ (test_bit a j || test_bit b j) }
{
    a | b
}

// The members of both.
pub fn both(a: u64, b: u64) -> u64
    ensures { (j : ℕ) → test_bit result j ≡ (test_bit a j && test_bit b j) }
{
    a & b
}

// The members of a that are not in b.
pub fn minus(a: u64, b: u64) -> u64
    ensures { (j : ℕ) → test_bit result j ≡ (test_bit a j && not (test_bit b j)) }
{
    a & !b
}

// The number of members.
pub fn count(m: u64) -> u32
    ensures { result ≡ length (select_below (test_bit m) 64) }
{
    u64::count_ones(m)
}

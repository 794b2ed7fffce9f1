// Sets of numbers below 64 and their single members. A set is a u64: bit k stands where k is a member. Contracts say of every number whether it is a member.
#![tactic(auto)]

ghost use Rattle.std.specs.Prelude.{◌≡◌, not, ◌&&◌, ◌||◌, ℕ, ◌<◌, eqb};
ghost use Rattle.definitions.specs.Basics.{test_bit};
ghost use Rattle.std.specs.Iterator.{at_most};
ghost use Rattle.data_bits.specs.Members.{Lowest, Highest, NextMember};

// Whether k is a member.
pub fn has(m: u64, k: usize) -> bool
    requires { k < 64 }
    ensures { result ≡ test_bit m k }
{
    (m >> k) % 2 == 1
}

// With k as a member.
pub fn insert(m: u64, k: usize) -> u64
    requires { k < 64 }
    ensures { (j : ℕ) → test_bit result j ≡ (test_bit m j || eqb j k) }
{
    m | (1 << k)
}

// With k as a member where that is asked for.
pub fn insert_if(m: u64, k: usize, wanted: bool) -> u64
    requires { k < 64 }
    ensures { (j : ℕ) → test_bit result j ≡ (test_bit m j || (wanted && eqb j k)) }
{
    if wanted {
        return insert(m, k);
    }
    m
}

// Without k as a member.
pub fn remove(m: u64, k: usize) -> u64
    requires { k < 64 }
    ensures { (j : ℕ) → test_bit result j ≡ (test_bit m j && not (eqb j k)) }
{
    m & !(1 << k)
}

// The smallest member of a map that has one.
pub fn lowest(m: u64) -> usize
    requires { 0 < m }
    ensures { Lowest m result }
{
    u64::trailing_zeros(m) as usize
}

// A map that has members, without its smallest one.
pub fn without_lowest(m: u64) -> u64
    requires { 0 < m }
    ensures { (k : ℕ) → Lowest m k → (j : ℕ) → test_bit result j ≡ (test_bit m j && not (eqb j k)) }
{
    m & (m - 1)
}

// The largest member of a map that has one.
pub fn highest(m: u64) -> usize
    requires { 0 < m }
    ensures { Highest m result }
{
    63 - (u64::leading_zeros(m) as usize)
}

// The members of a set, lowest first.
#[derive(Drop)]
pub struct EachMember {
    // Those that are still to come.
    left: u64,
}

// The members of a set, lowest first.
pub fn members(m: u64) -> EachMember
    ensures { result.left ≡ m }
{
    EachMember { left: m }
}

impl Iterator for EachMember {
    type Item = usize;

    ghost next_gives = { λ s r t. NextMember s.left r t.left };

    ghost remaining = { λ s. at_most s.left };

    fn next(&mut self) -> Option<usize> {
        if self.left == 0 {
            return None;
        }
        let k = lowest(self.left);
        self.left = without_lowest(self.left);
        Some(k)
    }
}

// Relations between the numbers below 64, held as 64 maps of bits: see specs/Rows.antt.
#![tactic(auto)]

ghost use Rattle.std.specs.Prelude.{◌≡◌, ◌&&◌, ℕ, ◌<◌, ◌≤◌, ltb, length, replicate};
ghost use Rattle.definitions.specs.Basics.{any_below};
ghost use Rattle.data_relations.specs.Rows.{row_bit, Spread};

// Whether some number below n is related to itself.
pub fn has_loop(rows: &[u64; 64], n: usize) -> bool
    requires { n ≤ 64 }
    ensures { result ≡ any_below (λ v. row_bit rows.now v v) n }
{
    for v in 0..n {
        if data_bits::has(rows[v], v) {
            return true;
        }
    }
    false
}

// Bit v in every row whose number is a member of m.
fn spread(out: &mut [u64], m: u64, v: usize)
    requires { (v < 64) × (length out.old ≡ 64) }
    ensures { Spread m v out.old out.new }
{
    for k in data_bits::members(m) {
        out[k] = data_bits::insert(out[k], v);
    }
}

// The relation turned round, into rows that are blank: bit v of row k stands where bit k of row v does, for v below n.
pub fn transpose(rows: &[u64; 64], n: usize, out: &mut [u64; 64])
    requires { (n ≤ 64) × (out.old ≡ replicate 64 0) }
    ensures { (v k : ℕ) → row_bit out.new k v ≡ (ltb v n && row_bit rows.now v k) }
{
    for i in 0..n {
        spread(out, rows[i], i);
    }
}

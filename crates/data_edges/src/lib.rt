// Edges held as words: specs/Words.antt has their layout, with its reasons.
#![tactic(auto, unfolding(crate::specs::Words::unpack))]

ghost use Rattle.std.specs.Prelude.{◌≡◌, not, ◌&&◌, ℕ, ◌<◌};
ghost use Rattle.definitions.specs.Basics.{test_bit};
ghost use Rattle.definitions.specs.Links.{late_into};
ghost use Rattle.definitions.specs.Limits.{most_steps};
ghost use Rattle.data_edges.specs.Words.{unpack, weight_base};

// The base of gain and loss, and the place of each digit but `from`, which is the lowest.
pub const WEIGHT_BASE: u64 = 16777216;

pub const TO_PLACE: u64 = 64;

pub const COUNTED_PLACE: u64 = TO_PLACE * 64;

pub const BACK_PLACE: u64 = COUNTED_PLACE * 2;

pub const GAIN_PLACE: u64 = BACK_PLACE * 2;

pub const LOSS_PLACE: u64 = GAIN_PLACE * WEIGHT_BASE;

pub const LATE_PLACE: u64 = LOSS_PLACE * WEIGHT_BASE;

// The fields of the edge that a word stands for.
pub fn edge_from(w: u64) -> usize
    ensures { (result ≡ (unpack w).from) × (result < most_steps) }
{
    (w % 64) as usize
}

pub fn edge_to(w: u64) -> usize
    ensures { (result ≡ (unpack w).to) × (result < most_steps) }
{
    (w / TO_PLACE % 64) as usize
}

pub fn edge_gain(w: u64) -> u64
    ensures { (result ≡ (unpack w).gain) × (result < weight_base) }
{
    w / GAIN_PLACE % WEIGHT_BASE
}

pub fn edge_loss(w: u64) -> u64
    ensures { (result ≡ (unpack w).loss) × (result < weight_base) }
{
    w / LOSS_PLACE % WEIGHT_BASE
}

pub fn is_counted(w: u64) -> bool
    ensures { result ≡ (unpack w).counted }
{
    w / COUNTED_PLACE % 2 == 1
}

pub fn is_back(w: u64) -> bool
    ensures { result ≡ (unpack w).back }
{
    w / BACK_PLACE % 2 == 1
}

pub fn is_late(w: u64) -> bool
    ensures { result ≡ (unpack w).late }
{
    w / LATE_PLACE % 2 == 1
}

// The anchors of m whose walks may use the edge: not its end, where it is late.
pub fn usable_by(m: u64, w: u64) -> u64
    ensures { (a : ℕ) → test_bit result a ≡ (test_bit m a && not (late_into a (unpack w))) }
{
    if is_late(w) {
        return data_bits::remove(m, edge_to(w));
    }
    m
}

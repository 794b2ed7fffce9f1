// Bytes put into a lent buffer. A writer puts its text at a position and returns the next one; all else stays as lent.
#![tactic(auto)]

ghost use Rattle.std.specs.Prelude.{[], ◌∷◌, ◌<◌, length};
ghost use Rattle.data_buffers.specs.Texts.{Put};

// One byte.
pub fn put_byte(b: u8, out: &mut [u8], at: usize) -> usize
    requires { at < length out.old }
    ensures { Put (b ∷ []) at result out.old out.new }
{
    out[at] = b;
    at + 1
}

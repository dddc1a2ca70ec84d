// Internal.
// What every other crate shares: why a call is refused, and words written from an offset on.
#![tactic(auto)]

mod refusal;

ghost use Rattle.std.specs.Prelude.{◌≡◌, [], ◌∷◌, ◌+◌, ◌≤◌, length};
ghost use Rattle.words.specs.Words.{put, record_width};

pub use refusal::{PackedFault, RecordFault, Refusal};

// How many words a record has, in a list and in a packed part.
pub const RECORD_WIDTH: usize = 4;

// The same as a word, as the size of a record counts it.
pub const RECORD_SIZE: u32 = 4;

// Values from an offset on. It is inlined, and its turns with it, so that a few values of fixed number become as many stores.
#[inline(always)]
pub fn put<T: Copy, const N: usize>(out: &mut [T], at: usize, values: [T; N])
    requires { at + N ≤ length out.old }
    ensures { out.new ≡ put out.old at values }
{
    for k in 0..N {
        out[at + k] = values[k];
    }
}

// The four words of a record from an offset on.
#[inline(always)]
pub fn put_record<T: Copy>(out: &mut [T], at: usize, id: T, start: T, end: T, last: T)
    requires { at + record_width ≤ length out.old }
    ensures { out.new ≡ put out.old at (id ∷ start ∷ end ∷ last ∷ []) }
{
    put(out, at, [id, start, end, last]);
}

// SHAvite-3's compression functions as definitions, on a chain of 16 words, a block of 128 bytes and a salt of 64, of which the small
// family uses the first 8, 64 and 32; and the small one in the first loader's form, byte by byte over a window of words.
#![tactic(auto)]

ghost use Rattle.std.specs.Prelude.{◌≡◌};
ghost use Rattle.compress.specs.Compression.{small_output};
ghost use Rattle.compress.specs.Window.{halves_at};

mod bytes;
mod cipher;
mod entering;
mod inputs;
mod window;

pub use cipher::{Halves, Quarters, small};
pub use entering::entered;

// Xors the two halves that the cipher made onto the chain, and puts zeros past them.
pub fn feed(chain: &mut [u32; 16], h: &[u32; 16])
    ensures { chain.new ≡ small_output chain.old (halves_at 0 h.now) }
{
    let left = words::xored(words::quad(&chain[0..4]), words::quad(&h[0..4]));
    let right = words::xored(words::quad(&chain[4..8]), words::quad(&h[4..8]));
    words::put(&mut chain[0..4], left);
    words::put(&mut chain[4..8], right);
    words::put(&mut chain[8..12], [0, 0, 0, 0]);
    words::put(&mut chain[12..16], [0, 0, 0, 0]);
}

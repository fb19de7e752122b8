// What the two ciphers are defined over, and the small one over a window of words.
ghost use Rattle.std.specs.Prelude.{◌≡◌, ◌+◌, ◌≤◌, length};
ghost use Rattle.family.specs.declared.Family.TheVariants.{Small};
ghost use Rattle.family.specs.Family.{expanded_words};
ghost use Rattle.words.specs.Words.{four_at};
ghost use Rattle.compress.specs.Cipher.{inner_of, small_cipher};
ghost use Rattle.compress.specs.Window.{small_words, made_of, halves_in};

use crate::inputs::Inputs;
use crate::window::Window;
use counter::Counter;
use family::SmallFamily;

// The definitions alone speak of these two: the code has halves and quarters in the chain's own place.
#[derive(Clone, Copy)]
pub struct Halves {
    pub left: [u32; 4],
    pub right: [u32; 4],
}

#[derive(Clone, Copy)]
pub struct Quarters {
    pub l: [u32; 4],
    pub a: [u32; 4],
    pub b: [u32; 4],
    pub r: [u32; 4],
}

// F over the half at `from`, by the next twelve words.
fn inner_small(h: &[u32], from: usize, w: &mut Window) -> [u32; 4]
    requires { (from + 4 ≤ length h.now) × (w.old.next + 12 ≤ expanded_words Small) }
    ensures { (result ≡ inner_of 2 (made_of w.old.from) w.old.next (four_at h.now from)) × (w.new.next ≡ w.old.next + 12) × (w.new.from ≡ w.old.from) }
{
    let whitening = w.subkey();
    let mut y = words::xored(words::quad(&h[from..from + 4]), whitening);
    // The turn has a name, and a type whose values are natural numbers, for the loop's invariant, which counts the subkeys by it. The
    // round's result has one too: the borrow checker does not cover a call whose result is laid in an array that is there.
    for _j in 0..2usize {
        let key = w.subkey();
        let next = words::aes_round(y, key);
        y = next;
    }
    words::aes_round(y, [0, 0, 0, 0])
}

// The small cipher on the chain's halves in their place: the round whose first word is i changes the half at i % 8 (the chain's
// words), so that the two change sides by themselves. It stays a function: put into a caller that compresses the large family too, it
// would carry that family's words on its stack.
#[inline(never)]
pub fn small(h: &mut [u32; 16], block: &[u8; 128], c: Counter, salt: &[u8; 64])
    ensures { h.new ≡ halves_in (small_cipher (small_words block.now c salt.now) h.old) h.old }
{
    let mut w = Window::new(Inputs {
        block,
        counter: c,
        salt,
    });
    for i in (0..SmallFamily::EXPANDED_WORDS).step_by(12) {
        let to = i % SmallFamily::CHAIN_WORDS;
        let x = inner_small(&*h, 4 - to, &mut w);
        let crossed = words::xored(words::quad(&h[to..to + 4]), x);
        words::put(&mut h[to..to + 4], crossed);
    }
}

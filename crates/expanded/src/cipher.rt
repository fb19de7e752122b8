// The two ciphers on expanded words, in either form of the round. The chain is worked on in its place.
ghost use Rattle.std.specs.Prelude.{◌≡◌, ◌+◌, ◌*◌, ◌%◌, ◌≤◌, ◌<◌, length};
ghost use Rattle.words.specs.Words.{xor4};
ghost use Rattle.compress.specs.Cipher.{inner_of, small_cipher, large_cipher};
ghost use Rattle.compress.specs.Window.{halves_at};
ghost use Rattle.expanded.specs.Places.{quarters_at, place_of};

use crate::rounds::Rounds;
use family::{LargeFamily, SmallFamily};

// F over x, of KEYS subkeys behind the whitening, xored onto l: l is the last round's subkey.
#[inline(always)]
fn inner<const KEYS: usize, R: Rounds>(w: &[u32], i: usize, x: [u32; 4], l: [u32; 4]) -> [u32; 4]
    requires { i + 4 + 4 * KEYS ≤ length w.now }
    ensures { result ≡ xor4 l (inner_of KEYS w.now i x) }
{
    let mut y = words::xored(x, words::quad(&w[i..i + 4]));
    // The round's result has a name of its own: the borrow checker does not cover a call whose result is laid in an array that is there.
    for j in 0..KEYS {
        let at = i + 4 + 4 * j;
        let next = R::round(y, words::quad(&w[at..at + 4]));
        y = next;
    }
    R::round(y, l)
}

// The two ciphers share the inner function alone: a round of halves and one of quarters have their words and places each. `compress::small`
// is this one over words that it makes as it goes; here all of them are there.
// The round whose first word is i changes the half at i % 8, so that the two change sides by themselves.
pub(crate) fn small<R: Rounds>(w: &[u32; SmallFamily::EXPANDED_WORDS], h: &mut [u32; 16])
    ensures { halves_at 0 h.new ≡ small_cipher w.now h.old }
{
    for i in (0..SmallFamily::EXPANDED_WORDS).step_by(12) {
        let to = i % SmallFamily::CHAIN_WORDS;
        let from = 4 - to;
        let x = inner::<2, R>(
            w,
            i,
            words::quad(&h[from..from + 4]),
            words::quad(&h[to..to + 4]),
        );
        words::put(&mut h[to..to + 4], x);
    }
}

// Where the quarter stands that changes with the words from i on.
fn place(i: usize) -> usize
    ensures { (result ≡ place_of i) × (result % 4 ≡ 0) × (result < 16) }
{
    (12 * (i / 32) + 8 * (i / 16 % 2)) % LargeFamily::CHAIN_WORDS
}

// F or F' over the quarter behind it changes a quarter, and each round moves all four on by one place.
pub(crate) fn large<R: Rounds>(w: &[u32; LargeFamily::EXPANDED_WORDS], h: &mut [u32; 16])
    ensures { quarters_at 8 h.new ≡ large_cipher w.now h.old }
{
    for i in (0..LargeFamily::EXPANDED_WORDS).step_by(16) {
        let to = place(i);
        let from = (to + 4) % LargeFamily::CHAIN_WORDS;
        let x = inner::<3, R>(
            w,
            i,
            words::quad(&h[from..from + 4]),
            words::quad(&h[to..to + 4]),
        );
        words::put(&mut h[to..to + 4], x);
    }
}

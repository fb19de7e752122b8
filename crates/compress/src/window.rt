// The small family's words, made four at a time as they are used. Word j stands at place j % 16 of a window, which so holds the last
// sixteen.
ghost use Rattle.std.specs.Prelude.{◌≡◌, ◌+◌, ◌-◌, ◌*◌, ◌%◌, ◌≤◌, length};
ghost use Rattle.family.specs.declared.Family.TheVariants.{Small};
ghost use Rattle.family.specs.Family.{block_words, salt_quads, expanded_words};
ghost use Rattle.words.specs.Words.{four_at, words_of};
ghost use Rattle.compress.specs.Expansion.{places, counts_of};
ghost use Rattle.compress.specs.Window.{made_of, Holds, Holds-prop, taps_from, nonlinear_from, linear_from};

use crate::bytes;
use crate::entering::entered;
use crate::inputs::Inputs;
use family::{Family, SmallFamily};

// The window before word `next` is made.
#[derive(Drop)]
pub(crate) struct Window<'a> {
    words: [u32; 16],
    pub(crate) from: Inputs<'a>,
    pub(crate) next: usize,
    ghost fours: { next % 4 ≡ 0 },
    ghost holds: { Holds words (made_of from) next } by { Holds-prop words (made_of from) next },
}

fn place(j: usize) -> usize
    ensures { result ≡ j % block_words Small }
{
    j % SmallFamily::BLOCK_WORDS
}

// `expanded` has taps and linear words of its own, from all words of a block in one array; here they are of the sixteen that are kept,
// four at a time.
fn taps(far: [u32; 4]) -> [u32; 4]
    ensures { result ≡ taps_from far }
{
    [far[1], far[2], far[3], far[0]]
}

// Four linear words, from the four sixteen back and the four before.
fn linear(far: [u32; 4], last: [u32; 4]) -> [u32; 4]
    ensures { result ≡ linear_from far last }
{
    let first = far[0] ^ last[1];
    [first, far[1] ^ last[2], far[2] ^ last[3], far[3] ^ first]
}

impl<'a> Window<'a> {
    pub(crate) fn new(from: Inputs<'a>) -> Window<'a>
        ensures { (result.next ≡ 0) × (result.from ≡ from.entry) }
    {
        Window {
            words: [0; 16],
            from,
            next: 0,
        }
    }

    // The four words of the window from word j on.
    fn quad(&self, j: usize) -> [u32; 4]
        requires { j % 4 ≡ 0 }
        ensures { result ≡ four_at self.now.words (j % block_words Small) }
    {
        let from = place(j);
        words::quad(&self.words[from..from + 4])
    }

    // The nonlinear group that comes next.
    fn nonlinear(&self) -> [u32; 4]
        requires { block_words Small ≤ self.now.next }
        ensures { result ≡ nonlinear_from (four_at self.now.words ((self.now.next - block_words Small) % block_words Small)) (four_at self.now.words ((self.now.next - 4) % block_words Small)) (four_at (words_of 16 self.now.from.salt.now) (self.now.next % (4 * salt_quads Small))) (counts_of (places Small self.now.from.counter) self.now.next) }
    {
        let i = self.next;
        let salt = self.from.salt;
        let far = self.quad(i - SmallFamily::BLOCK_WORDS);
        let salted = words::xored(
            taps(far),
            bytes::quad_of(salt, i % (4 * SmallFamily::SALT_QUADS)),
        );
        let mixed = words::aes_round(salted, [0, 0, 0, 0]);
        let last = self.quad(i - 4);
        entered(
            Family::Small,
            i,
            self.from.counter,
            words::xored(mixed, last),
        )
    }

    // The next four words.
    fn made(&self) -> [u32; 4]
        requires { self.now.next + 4 ≤ expanded_words Small }
        ensures { result ≡ four_at (made_of self.now.from) self.now.next }
    {
        let i = self.next;
        if i < SmallFamily::BLOCK_WORDS {
            let block = self.from.block;
            return bytes::quad_of(block, i);
        }
        if i / SmallFamily::BLOCK_WORDS % 2 == 1 {
            return self.nonlinear();
        }
        linear(self.quad(i - SmallFamily::BLOCK_WORDS), self.quad(i - 4))
    }

    // The next subkey: four words, which take their place in the window.
    pub(crate) fn subkey(&mut self) -> [u32; 4]
        requires { self.old.next + 4 ≤ expanded_words Small }
        ensures { (result ≡ four_at (made_of self.old.from) self.old.next) × (self.new.next ≡ self.old.next + 4) × (self.new.from ≡ self.old.from) }
    {
        let key = self.made();
        let to = place(self.next);
        words::put(&mut self.words[to..to + 4], key);
        self.next += 4;
        key
    }
}

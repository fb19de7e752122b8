// The bit counter: a type of its own, apart from the message length.
#![tactic(auto)]

ghost use Rattle.std.specs.Prelude.{◌≡◌, ◌+◌, ◌*◌, ◌^◌, ◌<◌, ◌≤◌};
ghost use Rattle.counter.specs.Counter.{number_of, counter_of};

// How many values a word of the counter has.
const WORD: u64 = 1 << 32;

#[derive(Clone, Copy)]
pub struct Counter(pub u32, pub u32, pub u32, pub u32);

// One word of a counter and what it carries into the next. A wrapping add, and not `overflowing_add` or a wider sum: document 01 has the
// carry found by comparison with the old word.
#[derive(Clone, Copy)]
struct Sum {
    word: u32,
    carry: u32,
}

fn add_word(word: u32, more: u32) -> Sum
    ensures { (result.word + 2 ^ 32 * result.carry ≡ word + more) × (result.word < 2 ^ 32) × (result.carry ≤ 1) }
{
    let sum = word.wrapping_add(more);
    Sum {
        word: sum,
        carry: u32::from(sum < word),
    }
}

impl Counter {
    // The counter of a number of bits.
    pub fn of(bits: u64) -> Counter
        ensures { result ≡ counter_of bits }
    {
        let low = (bits % WORD) as u32;
        let high = (bits / WORD % WORD) as u32;
        Counter(low, high, 0, 0)
    }

    // Advanced by a number of bits, modulo 2^128.
    pub fn advance(self, bits: u32) -> Counter
        ensures { result ≡ counter_of (number_of self + bits) }
    {
        let a = add_word(self.0, bits);
        let b = add_word(self.1, a.carry);
        let c = add_word(self.2, b.carry);
        let d = add_word(self.3, c.carry);
        Counter(a.word, b.word, c.word, d.word)
    }
}

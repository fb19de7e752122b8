// The running state, and when it is consistent.
#![tactic(auto)]

ghost use Rattle.std.specs.Prelude.{◌≡◌, ◌^◌, ◌%◌, ◌<◌, drop};
ghost use Rattle.family.specs.Family.{block_bytes};
ghost use Rattle.state.specs.Bytes.{sum_of, all_zero};
ghost use Rattle.state.specs.State.{allowed, belongs, zero_past, consistent_of, zero_state};

use family::{Family, LargeFamily, SmallFamily};
use reports::Length;

#[derive(Clone, Copy)]
pub struct State {
    pub family: Family,
    pub m: u16,
    pub salt: [u8; 64],
    pub chain: [u32; 16],
    pub covered: Length,
    pub compressed: u64,
    pub held: [u8; 128],
}

// The most bits that a message may have: 2^64 - 1.
pub const BIT_LIMIT: u64 = u64::MAX;

// The most whole bytes: 2^61 - 1.
pub const LIMIT: u64 = BIT_LIMIT / 8;

// Whether a digest can have m bits.
#[tactic(auto, unfolding(crate::specs::State::allowed))]
pub fn is_allowed(m: u16) -> bool
    ensures { result ≡ allowed m }
{
    m != 0 && m <= LargeFamily::DIGEST_BITS
}

#[tactic(auto, unfolding(crate::specs::State::belongs))]
fn is_of(family: Family, m: u16) -> bool
    ensures { result ≡ belongs family m }
{
    match family {
        Family::Small => m <= SmallFamily::DIGEST_BITS,
        Family::Large => SmallFamily::DIGEST_BITS < m,
    }
}

// Whether every byte from `at` on is zero: all of them are gathered, since a loop with no way out costs less than a search. Bytes joined by `or` stay a byte;
// words are added up below, as their definition adds them.
pub fn zero_from(s: &[u8], at: usize) -> bool
    ensures { result ≡ all_zero (drop at s.now) }
{
    let rest = &s[at.min(s.len())..];
    rest.iter().fold(0, |any, b| any | *b) == 0
}

// The sum of the words from `at` on, which is 0 where each of them is.
fn sum_from(words: [u32; 16], at: usize) -> u64
    ensures { result ≡ sum_of (drop at words) }
{
    let rest = &words[at.min(words.len())..];
    rest.iter().map(|w| u64::from(*w)).sum()
}

// How many bytes of a block are held behind the whole ones. Std has no `From` between u64 and usize, so their casts, here and below, stay `as`.
pub fn held_bytes(family: Family, covered: Length) -> usize
    ensures { result ≡ covered.0 % block_bytes family }
{
    (covered.0 % family.block_bytes() as u64) as usize
}

// Whether the places past the family's own are zero: in the held block, the salt and the chain.
#[tactic(auto, using(crate::proofs::Zeros::sum_zero), unfolding(crate::specs::State::zero_past))]
fn zero_past(state: State, rest: usize) -> bool
    ensures { result ≡ zero_past state rest }
{
    zero_from(&state.held, rest)
        && zero_from(&state.salt, state.family.salt_bytes())
        && sum_from(state.chain, state.family.chain_words()) == 0
}

// Whether a state follows document 01's rule; add and finish refuse any other.
#[tactic(auto, unfolding(crate::specs::State::consistent_of))]
pub fn consistent(state: State) -> bool
    ensures { result ≡ consistent_of state }
{
    is_allowed(state.m)
        && is_of(state.family, state.m)
        && state.covered.0 <= LIMIT
        && state.compressed == state.covered.0 / state.family.block_bytes() as u64
        && zero_past(state, held_bytes(state.family, state.covered))
}

// What a refused begin hands back: the all-zero state of the small family.
#[tactic(auto, unfolding(crate::specs::State::zero_state))]
pub fn zero_state() -> State
    ensures { result ≡ zero_state }
{
    State {
        family: Family::Small,
        m: 0,
        salt: [0u8; 64],
        chain: [0u32; 16],
        covered: Length(0),
        compressed: 0,
        held: [0u8; 128],
    }
}

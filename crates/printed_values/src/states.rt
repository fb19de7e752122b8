// How a digest starts and ends: by the rule, and as the appendix was made.
ghost use Rattle.std.specs.Prelude.{◌≤◌};

use crate::messages::Message;
use bits::LastBits;
use counter::Counter;
use family::{Family, LargeFamily, SmallFamily};
use reports::Length;
use state::State;

// A digest's words: the lengths that the appendix has are whole words.
pub(crate) fn word_count(m: u16) -> usize
    ensures { result ≤ 16 }
{
    usize::from(m / 32).min(LargeFamily::CHAIN_WORDS)
}

fn salt_byte(m: u16) -> u8 {
    match m {
        224 => 0x11,
        256 => 0x22,
        384 => 0x33,
        _ => 0x44,
    }
}

// The appendix's salt for m bits, with zeros past the family's own size.
fn salt_of(m: u16) -> [u8; 64] {
    let size = Family::of(m).salt_bytes();
    let mut salt = [0u8; 64];
    for byte in salt.iter_mut().take(size) {
        *byte = salt_byte(m);
    }
    salt
}

// The label's `salted`: whether the salt is the appendix's or none. It is taken by `text::first`, since `salt_bytes` says its number by the family's and not by a bound.
pub(crate) fn started_by_rule(m: u16, salted: bool) -> State {
    let salt = salt_of(m);
    let size = if salted {
        Family::of(m).salt_bytes()
    } else {
        0
    };
    digest::begin(form::TABLES, m, text::first(&salt, size)).state
}

// The appendix's salted digests come out only where both start-up calls have the salt too; the rule has zeros there.
fn started_with_salt(m: u16) -> State {
    let family = Family::of(m);
    let salt = salt_of(m);
    let mut chain = [0u32; 16];
    let mut block = [0u8; 128];
    chaining::block(
        form::TABLES,
        family,
        &mut chain,
        &block,
        Counter::of(0),
        &salt,
    );
    block[..2].copy_from_slice(&m.to_le_bytes());
    chaining::block(
        form::TABLES,
        family,
        &mut chain,
        &block,
        Counter::of(0),
        &salt,
    );
    State {
        family,
        m,
        salt,
        chain,
        covered: Length(0),
        compressed: 0,
        held: [0u8; 128],
    }
}

// The label's `salted`: a digest without a salt is printed as the rule has it.
pub(crate) fn started_as_printed(m: u16, salted: bool) -> State {
    if salted {
        return started_with_salt(m);
    }
    started_by_rule(m, false)
}

// A digest's bytes as words, the low byte first.
pub(crate) fn ended_by_rule(state: State) -> [u32; 16] {
    let mut bytes = [0u8; 64];
    digest::finish(form::TABLES, state, LastBits::none(), &mut bytes);
    let mut words = [0u32; 16];
    let (fours, _) = bytes.as_chunks::<4>();
    for (word, four) in words.iter_mut().zip(fours) {
        *word = u32::from_le_bytes(*four);
    }
    words
}

// A million is a whole number of small blocks, so the last block holds padding only. The appendix gave it the message length as counter,
// where the rule has 0.
fn ended_with_length(state: State) -> [u32; 16] {
    let bits: u64 = 8000000;
    let mut block = [0u8; 128];
    block[0] = 0x80;
    let at = SmallFamily::LENGTH_PLACE;
    let end = at + SmallFamily::LENGTH_BYTES;
    block[at..end].copy_from_slice(&bits.to_le_bytes());
    block[end..end + 2].copy_from_slice(&state.m.to_le_bytes());
    let mut chain = state.chain;
    let salt = state.salt;
    chaining::block(
        form::TABLES,
        state.family,
        &mut chain,
        &block,
        Counter::of(bits),
        &salt,
    );
    chain
}

pub(crate) fn ended_as_printed(state: State, message: Message) -> [u32; 16] {
    match message {
        Message::Million if state.m <= SmallFamily::DIGEST_BITS => ended_with_length(state),
        _ => ended_by_rule(state),
    }
}

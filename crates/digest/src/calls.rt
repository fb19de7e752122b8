// Begin, add and one-shot. Each tests in the documents' order, and a refusal changes nothing. A call hands its own arguments to the function that tests them:
// to gather them in a struct for that one step would be no plainer. Of one-shot's tests the first two stand here, the others in `finishing::hash`.
ghost use Rattle.std.specs.Prelude.{◌≡◌, true, cond, [], ◌+◌, ◌/◌, ◌≤◌, ◌<◌, eqb, length};
ghost use Rattle.bits.specs.Message.{message_of};
ghost use Rattle.state.specs.State.{limit, consistent_of};
ghost use Rattle.digest.specs.Running.{state_of, absorbed};
ghost use Rattle.answers.specs.Handed.{made_if};
ghost use Rattle.digest.specs.Calls.{salt_fits, begin_answer, begin_of, add_answer, add_of, one_shot_of, one_shot_buffer};

use crate::bytes;
use answers::{Handed, Refusal};
use bits::LastBits;
use counter::Counter;
use family::Family;
use reports::{Coverage, Length};
use state::State;

// An answer, and the state handed back.
pub type Step = Handed<(), State>;

#[tactic(auto, unfolding(crate::specs::Calls::salt_fits))]
fn salt_fits(family: Family, salt: &[u8]) -> bool
    ensures { result ≡ salt_fits family salt.now }
{
    salt.is_empty() || salt.len() == family.salt_bytes()
}

// The state at the start, for an m that is allowed and a salt that fits.
fn started(form: bool, m: u16, salt: &[u8]) -> State
    requires { length salt.now ≤ 64 }
    ensures { result ≡ state_of m salt.now [] }
{
    let family = Family::of(m);
    let chain = starting::starting_value(form, family, m);
    State {
        family,
        m,
        salt: bytes::fill_salt(salt),
        chain,
        covered: Length(0),
        compressed: 0,
        held: [0u8; 128],
    }
}

// The tests of begin, and the state at the start.
fn begun(form: bool, m: u16, salt: &[u8]) -> Result<State, Refusal>
    ensures { result ≡ made_if (begin_answer m salt.now) (state_of m salt.now []) }
{
    if !state::is_allowed(m) {
        return Err(Refusal::DigestLength);
    }
    if !salt_fits(Family::of(m), salt) {
        return Err(Refusal::SaltSize);
    }
    Ok(started(form, m, salt))
}

// Starts a digest of m bits. The salt is empty or of the family's size.
pub fn begin(form: bool, m: u16, salt: &[u8]) -> Step
    ensures { result ≡ begin_of m salt.now }
{
    Handed::of(begun(form, m, salt), state::zero_state())
}

fn reach(covered: Length, more: usize) -> u64
    requires { covered.0 + more ≤ limit }
    ensures { result ≡ covered.0 + more }
{
    covered.0 + more as u64
}

// How many whole blocks are taken at once: by the tables all that stand behind no held byte, and byte by byte none, since one at a time
// costs a loader less stack.
fn at_once(form: bool, rest: usize, left: usize, size: usize) -> usize
    requires { 0 < size }
    ensures { result ≡ cond form (cond (eqb rest 0) (left / size) 0) 0 }
{
    if form && rest == 0 { left / size } else { 0 }
}

// Takes the bytes in: a part of a block at a time, or the whole blocks that can be taken at once. A turn takes as many bytes as the turn before left room for,
// and no range or iterator hands out steps of such sizes.
fn absorb(form: bool, state: State, bytes: &[u8]) -> State
    requires { (consistent_of state ≡ true) × (state.covered.0 + length bytes.now ≤ limit) }
    ensures { result ≡ absorbed state bytes.now }
{
    let family = state.family;
    let salt = state.salt;
    let size = family.block_bytes();
    let mut chain = state.chain;
    let mut held = state.held;
    let mut compressed = state.compressed;
    let covered = state.covered;
    let mut rest = state::held_bytes(family, covered);
    let mut counter = Counter::of(8 * (covered.0 - rest as u64));
    let bits = (8 * size) as u32;
    let mut i = 0;
    while i < bytes.len() {
        let n = at_once(form, rest, bytes.len() - i, size);
        if n > 0 {
            let end = i + n * size;
            let next = counter.advance(bits);
            expanded::run_by_tables(family, &mut chain, &bytes[i..end], next, &salt);
            counter = Counter::of(8 * (covered.0 + end as u64));
            compressed += n as u64;
            i = end;
        } else {
            let count = (size - rest).min(bytes.len() - i);
            held = bytes::take_in(held, rest, &bytes[i..i + count]);
            rest += count;
            i += count;
            if rest == size {
                let reached = counter.advance(bits);
                chaining::block(form, family, &mut chain, &held, reached, &salt);
                counter = reached;
                compressed += 1;
                held = [0u8; 128];
                rest = 0;
            }
        }
    }
    State {
        chain,
        covered: Length(reach(covered, bytes.len())),
        compressed,
        held,
        ..state
    }
}

// The tests of add, and the state that has taken the bytes in.
fn added(form: bool, state: State, bytes: &[u8]) -> Result<State, Refusal>
    ensures { result ≡ made_if (add_answer state bytes.now) (absorbed state bytes.now) }
{
    if !state::consistent(state) {
        return Err(Refusal::StateInconsistent);
    }
    if bytes.len() as u64 > state::LIMIT - state.covered.0 {
        return Err(Refusal::MessageLimit);
    }
    Ok(absorb(form, state, bytes))
}

// Adds bytes to a digest.
pub fn add(form: bool, state: State, bytes: &[u8]) -> Step
    ensures { result ≡ add_of state bytes.now }
{
    Handed::of(added(form, state, bytes), state)
}

// The digest of one message: whole bytes, and last bits behind them.
pub fn one_shot(
    m: u16,
    salt: &[u8],
    bytes: &[u8],
    last: LastBits,
    out: &mut [u8],
) -> Result<Coverage, Refusal>
    ensures result { result ≡ one_shot_of m salt.now (message_of bytes.now last) out.old }
    ensures buffer { out.new ≡ one_shot_buffer m salt.now (message_of bytes.now last) out.old }
{
    if !state::is_allowed(m) {
        return Err(Refusal::DigestLength);
    }
    let family = Family::of(m);
    if !salt_fits(family, salt) {
        return Err(Refusal::SaltSize);
    }
    let filled = bytes::fill_salt(salt);
    let start = starting::starting_value(form::TABLES, family, m);
    finishing::hash(m, &filled, &start, bytes, last, out)
}

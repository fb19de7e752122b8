// Begin, add, finish and the tag check.
ghost use Rattle.std.specs.Prelude.{◌≡◌, []};
ghost use Rattle.answers.specs.Handed.{made_if};
ghost use Rattle.keyed.specs.Running.{keyed_of};
ghost use Rattle.keyed.specs.Calls.{key_begin_answer, key_begin_of, key_add_of, key_finish_of, key_finish_buffer, key_check_of};

use crate::hashing::Hash;
use crate::{bytes, hashing};
use answers::{Handed, Refusal};
use keyed_state::Keyed;
use reports::Length;

// An answer, and the keyed state handed back.
pub type Step = Handed<(), Keyed>;

// What the tag covers, and the keyed state handed back.
pub type Finished = Handed<Length, Keyed>;

// Whether the tag is right, and the keyed state handed back.
pub type Compared = Handed<bool, Keyed>;

// The most bytes that a key may have.
pub const KEY_LIMIT: usize = 65535;

// The tests of begin, and the keyed state at the start.
fn begun(form: bool, m: u16, key: &[u8]) -> Result<Keyed, Refusal>
    ensures { result ≡ made_if (key_begin_answer m key.now) (keyed_of m key.now []) }
{
    if !keyed_state::is_tag_length(m) {
        return Err(Refusal::DigestLength);
    }
    if key.len() > KEY_LIMIT {
        return Err(Refusal::KeyLong);
    }
    let hash = Hash { form, m };
    let padded = hash.padded(key);
    let inner = hash.opened(padded);
    Ok(Keyed { inner, key: padded })
}

// Starts a tag of m bits under a key.
pub fn begin(form: bool, m: u16, key: &[u8]) -> Step
    ensures { result ≡ key_begin_of m key.now }
{
    Handed::of(begun(form, m, key), keyed_state::zero_keyed())
}

// Adds bytes to the message. The inner state covers the key's block too, so its own limit is the one to keep. What the digest's add hands back is put in its place at once: by a
// `Result` of the keyed state and `Handed::of`, as begin goes, the states are copied twice more.
pub fn add(form: bool, keyed: Keyed, bytes: &[u8]) -> Step
    ensures { result ≡ key_add_of keyed bytes.now }
{
    if !keyed_state::consistent(keyed) {
        return Handed {
            answer: Err(Refusal::StateInconsistent),
            state: keyed,
        };
    }
    let step = digest::add(form, keyed.inner, bytes);
    Handed {
        answer: step.answer,
        state: Keyed {
            inner: step.state,
            ..keyed
        },
    }
}

// The tests of finish, and the tag put to the buffer's front. Std has no `From` between usize and u64.
fn write(form: bool, keyed: Keyed, out: &mut [u8]) -> Result<Length, Refusal>
    ensures result { result ≡ (key_finish_of keyed out.old).answer }
    ensures buffer { out.new ≡ key_finish_buffer keyed out.old }
{
    if !keyed_state::consistent(keyed) {
        return Err(Refusal::StateInconsistent);
    }
    let size = bits::digest_bytes(keyed.inner.m);
    if out.len() < size {
        return Err(Refusal::BufferShort);
    }
    let tag = hashing::tag_of(form, keyed);
    fields::put_bytes(out, 0, fields::part(&tag, 0, size));
    let block = keyed.inner.family.block_bytes() as u64;
    Ok(Length(keyed.inner.covered.0 - block))
}

// Writes the tag of what a keyed state covers to the front of the buffer, m/8 bytes. The keyed state goes on unchanged.
#[tactic(auto, unfolding(crate::specs::Calls::key_finish_of))]
pub fn finish(form: bool, keyed: Keyed, out: &mut [u8]) -> Finished
    ensures result { result ≡ key_finish_of keyed out.old }
    ensures buffer { out.new ≡ key_finish_buffer keyed out.old }
{
    Handed {
        answer: write(form, keyed, out),
        state: keyed,
    }
}

// Whether a tag is the right one, past the tag check's test.
fn compare(form: bool, keyed: Keyed, tag: &[u8]) -> Result<bool, Refusal>
    ensures { result ≡ (key_check_of keyed tag.now).answer }
{
    if !keyed_state::consistent(keyed) {
        return Err(Refusal::StateInconsistent);
    }
    let size = bits::digest_bytes(keyed.inner.m);
    let right = hashing::tag_of(form, keyed);
    Ok(bytes::alike(fields::part(&right, 0, size), tag))
}

// Whether a tag is the right one for what a keyed state covers. The keyed state goes on unchanged.
#[tactic(auto, unfolding(crate::specs::Calls::key_check_of))]
pub fn check(form: bool, keyed: Keyed, tag: &[u8]) -> Compared
    ensures { result ≡ key_check_of keyed tag.now }
{
    Handed {
        answer: compare(form, keyed, tag),
        state: keyed,
    }
}

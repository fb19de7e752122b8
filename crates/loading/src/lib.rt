// Loading a saved form: it is read front to back, with an answer a section, of which the first refusal counts.
#![tactic(auto)]

ghost use Rattle.std.specs.Prelude.{◌≡◌, ◌*◌, ◌≤◌};
ghost use Rattle.answers.specs.Refusal.{judged};
ghost use Rattle.family.specs.Family.{chain_words, salt_bytes};
ghost use Rattle.fields.specs.Fields.{number_in};
ghost use Rattle.state.specs.Bytes.{fill};
ghost use Rattle.answers.specs.Handed.{made_if};
ghost use Rattle.saved_form.specs.Form.{salt_words, salt_place, chain_place, covered_place};
ghost use Rattle.loading.specs.Reading.{family_in, covered_in, rest_in, words_in, section_tests, family_tests, end_tests, form_tests, state_in};
ghost use Rattle.loading.specs.Calls.{load_answer, load_of};

use answers::{Handed, Refusal};
use digest::Step;
use family::Family;
use reports::Length;
use state::State;

// The section whose count stands at `at`: the count that it must have, and the bytes behind it. The bounds, here and below, only keep sums from wrapping.
fn section(form: &[u8], at: usize, count: usize, size: usize) -> Result<(), Refusal>
    requires { (at ≤ 1024) × (size ≤ 128) }
    ensures { result ≡ judged (section_tests form.now at count size) }
{
    if form.len() < at + 2 {
        return Err(Refusal::FormExtent);
    }
    if fields::number_at(form, at) != count {
        return Err(Refusal::FormCount);
    }
    if form.len() < at + 2 + size {
        return Err(Refusal::FormExtent);
    }
    Ok(())
}

fn known_family(form: &[u8]) -> Result<(), Refusal>
    ensures { result ≡ judged (family_tests form.now) }
{
    if 1 < fields::number_at(form, 2) {
        return Err(Refusal::FormCount);
    }
    Ok(())
}

fn salt_section(form: &[u8], family: Family) -> Result<(), Refusal>
    ensures { result ≡ judged (section_tests form.now salt_place (salt_words family) (salt_bytes family)) }
{
    let size = family.salt_bytes();
    section(form, saved_form::SALT_PLACE, size / 4, size)
}

fn chain_section(form: &[u8], family: Family) -> Result<(), Refusal>
    ensures { result ≡ judged (section_tests form.now (chain_place family) (chain_words family) (4 * chain_words family)) }
{
    let at = saved_form::chain_place(family);
    let count = family.chain_words();
    section(form, at, count, 4 * count)
}

fn covered_section(form: &[u8], family: Family) -> Result<(), Refusal>
    ensures { result ≡ judged (section_tests form.now (covered_place family) 1 8) }
{
    let at = saved_form::covered_place(family);
    section(form, at, 1, 8)
}

// Nothing follows the held bytes.
fn ended(form: &[u8], end: usize) -> Result<(), Refusal>
    ensures { result ≡ judged (end_tests form.now end) }
{
    if end < form.len() {
        return Err(Refusal::FormExtent);
    }
    Ok(())
}

fn family_in(form: &[u8]) -> Family
    ensures { result ≡ family_in form.now }
{
    if fields::number_at(form, 2) == 0 {
        Family::Small
    } else {
        Family::Large
    }
}

// A number of `count` bytes, its high byte, the last, taken first. Std has no `From` between usize and u64.
fn number_in(form: &[u8], at: usize, count: usize) -> u64
    requires { (at ≤ 1024) × (count ≤ 8) }
    ensures { result ≡ number_in count form.now at }
{
    let mut value = 0;
    for i in (0..count).rev() {
        value = 256 * value + fields::byte_at(form, at + i) as u64;
    }
    value
}

fn covered_in(form: &[u8]) -> u64
    ensures { result ≡ covered_in form.now }
{
    let at = saved_form::covered_place(family_in(form));
    number_in(form, at + 2, 8)
}

// The count of held bytes that goes with the bytes covered.
#[tactic(auto, unfolding(crate::specs::Reading::rest_in))]
fn rest_in(form: &[u8]) -> usize
    ensures { result ≡ rest_in form.now }
{
    state::held_bytes(family_in(form), Length(covered_in(form)))
}

// What the sections are refused for, if anything: the first refusal ends the reading.
fn shape(form: &[u8]) -> Result<(), Refusal>
    ensures { result ≡ judged (form_tests form.now) }
{
    let family = family_in(form);
    let rest = rest_in(form);
    let at = saved_form::held_place(family);
    section(form, 0, 2, 4)?;
    known_family(form)?;
    salt_section(form, family)?;
    chain_section(form, family)?;
    covered_section(form, family)?;
    section(form, at, rest, rest)?;
    ended(form, at + 2 + rest)
}

// `count` words of 4 bytes, with zeros up to 16.
fn chain_in(form: &[u8], at: usize, count: usize) -> [u32; 16]
    requires { (at ≤ 512) × (count ≤ 16) }
    ensures { result ≡ fill 16 (words_in count form.now at) }
{
    let mut chain = [0u32; 16];
    for j in 0..count {
        chain[j] = number_in(form, at + 4 * j, 4) as u32;
    }
    chain
}

// The state that a form holds, whether the form is whole or not.
fn state_in(form: &[u8]) -> State
    ensures { result ≡ state_in form.now }
{
    let family = family_in(form);
    let m = fields::number_at(form, 4) as u16;
    let salt = fields::filled(fields::part(form, saved_form::SALT_PLACE + 2, family.salt_bytes()));
    let chain = chain_in(
        form,
        saved_form::chain_place(family) + 2,
        family.chain_words(),
    );
    let covered = covered_in(form);
    let held = fields::filled(fields::part(
        form,
        saved_form::held_place(family) + 2,
        rest_in(form),
    ));
    State {
        family,
        m,
        salt,
        chain,
        covered: Length(covered),
        compressed: covered / family.block_bytes() as u64,
        held,
    }
}

// The tests of load, and the state that the form holds.
fn loaded(form: &[u8]) -> Result<State, Refusal>
    ensures { result ≡ made_if (load_answer form.now) (state_in form.now) }
{
    shape(form)?;
    let state = state_in(form);
    if !state::consistent(state) {
        return Err(Refusal::StateInconsistent);
    }
    Ok(state)
}

// Reads a saved form. A refusal hands back the all-zero state of the small family.
pub fn load(form: &[u8]) -> Step
    ensures { result ≡ load_of form.now }
{
    Handed::of(loaded(form), state::zero_state())
}

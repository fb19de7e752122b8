// Saving a running state: its form is written to a lent buffer, a section at a time.
#![tactic(auto)]

ghost use Rattle.std.specs.Prelude.{◌≡◌, length};
ghost use Rattle.std.proofs.lemmas.List.Edits.{sets};
ghost use Rattle.saved_form.specs.Sized.{Sized};
ghost use Rattle.saved_form.specs.Form.{parameter_section, salt_section, chain_section, covered_section, held_section, form_of, salt_place, chain_place, covered_place, held_place};
ghost use Rattle.saving.specs.Calls.{save_of, save_buffer};

use answers::{Handed, Refusal};
use family::Family;
use reports::Length;
use state::State;

// How many bytes were written, or a refusal; and the state handed back.
pub type Saved = Handed<usize, State>;

// Std has no `From` between usize and u64, so the casts of a count, here and below, stay `as`.
fn put_parameters(out: &mut [u8], family: Family, m: u16)
    ensures { out.new ≡ sets out.old 0 (parameter_section family m) }
{
    fields::put_number(out, 0, 2, 2);
    fields::put_number(out, 2, 2, family.number() as u64);
    fields::put_number(out, 4, 2, u64::from(m));
}

fn put_salt(out: &mut [u8], family: Family, salt: [u8; 64])
    ensures { out.new ≡ sets out.old salt_place (salt_section family salt) }
{
    let count = family.salt_bytes();
    fields::put_number(out, saved_form::SALT_PLACE, 2, (count / 4) as u64);
    fields::put_bytes(
        out,
        saved_form::SALT_PLACE + 2,
        fields::part(&salt, 0, count),
    );
}

fn put_chain(out: &mut [u8], family: Family, chain: [u32; 16])
    ensures { out.new ≡ sets out.old (chain_place family) (chain_section family chain) }
{
    let at = saved_form::chain_place(family);
    let count = family.chain_words();
    fields::put_number(out, at, 2, count as u64);
    fields::put_words(out, at + 2, &chain[..count]);
}

fn put_covered(out: &mut [u8], family: Family, covered: Length)
    ensures { out.new ≡ sets out.old (covered_place family) (covered_section covered.0) }
{
    let at = saved_form::covered_place(family);
    fields::put_number(out, at, 2, 1);
    fields::put_number(out, at + 2, 8, covered.0);
}

fn put_held(out: &mut [u8], family: Family, held: [u8; 128], rest: usize)
    ensures { out.new ≡ sets out.old (held_place family) (held_section rest held) }
{
    let at = saved_form::held_place(family);
    fields::put_number(out, at, 2, rest as u64);
    fields::put_bytes(out, at + 2, fields::part(&held, 0, rest));
}

fn form_bytes(state: State) -> usize
    requires { Sized state }
    ensures { result ≡ length (form_of state) }
{
    saved_form::held_place(state.family) + 2 + state::held_bytes(state.family, state.covered)
}

// The whole form at the buffer's front.
fn put_form(state: State, out: &mut [u8])
    requires { Sized state }
    ensures { out.new ≡ sets out.old 0 (form_of state) }
{
    put_parameters(out, state.family, state.m);
    put_salt(out, state.family, state.salt);
    put_chain(out, state.family, state.chain);
    put_covered(out, state.family, state.covered);
    put_held(
        out,
        state.family,
        state.held,
        state::held_bytes(state.family, state.covered),
    );
}

// The tests of save, and the form of a state at the buffer's front.
fn write(state: State, out: &mut [u8]) -> Result<usize, Refusal>
    ensures result { result ≡ (save_of state out.old).answer }
    ensures buffer { out.new ≡ save_buffer state out.old }
{
    if !state::consistent(state) {
        return Err(Refusal::StateInconsistent);
    }
    let size = form_bytes(state);
    if out.len() < size {
        return Err(Refusal::BufferShort);
    }
    put_form(state, out);
    Ok(size)
}

// Writes the saved form of a state to the buffer's front. The state goes on unchanged.
#[tactic(auto, unfolding(crate::specs::Calls::save_of))]
pub fn save(state: State, out: &mut [u8]) -> Saved
    ensures result { result ≡ save_of state out.old }
    ensures buffer { out.new ≡ save_buffer state out.old }
{
    let answer = write(state, out);
    Handed { answer, state }
}

// The keyed state, and when it is consistent.
#![tactic(auto)]

ghost use Rattle.std.specs.Prelude.{◌≡◌};
ghost use Rattle.keyed_state.specs.Keyed.{tag_length, keyed_consistent, zero_keyed};

use state::State;

// The inner running state, and the key padded to a block, zero past it.
#[derive(Clone, Copy)]
pub struct Keyed {
    pub inner: State,
    pub key: [u8; 128],
}

// Whether a tag can have m bits.
#[tactic(auto, unfolding(crate::specs::Keyed::tag_length))]
pub fn is_tag_length(m: u16) -> bool
    ensures { result ≡ tag_length m }
{
    m % 8 == 0 && state::is_allowed(m)
}

// Whether a keyed state follows document 02's rule; add, finish and check refuse any other. Std has no `From` between usize and u64.
#[tactic(auto, unfolding(crate::specs::Keyed::keyed_consistent))]
pub fn consistent(keyed: Keyed) -> bool
    ensures { result ≡ keyed_consistent keyed }
{
    let size = keyed.inner.family.block_bytes();
    state::consistent(keyed.inner)
        && keyed.inner.m % 8 == 0
        && state::zero_from(&keyed.inner.salt, 0)
        && size as u64 <= keyed.inner.covered.0
        && state::zero_from(&keyed.key, size)
}

// What a refused begin hands back: the all-zero keyed state.
#[tactic(auto, unfolding(crate::specs::Keyed::zero_keyed))]
pub fn zero_keyed() -> Keyed
    ensures { result ≡ zero_keyed }
{
    Keyed {
        inner: state::zero_state(),
        key: [0u8; 128],
    }
}

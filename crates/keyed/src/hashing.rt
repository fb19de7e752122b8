// The steps of FIPS 198-1 by the calls of the digest.
ghost use Rattle.std.specs.Prelude.{◌≡◌, true, [], ◌++◌, ◌+◌, ◌≤◌, length, take};
ghost use Rattle.state.specs.Bytes.{fill};
ghost use Rattle.state.specs.State.{limit, allowed};
ghost use Rattle.digest.specs.Running.{state_of};
ghost use Rattle.keyed_state.specs.Keyed.{keyed_consistent};
ghost use Rattle.keyed.specs.Hmac.{B, h_of, ipad, ◌⊕◌, K0};
ghost use Rattle.keyed.specs.Running.{state_tag};

use crate::bytes;
use bits::LastBits;
use family::Family;
use keyed_state::Keyed;
use state::State;

// The bytes of the inner and of the outer pad.
const IPAD: u8 = 0x36;

const OPAD: u8 = 0x5c;

// H of FIPS 198-1: the digest of m bits under the zero salt, in the form of the round that the caller names.
#[derive(Clone, Copy)]
pub(crate) struct Hash {
    pub(crate) form: bool,
    pub(crate) m: u16,
    ghost known: { allowed m ≡ true },
}

impl Hash {
    // H of two parts joined, zeros behind it.
    fn joined(self, first: &[u8], second: &[u8]) -> [u8; 64]
        requires { length first.now + length second.now ≤ limit }
        ensures { result ≡ fill 64 (h_of self.m (first.now ++ second.now)) }
    {
        let begun = digest::begin(self.form, self.m, b"");
        let one = digest::add(self.form, begun.state, first);
        let two = digest::add(self.form, one.state, second);
        let mut out = [0u8; 64];
        digest::finish(self.form, two.state, LastBits::none(), &mut out);
        out
    }

    // K0, zeros behind it.
    pub(crate) fn padded(self, key: &[u8]) -> [u8; 128]
        requires { length key.now ≤ limit }
        ensures { result ≡ fill 128 (K0 self.m key.now) }
    {
        if key.len() > Family::of(self.m).block_bytes() {
            return fields::filled(&self.joined(key, b""));
        }
        fields::filled(key)
    }

    // The inner state that has taken in K0 xored with ipad.
    pub(crate) fn opened(self, key: [u8; 128]) -> State
        ensures { result ≡ state_of self.m [] (take (B self.m) key ⊕ ipad (B self.m)) }
    {
        let begun = digest::begin(self.form, self.m, b"");
        let block = bytes::xored(key, IPAD);
        let size = Family::of(self.m).block_bytes();
        let step = digest::add(self.form, begun.state, fields::part(&block, 0, size));
        step.state
    }
}

// The tag of a consistent keyed state, zeros behind it.
pub(crate) fn tag_of(form: bool, keyed: Keyed) -> [u8; 64]
    requires { keyed_consistent keyed ≡ true }
    ensures { result ≡ fill 64 (state_tag keyed) }
{
    let m = keyed.inner.m;
    let mut digest = [0u8; 64];
    digest::finish(form, keyed.inner, LastBits::none(), &mut digest);
    let block = bytes::xored(keyed.key, OPAD);
    let size = keyed.inner.family.block_bytes();
    Hash { form, m }.joined(
        fields::part(&block, 0, size),
        fields::part(&digest, 0, bits::digest_bytes(m)),
    )
}

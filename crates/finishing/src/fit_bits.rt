// Last bits that fit.
ghost use Rattle.std.specs.Prelude.{◌≡◌, true, ◌+◌, ◌*◌, ◌≤◌, ◌<◌, set};
ghost use Rattle.bits.specs.Bits.{last_fits, marked};
ghost use Rattle.state.specs.State.{limit};

use bits::LastBits;
use reports::Length;

#[derive(Clone, Copy)]
pub(crate) struct FitBits {
    pub(crate) bits: LastBits,
    ghost fit: { last_fits bits ≡ true },
}

impl FitBits {
    // The bits of whole bytes and of these behind them.
    pub(crate) fn behind(self, covered: Length) -> u64
        requires { covered.0 ≤ limit }
        ensures { result ≡ 8 * covered.0 + self.bits.count }
    {
        8 * covered.0 + u64::from(self.bits.count)
    }

    // The held block with these and the 1 bit behind its bytes.
    pub(crate) fn put(self, held: [u8; 128], rest: usize) -> [u8; 128]
        requires { rest < 128 }
        ensures { result ≡ set held rest (marked self.bits) }
    {
        let mut block = held;
        block[rest] = self.bits.mark() as u8;
        block
    }
}

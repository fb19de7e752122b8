// Bits of a byte, most significant first: the last bits of a message, the 1 bit behind them, and a digest's broken last byte.
#![tactic(auto)]

ghost use Rattle.std.specs.Prelude.{◌≡◌};
ghost use Rattle.bits.specs.Bits.{weight, high_bits, no_bits, last_fits, marked, digest_bytes, kept};

// The bits of a message behind its whole bytes: so many of the byte's first ones.
#[derive(Clone, Copy)]
pub struct LastBits {
    pub byte: u8,
    pub count: u8,
}

// The weight of a byte's bit of that number, from 1 on; 256 for 0.
fn weight_of(number: u32) -> u16
    ensures { result ≡ weight number }
{
    1u16 << 8u32.saturating_sub(number)
}

// The first bits of a byte; the others become zero.
#[tactic(auto, unfolding(crate::specs::Bits::high_bits))]
fn high_bits(byte: u8, count: u32) -> u8
    ensures { result ≡ high_bits count byte }
{
    let unused = u16::from(byte) % weight_of(count);
    byte - unused as u8
}

impl LastBits {
    // A message of whole bytes has none.
    #[tactic(auto, unfolding(crate::specs::Bits::no_bits))]
    pub fn none() -> LastBits
        ensures { result ≡ no_bits }
    {
        LastBits { byte: 0, count: 0 }
    }

    // Whether they are at most 7, and the byte's other bits zero.
    #[tactic(auto, unfolding(crate::specs::Bits::last_fits))]
    pub fn fits(self) -> bool
        ensures { result ≡ last_fits self }
    {
        self.count <= 7 && u16::from(self.byte) % weight_of(u32::from(self.count)) == 0
    }

    // The byte with a 1 bit behind them. It is a byte again where they fit.
    #[tactic(auto, unfolding(crate::specs::Bits::marked))]
    pub fn mark(self) -> u16
        ensures { result ≡ marked self }
    {
        let count = u32::from(self.count);
        u16::from(self.byte) + weight_of(count + 1)
    }
}

// How many bytes a digest of m bits has.
pub fn digest_bytes(m: u16) -> usize
    ensures { result ≡ digest_bytes m }
{
    usize::from(m).div_ceil(8)
}

// Clears what a digest of m bits does not use of its last byte.
#[tactic(auto, unfolding(crate::specs::Bits::kept))]
pub fn keep(bytes: [u8; 64], m: u16) -> [u8; 64]
    ensures { result ≡ kept m bytes }
{
    let at = usize::from(m / 8);
    let mut kept = bytes;
    if at < kept.len() {
        kept[at] = high_bits(kept[at], u32::from(m % 8));
    }
    kept
}

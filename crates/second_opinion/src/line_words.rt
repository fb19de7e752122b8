// A line and its words, which single spaces separate. Two spaces together make an empty word, which nothing can read.
use crate::parse;
use bits::LastBits;
use family::Family;

// What a word spells is none where it is not as the format has it. Words are counted from 0.
#[derive(Clone, Copy)]
pub(crate) struct Line<'a>(pub(crate) &'a [u8]);

impl<'a> Line<'a> {
    // Empty where there are fewer words.
    pub(crate) fn word(self, k: usize) -> &'a [u8] {
        self.0.split(|b| *b == b' ').nth(k).unwrap_or(b"")
    }

    // How many words follow the first.
    pub(crate) fn arguments(self) -> usize {
        self.0.iter().filter(|b| **b == b' ').count()
    }

    // A byte string, put at the start of `out`.
    pub(crate) fn bytes<'b>(self, k: usize, out: &'b mut [u8]) -> Option<&'b mut [u8]> {
        parse::bytes(self.word(k), out)
    }

    // A byte string of N bytes.
    pub(crate) fn array<const N: usize>(self, k: usize) -> Option<[u8; N]> {
        let mut out = [0u8; N];
        if self.bytes(k, &mut out)?.len() != N {
            return None;
        }
        Some(out)
    }

    // A byte string of N times four bytes.
    pub(crate) fn fours<const N: usize>(self, k: usize) -> Option<[[u8; 4]; N]> {
        let mut out = [[0u8; 4]; N];
        let flat = out.as_flattened_mut();
        let size = flat.len();
        if self.bytes(k, flat)?.len() != size {
            return None;
        }
        Some(out)
    }

    pub(crate) fn number(self, k: usize) -> Option<u64> {
        parse::number(self.word(k))
    }

    // A digest length in bits, allowed or not.
    pub(crate) fn digest_bits(self, k: usize) -> Option<u16> {
        u16::try_from(self.number(k)?).ok()
    }

    // The last bits of a message: one byte, and a number up to 255 in the word behind it.
    pub(crate) fn last_bits(self, byte: usize, count: usize) -> Option<LastBits> {
        let [byte] = self.array::<1>(byte)?;
        let count = u8::try_from(self.number(count)?).ok()?;
        Some(LastBits { byte, count })
    }

    // By a match, as the format has it: 0 and 1 are the families' numbers, and any other number is none.
    pub(crate) fn family(self, k: usize) -> Option<Family> {
        match self.number(k)? {
            0 => Some(Family::Small),
            1 => Some(Family::Large),
            _ => None,
        }
    }
}

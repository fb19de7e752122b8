// The parts of a message's end, each for itself: the counter of its last block, whether one block is enough, the two lengths at a block's end; and the
// digest put out.
#![tactic(auto)]

ghost use Rattle.std.specs.Prelude.{◌≡◌, cond, ◌++◌, eqb, leb};
ghost use Rattle.std.proofs.lemmas.List.Edits.{sets};
ghost use Rattle.family.specs.Family.{pad_limit, length_place, length_bytes};
ghost use Rattle.bits.specs.Bits.{first_bits};
ghost use Rattle.fields.specs.Fields.{le, bytes_of};

use family::Family;

// The counter of the only last block, which has so many bits of rest: 0 where it holds padding only.
pub fn last_counter(rest: u64, bits: u64) -> u64
    ensures { result ≡ cond (eqb rest 0) 0 bits }
{
    if rest == 0 { 0 } else { bits }
}

// Whether the length and m fit into the block behind so many bits of rest and the 1 bit. Std has no `From` between usize and u64.
pub fn ends_in_one(family: Family, rest: u64) -> bool
    ensures { result ≡ leb rest (pad_limit family) }
{
    rest <= family.pad_limit() as u64
}

// `count` bytes of `value` at `at`, the low one first.
fn put_le(block: [u8; 128], at: usize, value: u64, count: usize) -> [u8; 128]
    ensures { result ≡ sets block at (le count value) }
{
    let mut b = block;
    fields::put_number(&mut b, at, count, value);
    b
}

// Puts the message length in bits and m at a block's end.
#[tactic(auto, using(crate::proofs::Stores::length_stored, family::proofs::Sizes::block_max, family::proofs::Sizes::sizes))]
pub fn with_length(block: [u8; 128], family: Family, bits: u64, m: u16) -> [u8; 128]
    ensures { result ≡ sets block (length_place family) (le (length_bytes family) bits ++ le 2 m) }
{
    let at = family.length_place();
    let field = family.length_bytes();
    let first = put_le(block, at, bits, field);
    put_le(first, at + field, u64::from(m), 2)
}

// The bytes of a chain.
#[tactic(auto, using(crate::proofs::Stores::spelled))]
fn spell(chain: [u32; 16]) -> [u8; 64]
    ensures { result ≡ bytes_of chain }
{
    let mut b = [0u8; 64];
    fields::put_words(&mut b, 0, &chain);
    b
}

// Puts the first m bits of a chain at the front of a buffer, as far as there is room; the rest of the buffer stays.
#[tactic(auto, unfolding(bits::specs::Bits::first_bits))]
pub fn put_digest(chain: [u32; 16], m: u16, out: &mut [u8])
    ensures { out.new ≡ sets out.old 0 (first_bits m (bytes_of chain)) }
{
    let kept = bits::keep(spell(chain), m);
    fields::put_bytes(out, 0, fields::part(&kept, 0, bits::digest_bytes(m)));
}

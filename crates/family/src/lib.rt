// The two families, and their numbers: document 01's table, named here and nowhere else.
#![tactic(auto)]

ghost use Rattle.std.specs.Prelude.{◌≡◌};
ghost use Rattle.family.specs.Family.{family_of, family_number, block_bytes, chain_words, salt_bytes, length_bytes, pad_limit, length_place, block_words, near_distance, salt_quads, runs};

#[derive(Clone, Copy)]
pub enum Family {
    Small,
    Large,
}

// The column "up to 256 bits": 256 is the longest digest. The numbers are the type's own and no trait's: a family is a value at run time, as in a state, so that
// a match between the two columns is needed in any case, and a trait would be a third list of them.
#[derive(Clone, Copy)]
pub struct SmallFamily;

impl SmallFamily {
    pub const DIGEST_BITS: u16 = 256;

    pub const BLOCK_BYTES: usize = 64;

    pub const CHAIN_WORDS: usize = 8;

    pub const SALT_BYTES: usize = 32;

    pub const ROUNDS: usize = 12;

    pub const EXPANDED_WORDS: usize = 144;

    pub const LENGTH_BYTES: usize = 8;

    pub const PAD_LIMIT: usize = 431;

    pub const LENGTH_PLACE: usize = (SmallFamily::PAD_LIMIT + 1) / 8;

    pub const BLOCK_WORDS: usize = 16;

    pub const NEAR_DISTANCE: usize = 3;

    pub const SALT_QUADS: usize = 2;

    pub const RUNS: usize = 8;
}

// The column up to 512 bits, from 257 on.
#[derive(Clone, Copy)]
pub struct LargeFamily;

impl LargeFamily {
    pub const DIGEST_BITS: u16 = 512;

    pub const BLOCK_BYTES: usize = 128;

    pub const CHAIN_WORDS: usize = 16;

    pub const SALT_BYTES: usize = 64;

    pub const ROUNDS: usize = 14;

    pub const EXPANDED_WORDS: usize = 448;

    pub const LENGTH_BYTES: usize = 16;

    pub const PAD_LIMIT: usize = 879;

    pub const LENGTH_PLACE: usize = (LargeFamily::PAD_LIMIT + 1) / 8;

    pub const BLOCK_WORDS: usize = 32;

    pub const NEAR_DISTANCE: usize = 7;

    pub const SALT_QUADS: usize = 4;

    pub const RUNS: usize = 13;
}

// The number of that name in the family's column.
macro_rules! of_family {
    ($family:expr, $number:ident) => {
        match $family {
            Family::Small => SmallFamily::$number,
            Family::Large => LargeFamily::$number,
        }
    };
}

impl Family {
    // The family of a digest length, allowed or not: the border is the small family's longest digest.
    #[tactic(auto, unfolding(crate::specs::Family::family_of))]
    pub fn of(m: u16) -> Family
        ensures { result ≡ family_of m }
    {
        if m <= SmallFamily::DIGEST_BITS {
            Family::Small
        } else {
            Family::Large
        }
    }

    // The number that stands for the family in a saved form: the definition's, which the forms already written keep.
    pub fn number(self) -> usize
        ensures { result ≡ family_number self }
    {
        match self {
            Family::Small => 0,
            Family::Large => 1,
        }
    }

    pub fn block_bytes(self) -> usize
        ensures { result ≡ block_bytes self }
    {
        of_family!(self, BLOCK_BYTES)
    }

    pub fn chain_words(self) -> usize
        ensures { result ≡ chain_words self }
    {
        of_family!(self, CHAIN_WORDS)
    }

    pub fn salt_bytes(self) -> usize
        ensures { result ≡ salt_bytes self }
    {
        of_family!(self, SALT_BYTES)
    }

    pub fn length_bytes(self) -> usize
        ensures { result ≡ length_bytes self }
    {
        of_family!(self, LENGTH_BYTES)
    }

    // The most bits of rest that are padded in one block.
    pub fn pad_limit(self) -> usize
        ensures { result ≡ pad_limit self }
    {
        of_family!(self, PAD_LIMIT)
    }

    // Where the length stands in a last block: behind a rest at the limit and its 1 bit.
    pub fn length_place(self) -> usize
        ensures { result ≡ length_place self }
    {
        of_family!(self, LENGTH_PLACE)
    }

    pub fn block_words(self) -> usize
        ensures { result ≡ block_words self }
    {
        of_family!(self, BLOCK_WORDS)
    }

    pub fn near_distance(self) -> usize
        ensures { result ≡ near_distance self }
    {
        of_family!(self, NEAR_DISTANCE)
    }

    pub fn salt_quads(self) -> usize
        ensures { result ≡ salt_quads self }
    {
        of_family!(self, SALT_QUADS)
    }

    pub fn runs(self) -> usize
        ensures { result ≡ runs self }
    {
        of_family!(self, RUNS)
    }
}

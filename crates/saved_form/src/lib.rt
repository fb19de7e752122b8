// The saved form of a running state: where its sections stand, by the family, and how long it is. The first count is at 0.
#![tactic(auto)]

ghost use Rattle.std.specs.Prelude.{◌≡◌};
ghost use Rattle.saved_form.specs.Form.{chain_place, covered_place, held_place, longest_form};

use family::Family;

// The salt's count, behind the parameters.
pub const SALT_PLACE: usize = 6;

// The longest form of the small family, and of either.
const SMALL_LONGEST: usize = 149;

pub const LONGEST: usize = 277;

// The chain's count.
pub fn chain_place(family: Family) -> usize
    ensures { result ≡ chain_place family }
{
    SALT_PLACE + 2 + family.salt_bytes()
}

// The count in front of the bytes covered.
pub fn covered_place(family: Family) -> usize
    ensures { result ≡ covered_place family }
{
    chain_place(family) + 2 + 4 * family.chain_words()
}

// The held bytes' count.
pub fn held_place(family: Family) -> usize
    ensures { result ≡ held_place family }
{
    covered_place(family) + 2 + 8
}

// How many bytes a family's forms have at most: a buffer of so many is never too short for one.
pub fn longest(family: Family) -> usize
    ensures { result ≡ longest_form family }
{
    match family {
        Family::Small => SMALL_LONGEST,
        Family::Large => LONGEST,
    }
}

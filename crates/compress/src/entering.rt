// Where the counter enters the expansion, for both families.
ghost use Rattle.std.specs.Prelude.{◌≡◌};
ghost use Rattle.compress.specs.Expansion.{entered_of};

use counter::Counter;
use family::Family;

// Four words, made for the places from i on, with what enters there of the counter. No group begins at another i than a multiple of 4.
#[tactic(auto, unfolding(crate::specs::Expansion::entered_of, crate::specs::Expansion::counts_of, crate::specs::Expansion::enters, crate::specs::Expansion::places))]
pub fn entered(family: Family, i: usize, c: Counter, x: [u32; 4]) -> [u32; 4]
    ensures { result ≡ entered_of family c i x }
{
    match family {
        Family::Small => match i {
            16 => words::xored(x, [c.0, c.1 ^ 0xFFFF_FFFF, 0, 0]),
            56 => words::xored(x, [0, c.1, c.0 ^ 0xFFFF_FFFF, 0]),
            84 => words::xored(x, [0, 0, c.1, c.0 ^ 0xFFFF_FFFF]),
            124 => words::xored(x, [c.0, 0, 0, c.1 ^ 0xFFFF_FFFF]),
            _ => x,
        },
        Family::Large => match i {
            32 => words::xored(x, [c.0, c.1, c.2, c.3 ^ 0xFFFF_FFFF]),
            164 => words::xored(x, [c.3, c.2, c.1, c.0 ^ 0xFFFF_FFFF]),
            316 => words::xored(x, [c.2, c.3, c.0, c.1 ^ 0xFFFF_FFFF]),
            440 => words::xored(x, [c.1, c.0, c.3, c.2 ^ 0xFFFF_FFFF]),
            _ => x,
        },
    }
}

// The start-up calls: the master value, and the starting value of a digest length. What source 003 prints is not computed.
#![tactic(auto)]

ghost use Rattle.std.specs.Prelude.{◌≡◌};
ghost use Rattle.startup.specs.Startup.{master_of, start_of};

use family::Family;

// Source 003's master values and tables 2 and 3, as `startup` has them; a small chain has eight words, and zeros behind them.
const MASTER_SMALL: [u32; 16] = [
    0xaccf8f80, 0x96589e66, 0x43361e2f, 0xecc26b0f, 0xd74affa7, 0xfeda3472, 0xfaec19ea, 0xee4c3008,
    0, 0, 0, 0, 0, 0, 0, 0,
];

const MASTER_LARGE: [u32; 16] = [
    0xf0c11673, 0x6f0196f5, 0xeccbd1ea, 0xa6c59471, 0x44ac3847, 0x3bc53cb3, 0xad11af21, 0x4529bc86,
    0x0f2cfba2, 0xc73c31b7, 0xb095486e, 0x264a9d3f, 0x73b16228, 0x6ff3790a, 0xe03124cd, 0xf1320a9f,
];

const START_160: [u32; 16] = [
    0xe9e6c691, 0x3da59359, 0x8faebdbb, 0x1b797f0b, 0x55712abd, 0xf639ee21, 0xfde027ce, 0x8891ec2f,
    0, 0, 0, 0, 0, 0, 0, 0,
];

const START_224: [u32; 16] = [
    0xc4c67795, 0xc0b1817f, 0xead88924, 0x1abb1bb0, 0xe0c29152, 0xbde046ba, 0xaeeecf99, 0x58d509d8,
    0, 0, 0, 0, 0, 0, 0, 0,
];

const START_256: [u32; 16] = [
    0x3eecf551, 0xbf10819b, 0xe6dc8559, 0xf3e23fd5, 0x431aec73, 0x79e3f731, 0x98325f05, 0xa92a31f1,
    0, 0, 0, 0, 0, 0, 0, 0,
];

const START_384: [u32; 16] = [
    0x71f48510, 0xa903a8ac, 0xfe3216dd, 0x0b2d2ad4, 0x6672900a, 0x41032819, 0x15a7d780, 0xb3cab8d9,
    0x34ef4711, 0xde019fe8, 0x4d674dc4, 0xe056d96b, 0xa35c016b, 0xdd903ba7, 0x8c1b09b4, 0x2c3e9f25,
];

const START_512: [u32; 16] = [
    0xd5652b63, 0x25f1e6ea, 0xb18f48fa, 0xa1ee3a47, 0xc8b67b07, 0xbdce48d3, 0xe3937b78, 0x05db5186,
    0x613be326, 0xa11fa303, 0x90c833d4, 0x79cee316, 0x1e1af00f, 0x2829b165, 0x23b25f80, 0x21e11499,
];

pub fn master_value(family: Family) -> [u32; 16]
    ensures { result ≡ master_of family }
{
    match family {
        Family::Small => MASTER_SMALL,
        Family::Large => MASTER_LARGE,
    }
}

// The starting value of a length that the source does not print.
fn compressed(form: bool, family: Family, m: u16) -> [u32; 16]
    ensures { result ≡ start_of family m }
{
    let mut block = [0u8; 128];
    block[..2].copy_from_slice(&m.to_le_bytes());
    let mut chain = master_value(family);
    chaining::start(form, family, &mut chain, &block);
    chain
}

// The starting value for m bits.
pub fn starting_value(form: bool, family: Family, m: u16) -> [u32; 16]
    ensures { result ≡ start_of family m }
{
    match (family, m) {
        (Family::Small, 160) => START_160,
        (Family::Small, 224) => START_224,
        (Family::Small, 256) => START_256,
        (Family::Large, 384) => START_384,
        (Family::Large, 512) => START_512,
        _ => compressed(form, family, m),
    }
}

// Bytes spelled in hex, read.
#![tactic(auto)]

ghost use Rattle.std.specs.Prelude.{◌≡◌, true, ◌++◌, ◌*◌, ◌/◌, ◌≤◌, length, drop};
ghost use Rattle.hex_bytes.specs.Hex.{digit_value, digits, pairs, is_hex, decode_of, decode_buffer};

use std::error::Error;
use std::fmt;

// Not hex, two digits a byte; or more bytes than there is room for.
#[derive(Clone, Copy, Debug, PartialEq, Eq)]
pub enum HexError {
    NotHex,
    NoRoom,
}

impl fmt::Display for HexError {
    fn fmt<W: fmt::Write>(&self, f: &mut fmt::Formatter<W>) -> fmt::Result {
        match self {
            HexError::NotHex => write!(f, "not hex digits, two a byte"),
            HexError::NoRoom => write!(f, "more bytes than there is room for"),
        }
    }
}

impl Error for HexError {}

// A digit's value, and 16 for any other character, as the definition has it. By cases and not by `to_digit`: the wrong build `upper_case_one_more` changes one
// arm.
#[tactic(auto, unfolding(crate::specs::Hex::digit_value))]
fn digit(b: u8) -> u8
    ensures { result ≡ digit_value b }
{
    match b {
        b'0'..=b'9' => b - b'0',
        b'a'..=b'f' => b - b'a' + 10,
        b'A'..=b'F' => b - b'A' + 10,
        _ => 16,
    }
}

fn all_digits(text: &[u8]) -> bool
    ensures { result ≡ digits text.now }
{
    text.iter().all(|b| digit(*b) < 16)
}

#[tactic(auto, unfolding(crate::specs::Hex::is_hex))]
fn is_hex(text: &[u8]) -> bool
    ensures { result ≡ is_hex text.now }
{
    text.len() % 2 == 0 && all_digits(text)
}

// The bytes of `count` pairs of digits, at the buffer's front.
fn put_pairs(text: &[u8], count: usize, out: &mut [u8])
    requires { (digits text.now ≡ true) × (2 * count ≤ length text.now) × (count ≤ length out.old) }
    ensures { out.new ≡ pairs count text.now ++ drop count out.old }
{
    for i in 0..count {
        let high = digit(text[2 * i]);
        let low = digit(text[2 * i + 1]);
        out[i] = 16 * high + low;
    }
}

// Reads bytes from their spelling to the buffer's front, and answers how many they are.
#[tactic(auto, unfolding(crate::specs::Hex::decode_of, crate::specs::Hex::decode_buffer), using(crate::proofs::Cases::hex_digits))]
pub fn decode(text: &[u8], out: &mut [u8]) -> Result<usize, HexError>
    ensures result { result ≡ decode_of text.now (length out.old) }
    ensures buffer { out.new ≡ decode_buffer text.now out.old }
{
    if !is_hex(text) {
        return Err(HexError::NotHex);
    }
    let count = text.len() / 2;
    if out.len() < count {
        return Err(HexError::NoRoom);
    }
    put_pairs(text, count, out);
    Ok(count)
}

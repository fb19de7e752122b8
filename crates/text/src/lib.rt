// Text put into a lent buffer from a place on. Each call answers the place behind what it put; where that would be past the buffer's
// end it puts nothing and answers the place it was given. A buffer and a place in it stay two parameters: the public
// clauses `place` and `buffer` speak of each by itself.
#![tactic(auto)]

ghost use Rattle.std.specs.Prelude.{◌≡◌, [], ◌∷◌, ◌+◌, ◌≤◌, ◌%◌, leb, length, take};
ghost use Rattle.text.specs.Place.{placed, place_after};
ghost use Rattle.text.specs.Digits.{digit, hex_of, upper_of, decimal_of};

// What is added to a digit from ten on: 10 below the letter a, and 10 below A.
const LOWER: u8 = b'a' - 10;

const UPPER: u8 = b'A' - 10;

fn fits(size: usize, at: usize, count: usize) -> bool
    ensures { result ≡ leb (at + count) size }
{
    at.checked_add(count).is_some_and(|end| end <= size)
}

// Bytes as they are.
#[tactic(auto, unfolding(crate::specs::Place::placed, crate::specs::Place::place_after))]
pub fn put(out: &mut [u8], at: usize, bytes: &[u8]) -> usize
    ensures place { result ≡ place_after (length out.old) at bytes.now }
    ensures buffer { out.new ≡ placed out.old at bytes.now }
{
    if !fits(out.len(), at, bytes.len()) {
        return at;
    }
    fields::put_bytes(out, at, bytes);
    at + bytes.len()
}

// The digit of n's last four bits; `letter` is 10 below the letter for ten.
#[tactic(auto, unfolding(crate::specs::Digits::digit))]
fn digit_of(n: u32, letter: u8) -> u8
    requires { letter ≤ 87 }
    ensures { result ≡ digit letter (n % 16) }
{
    let d = (n % 16) as u8;
    if d < 10 { b'0' + d } else { letter + d }
}

#[tactic(auto, unfolding(crate::specs::Digits::hex_of, crate::specs::Digits::hex_in))]
fn pair(b: u8) -> [u8; 2]
    ensures { result ≡ hex_of (b ∷ []) }
{
    let n = u32::from(b);
    [digit_of(n / 16, LOWER), digit_of(n, LOWER)]
}

// Two lower-case hex digits a byte, the high one first.
#[tactic(auto, unfolding(crate::specs::Place::placed, crate::specs::Place::place_after), using(crate::proofs::Storing::hex_length))]
pub fn put_hex(out: &mut [u8], at: usize, bytes: &[u8]) -> usize
    ensures place { result ≡ place_after (length out.old) at (hex_of bytes.now) }
    ensures buffer { out.new ≡ placed out.old at (hex_of bytes.now) }
{
    if !fits(out.len(), at, 2 * bytes.len()) {
        return at;
    }
    for i in 0..bytes.len() {
        fields::put_bytes(out, at + 2 * i, &pair(bytes[i]));
    }
    at + 2 * bytes.len()
}

// Filled from the last digit on, with what is left of the word.
fn word_digits(w: u32) -> [u8; 8]
    ensures { result ≡ upper_of w }
{
    let mut digits = [0u8; 8];
    let mut rest = w;
    for i in (0..8).rev() {
        digits[i] = digit_of(rest, UPPER);
        rest /= 16;
    }
    digits
}

// Eight upper-case hex digits, the most significant first.
#[tactic(auto, using(crate::proofs::Storing::same_text))]
pub fn put_word(out: &mut [u8], at: usize, w: u32) -> usize
    ensures place { result ≡ place_after (length out.old) at (upper_of w) }
    ensures buffer { out.new ≡ placed out.old at (upper_of w) }
{
    let digits = word_digits(w);
    put(out, at, &digits)
}

// The decimal digits of n, without leading zeros.
pub fn put_decimal(out: &mut [u8], at: usize, n: u64) -> usize
    ensures place { result ≡ place_after (length out.old) at (decimal_of n) }
    ensures buffer { out.new ≡ placed out.old at (decimal_of n) }
{
    let mut digits = [0u8; 20];
    let count = io::decimal(n, &mut digits);
    put(out, at, &digits[..count])
}

// The first n bytes, or all where there are fewer.
pub fn first(bytes: &[u8], n: usize) -> &[u8]
    ensures { result.now ≡ take n bytes.now }
{
    fields::part(bytes, 0, n)
}

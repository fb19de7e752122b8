// Reading a word: a byte string in lower-case hex, or a number in decimal. None is a word that is not as the format has it.
ghost use Rattle.std.specs.Prelude.{◌≤◌, IfSome};

// The value of a digit of lower-case hex: `to_digit` and `hex_bytes` take upper case too.
fn digit(b: u8) -> Option<u8>
    ensures { IfSome result (λ d. d ≤ 15) }
{
    match b {
        b'0'..=b'9' => Some(b - b'0'),
        b'a'..=b'f' => Some(b - b'a' + 10),
        _ => None,
    }
}

// A byte string, put at the start of `out`.
pub(crate) fn bytes<'a>(word: &[u8], out: &'a mut [u8]) -> Option<&'a mut [u8]> {
    if word == b"-".as_slice() {
        return Some(&mut out[..0]);
    }
    let (pairs, rest) = word.as_chunks::<2>();
    if pairs.is_empty() || !rest.is_empty() {
        return None;
    }
    let front = out.get_mut(..pairs.len())?;
    for (byte, [high, low]) in front.iter_mut().zip(pairs) {
        *byte = 16 * digit(*high)? + digit(*low)?;
    }
    Some(front)
}

// A number that fits 64 bits, in digits alone: `str::parse` would take a sign too, and `decimal::read` has 16 bits. One for both would take a trait over the two
// types' checked sums, and be no plainer.
pub(crate) fn number(word: &[u8]) -> Option<u64> {
    if word.is_empty() {
        return None;
    }
    let mut n: u64 = 0;
    for b in word {
        if !b.is_ascii_digit() {
            return None;
        }
        n = n.checked_mul(10)?.checked_add(u64::from(*b - b'0'))?;
    }
    Some(n)
}

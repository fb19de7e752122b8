// Numbers, words and bytes at a place of a slice: the fields of a log, a saved form, a text or a block. What is past the end counts as 0 where a number
// is read, and as nothing where bytes are taken or put, so that no call relies on a check by its caller.
#![tactic(auto)]

ghost use Rattle.std.specs.Prelude.{◌≡◌, ◌<◌, get_or, take, drop, replicate};
ghost use Rattle.std.proofs.lemmas.List.Edits.{sets};
ghost use Rattle.fields.specs.Fields.{le, bytes_of, number_at, same};

// A byte.
pub fn byte_at(bytes: &[u8], i: usize) -> usize
    ensures { (result ≡ get_or bytes.now i 0) × (result < 256) }
{
    usize::from(bytes.get(i).copied().unwrap_or(0))
}

// A number of 2 bytes.
pub fn number_at(bytes: &[u8], i: usize) -> usize
    ensures { result ≡ number_at bytes.now i }
{
    if i >= bytes.len() {
        return 0;
    }
    byte_at(bytes, i) + 256 * byte_at(bytes, i + 1)
}

// The `count` bytes from `from` on, or as many of them as there are.
pub fn part(bytes: &[u8], from: usize, count: usize) -> &[u8]
    ensures { result.now ≡ take count (drop from bytes.now) }
{
    let rest = &bytes[from.min(bytes.len())..];
    &rest[..count.min(rest.len())]
}

// `count` bytes of `value`, the low one first. How many there is room for is found once, so that the loop has no way out.
pub fn put_number(out: &mut [u8], at: usize, count: usize, value: u64)
    ensures { out.new ≡ sets out.old at (le count value) }
{
    let end = out.len().min(at.saturating_add(count));
    let mut rest = value;
    for to in at..end {
        out[to] = (rest % 256) as u8;
        rest /= 256;
    }
}

// Bytes as they are, or as many of them as there is room for.
pub fn put_bytes(out: &mut [u8], at: usize, bytes: &[u8])
    ensures { out.new ≡ sets out.old at bytes.now }
{
    if out.len() <= at {
        return;
    }
    let count = bytes.len().min(out.len() - at);
    out[at..at + count].copy_from_slice(&bytes[..count]);
}

// An array of bytes as they are, or as many of them as there is room for, and zeros behind them.
pub fn filled<const N: usize>(bytes: &[u8]) -> [u8; N]
    ensures { result ≡ sets (replicate N 0) 0 bytes.now }
{
    let mut filled = [0u8; N];
    put_bytes(&mut filled, 0, bytes);
    filled
}

// Words, each as 4 bytes. The place goes on by 4: a `step_by` over places zipped with the words needs an end for the places too, and is no plainer.
pub fn put_words(out: &mut [u8], at: usize, words: &[u32])
    ensures { out.new ≡ sets out.old at (bytes_of words.now) }
{
    let mut to = at;
    for w in words {
        if to >= out.len() {
            return;
        }
        put_number(out, to, 4, u64::from(*w));
        to += 4;
    }
}

// Whether two slices hold the same bytes.
pub fn same(a: &[u8], b: &[u8]) -> bool
    ensures { result ≡ same a.now b.now }
{
    a == b
}

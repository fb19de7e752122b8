// Words of 32 bits: of bytes, and the AES round on four of them.
#![tactic(auto)]

ghost use Rattle.std.specs.Prelude.{◌≡◌, get_or, set};
ghost use Rattle.std.proofs.lemmas.List.Edits.{sets};
ghost use Rattle.words.specs.Words.{from_bytes, word_at, four_at, xor4, column_of, from_column, columns_of, from_columns, round_of};

// The word of four bytes, the least significant first.
pub fn word(b0: u8, b1: u8, b2: u8, b3: u8) -> u32
    ensures { result ≡ from_bytes b0 b1 b2 b3 }
{
    u32::from_le_bytes([b0, b1, b2, b3])
}

fn byte_or_zero(bytes: &[u8], i: usize) -> u8
    ensures { result ≡ get_or bytes.now i 0 }
{
    bytes.get(i).copied().unwrap_or(0)
}

// The word of the first four bytes of a list, 0 where it has none. Lent four bytes the compiler leaves the tests out.
pub fn word_of(bytes: &[u8]) -> u32
    ensures { result ≡ word_at bytes.now 0 }
{
    word(
        byte_or_zero(bytes, 0),
        byte_or_zero(bytes, 1),
        byte_or_zero(bytes, 2),
        byte_or_zero(bytes, 3),
    )
}

fn word_or_zero(w: &[u32], i: usize) -> u32
    ensures { result ≡ get_or w.now i 0 }
{
    w.get(i).copied().unwrap_or(0)
}

// The first four words of a list, 0 where it has none. Lent four words the compiler leaves the tests out.
pub fn quad(w: &[u32]) -> [u32; 4]
    ensures { result ≡ four_at w.now 0 }
{
    [
        word_or_zero(w, 0),
        word_or_zero(w, 1),
        word_or_zero(w, 2),
        word_or_zero(w, 3),
    ]
}

fn put_word(w: &mut [u32], i: usize, x: u32)
    ensures { w.new ≡ set w.old i x }
{
    if i < w.len() {
        w[i] = x;
    }
}

// Puts four words at the front of a list, as far as it goes. Lent four words the compiler leaves the tests out, and the words need not
// stand in memory before, as they do for `copy_from_slice`: by that, which also tests for an overlap, long input takes 66.8 and 103.7
// instructions a byte, small and large, and 63 and 99 are the bars.
pub fn put(w: &mut [u32], x: [u32; 4])
    ensures { w.new ≡ sets w.old 0 x }
{
    put_word(w, 0, x[0]);
    put_word(w, 1, x[1]);
    put_word(w, 2, x[2]);
    put_word(w, 3, x[3]);
}

// Four words xored with four. `aes` does it with bytes: one function for both would need a law of what `^` gives a type, and be no plainer.
pub fn xored(x: [u32; 4], y: [u32; 4]) -> [u32; 4]
    ensures { result ≡ xor4 x y }
{
    [x[0] ^ y[0], x[1] ^ y[1], x[2] ^ y[2], x[3] ^ y[3]]
}

// Row r is byte 3 - r of the word.
fn column(w: u32) -> [u8; 4]
    ensures { result ≡ column_of w }
{
    w.to_be_bytes()
}

fn from_column(c: [u8; 4]) -> u32
    ensures { result ≡ from_column c }
{
    u32::from_be_bytes(c)
}

// Written out: by `map`, here and in `aes`, the byte form takes 518 instructions a byte of long input and not 242 (266 is the bar).
fn columns(x: [u32; 4]) -> [[u8; 4]; 4]
    ensures { result ≡ columns_of x }
{
    [column(x[0]), column(x[1]), column(x[2]), column(x[3])]
}

fn from_columns(s: [[u8; 4]; 4]) -> [u32; 4]
    ensures { result ≡ from_columns s }
{
    [
        from_column(s[0]),
        from_column(s[1]),
        from_column(s[2]),
        from_column(s[3]),
    ]
}

// The AES round under a subkey.
pub fn aes_round(x: [u32; 4], key: [u32; 4]) -> [u32; 4]
    ensures { result ≡ round_of x key }
{
    from_columns(aes::round(columns(x), columns(key)))
}

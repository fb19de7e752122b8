// One round of AES on four columns of four bytes, by value: FIPS 197's round, a function a step.
#![tactic(auto)]

ghost use Rattle.std.specs.Prelude.{◌≡◌, map, ◌+◌, ◌*◌, get_or};
ghost use Rattle.sbox.specs.Sbox.{sbox_of};
ghost use Rattle.std.specs.Int.Bits.{bit_xor};
ghost use Rattle.aes.specs.Field.{xtime_of};
ghost use Rattle.aes.specs.Round.{four, cells_of, bytes_in, sub_bytes, shift_rows, mix_byte, mix_columns, add_round_key, aes_round};

// A state's bytes in one row, and back.
fn flat(s: [[u8; 4]; 4]) -> [u8; 16]
    ensures { result ≡ bytes_in s }
{
    let a = s[0];
    let b = s[1];
    let c = s[2];
    let d = s[3];
    [
        a[0], a[1], a[2], a[3], b[0], b[1], b[2], b[3], c[0], c[1], c[2], c[3], d[0], d[1], d[2],
        d[3],
    ]
}

fn in_columns(t: [u8; 16]) -> [[u8; 4]; 4]
    ensures { result ≡ cells_of (λ r c. get_or t (4 * c + r) 0) }
{
    [
        [t[0], t[1], t[2], t[3]],
        [t[4], t[5], t[6], t[7]],
        [t[8], t[9], t[10], t[11]],
        [t[12], t[13], t[14], t[15]],
    ]
}

// The S-box has one call site, in a loop, so that the compiler puts it there; the same holds for the columns' mixing below. By `map` over
// columns, here, in the mixing and in `words`, it proves, and the byte form takes 518 instructions a byte of long input and not 242 (266 is
// the bar).
fn sub_each(bytes: [u8; 16]) -> [u8; 16]
    ensures { result ≡ map sbox_of bytes }
{
    let mut t = bytes;
    for i in 0..16 {
        t[i] = sbox::sub(t[i]);
    }
    t
}

fn sub_bytes(s: [[u8; 4]; 4]) -> [[u8; 4]; 4]
    ensures { result ≡ sub_bytes s }
{
    in_columns(sub_each(flat(s)))
}

fn shift_rows(s: [[u8; 4]; 4]) -> [[u8; 4]; 4]
    ensures { result ≡ shift_rows s }
{
    let a = s[0];
    let b = s[1];
    let c = s[2];
    let d = s[3];
    [
        [a[0], b[1], c[2], d[3]],
        [b[0], c[1], d[2], a[3]],
        [c[0], d[1], a[2], b[3]],
        [d[0], a[1], b[2], c[3]],
    ]
}

fn xtime(b: u8) -> u8
    ensures { result ≡ xtime_of b }
{
    (b << 1) ^ ((b >> 7) * 0x1b)
}

fn mix_column(a: [u8; 4]) -> [u8; 4]
    ensures { result ≡ four (λ r. mix_byte r a) }
{
    let x0 = xtime(a[0]);
    let x1 = xtime(a[1]);
    let x2 = xtime(a[2]);
    let x3 = xtime(a[3]);
    [
        x0 ^ (x1 ^ a[1]) ^ a[2] ^ a[3],
        a[0] ^ x1 ^ (x2 ^ a[2]) ^ a[3],
        a[0] ^ a[1] ^ x2 ^ (x3 ^ a[3]),
        (x0 ^ a[0]) ^ a[1] ^ a[2] ^ x3,
    ]
}

fn mix_columns(s: [[u8; 4]; 4]) -> [[u8; 4]; 4]
    ensures { result ≡ mix_columns s }
{
    let mut t = s;
    for c in 0..4 {
        t[c] = mix_column(t[c]);
    }
    t
}

fn add_column(a: [u8; 4], k: [u8; 4]) -> [u8; 4]
    ensures { result ≡ four (λ r. bit_xor (get_or a r 0) (get_or k r 0)) }
{
    [a[0] ^ k[0], a[1] ^ k[1], a[2] ^ k[2], a[3] ^ k[3]]
}

fn add_round_key(s: [[u8; 4]; 4], k: [[u8; 4]; 4]) -> [[u8; 4]; 4]
    ensures { result ≡ add_round_key s k }
{
    [
        add_column(s[0], k[0]),
        add_column(s[1], k[1]),
        add_column(s[2], k[2]),
        add_column(s[3], k[3]),
    ]
}

// The round: state and subkey by value, the next state back.
pub fn round(state: [[u8; 4]; 4], subkey: [[u8; 4]; 4]) -> [[u8; 4]; 4]
    ensures { result ≡ aes_round state subkey }
{
    add_round_key(mix_columns(shift_rows(sub_bytes(state))), subkey)
}

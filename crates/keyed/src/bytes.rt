// Blocks xored with a pad, and tags compared.
ghost use Rattle.std.specs.Prelude.{◌≡◌};
ghost use Rattle.fields.specs.Fields.{same};
ghost use Rattle.keyed.specs.Hmac.{repeated, ◌⊕◌};

// A block, each byte xored with the pad's.
pub(crate) fn xored(block: [u8; 128], pad: u8) -> [u8; 128]
    ensures { result ≡ block ⊕ repeated 128 pad }
{
    let mut xored = block;
    for b in &mut xored {
        *b ^= pad;
    }
    xored
}

// Whether two slices hold the same bytes. Where they are of one length all bytes are looked at: a fold has no way out, so that no answer comes sooner for a tag
// that differs sooner.
pub(crate) fn alike(a: &[u8], b: &[u8]) -> bool
    ensures { result ≡ same a.now b.now }
{
    if a.len() != b.len() {
        return false;
    }
    a.iter().zip(b).fold(0, |any, (x, y)| any | (*x ^ *y)) == 0
}

// Words from bytes.
ghost use Rattle.std.specs.Prelude.{◌≡◌, [], ◌∷◌, ◌+◌, ◌*◌, ◌≤◌, length};
ghost use Rattle.words.specs.Words.{word_at};

// Four words of `bytes`, from word j.
pub(crate) fn quad_of(bytes: &[u8], j: usize) -> [u32; 4]
    requires { 4 * j + 16 ≤ length bytes.now }
    ensures { result ≡ word_at bytes.now j ∷ word_at bytes.now (j + 1) ∷ word_at bytes.now (j + 2) ∷ word_at bytes.now (j + 3) ∷ [] }
{
    let at = 4 * j;
    [
        words::word_of(&bytes[at..at + 4]),
        words::word_of(&bytes[at + 4..at + 8]),
        words::word_of(&bytes[at + 8..at + 12]),
        words::word_of(&bytes[at + 12..at + 16]),
    ]
}

// The AES round in either form: a type stands for each.
ghost use Rattle.std.specs.Prelude.{◌≡◌};
ghost use Rattle.words.specs.Words.{round_of};

pub(crate) trait Rounds {
    fn round(x: [u32; 4], key: [u32; 4]) -> [u32; 4]
        ensures { result ≡ round_of x key };
}

pub(crate) struct ByBytes;

impl Rounds for ByBytes {
    fn round(x: [u32; 4], key: [u32; 4]) -> [u32; 4] {
        words::aes_round(x, key)
    }
}

pub(crate) struct ByTables;

impl Rounds for ByTables {
    fn round(x: [u32; 4], key: [u32; 4]) -> [u32; 4] {
        tables::round(tables::lent(), x, key)
    }
}

// Blocks and salts as values, made by the calls of `fields`.
ghost use Rattle.std.specs.Prelude.{◌≡◌, ◌≤◌, length};
ghost use Rattle.std.proofs.lemmas.List.Edits.{sets};
ghost use Rattle.state.specs.Bytes.{fill};

// Bytes put into a block at `at`.
pub(crate) fn take_in(block: [u8; 128], at: usize, bytes: &[u8]) -> [u8; 128]
    ensures { result ≡ sets block at bytes.now }
{
    let mut b = block;
    fields::put_bytes(&mut b, at, bytes);
    b
}

// A salt, with zeros up to 64 bytes.
pub(crate) fn fill_salt(salt: &[u8]) -> [u8; 64]
    requires { length salt.now ≤ 64 }
    ensures { result ≡ fill 64 salt.now }
{
    fields::filled(salt)
}

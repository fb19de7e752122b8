// Numbers spelled in decimal, read.
#![tactic(auto)]

ghost use Rattle.std.specs.Prelude.{◌≡◌};
ghost use Rattle.decimal.specs.Decimal.{number_of};

// Reads a number from its spelling: None for what is no number or is over 65535. Digits alone are taken, while `parse` takes a sign too.
pub fn read(text: &[u8]) -> Option<u16>
    ensures { result ≡ number_of text.now }
{
    if text.is_empty() {
        return None;
    }
    let mut n: u16 = 0;
    for c in text {
        if !c.is_ascii_digit() {
            return None;
        }
        n = n.checked_mul(10)?.checked_add(u16::from(*c - b'0'))?;
    }
    Some(n)
}

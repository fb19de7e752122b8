// The length of what was written, by a call that writes something whole to the front of a lent buffer.
ghost use Rattle.std.specs.Prelude.{◌≡◌};
ghost use Rattle.answers.specs.Written.{written_number, written_length};

use crate::refusal;
use crate::refusal::Refusal;

// 0 where the bytes are written.
pub fn written_number(written: Result<usize, Refusal>) -> u8
    ensures { result ≡ written_number written }
{
    refusal::number(written)
}

// How many bytes: 0 on a refusal.
pub fn length(written: Result<usize, Refusal>) -> usize
    ensures { result ≡ written_length written }
{
    written.unwrap_or(0)
}

// The bytes that a keyed finish reports as covered: the message's, without the key block.
ghost use Rattle.std.specs.Prelude.{◌≡◌};
ghost use Rattle.tag_answers.specs.Tagged.{tagged_number, tagged_covered};

use answers::Refusal;
use reports::Length;

// 0 where a tag is written.
pub fn number(tagged: Result<Length, Refusal>) -> u8
    ensures { result ≡ tagged_number tagged }
{
    answers::number(tagged)
}

// Bytes covered: 0 on a refusal.
pub fn covered(tagged: Result<Length, Refusal>) -> u64
    ensures { result ≡ tagged_covered tagged }
{
    tagged.map_or(0, |covered| covered.0)
}

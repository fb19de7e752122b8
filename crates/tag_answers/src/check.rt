// The yes or no of a tag check.
ghost use Rattle.std.specs.Prelude.{◌≡◌};
ghost use Rattle.tag_answers.specs.TagCheck.{tag_check_number, tag_check_yes};

use answers::Refusal;

// 0 where the check says yes or no.
pub fn check_number(check: Result<bool, Refusal>) -> u8
    ensures { result ≡ tag_check_number check }
{
    answers::number(check)
}

// Whether the tag is the right one: not on a refusal.
pub fn is_yes(check: Result<bool, Refusal>) -> bool
    ensures { result ≡ tag_check_yes check }
{
    check.unwrap_or(false)
}

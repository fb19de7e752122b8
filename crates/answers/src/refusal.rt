// Every refusal of the project, and the number of what a call answers.
ghost use Rattle.std.specs.Prelude.{◌≡◌};
ghost use Rattle.answers.specs.Refusal.{refusal_number, number_of, answer_number, first_of};

#[derive(Clone, Copy, Debug, PartialEq, Eq)]
pub enum Refusal {
    DigestLength,
    SaltSize,
    MessageLimit,
    StateInconsistent,
    BufferShort,
    LogExtent,
    SectionCount,
    EventRegister,
    FormExtent,
    FormCount,
    BitsUnfit,
    KeyLong,
}

impl Refusal {
    // The number in document 01's table; 9 and on are document 02's. A match and no discriminants: wrong builds give two refusals one number, which those cannot have.
    pub fn number(self) -> u8
        ensures { result ≡ refusal_number self }
    {
        match self {
            Refusal::DigestLength => 1,
            Refusal::SaltSize => 2,
            Refusal::MessageLimit => 3,
            Refusal::StateInconsistent => 4,
            Refusal::BufferShort => 5,
            Refusal::LogExtent => 6,
            Refusal::SectionCount => 7,
            Refusal::EventRegister => 8,
            Refusal::FormExtent => 9,
            Refusal::FormCount => 10,
            Refusal::BitsUnfit => 11,
            Refusal::KeyLong => 12,
        }
    }
}

// 0 where the call was accepted, whatever it answers then.
pub fn number<T: Drop>(answer: Result<T, Refusal>) -> u8
    ensures { result ≡ number_of answer }
{
    match answer {
        Ok(_) => 0,
        Err(refusal) => refusal.number(),
    }
}

// The same of an answer with no value. Each kind of answer has such a call, since each has a definition of its number, which is its contract.
pub fn answer_number(answer: Result<(), Refusal>) -> u8
    ensures { result ≡ answer_number answer }
{
    number(answer)
}

// The first refusal of two answers.
pub fn also(first: Result<(), Refusal>, next: Result<(), Refusal>) -> Result<(), Refusal>
    ensures { result ≡ first_of first next }
{
    first.and(next)
}

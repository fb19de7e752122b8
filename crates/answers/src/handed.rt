// What a call answers, and the state that it hands back.
ghost use Rattle.std.specs.Prelude.{◌≡◌};

use crate::refusal::Refusal;

#[derive(Clone, Copy)]
pub struct Handed<T, S> {
    pub answer: Result<T, Refusal>,
    pub state: S,
}

impl<S: Drop> Handed<(), S> {
    ghost use Rattle.answers.specs.Handed.{handed_over};

    // The state that a call made; or its refusal, and the state that it was given.
    pub fn of(made: Result<S, Refusal>, given: S) -> Handed<(), S>
        ensures { result ≡ handed_over made given }
    {
        match made {
            Ok(state) => Handed {
                answer: Ok(()),
                state,
            },
            Err(refusal) => Handed {
                answer: Err(refusal),
                state: given,
            },
        }
    }
}

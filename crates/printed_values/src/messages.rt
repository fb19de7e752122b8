// The appendix's four messages.
use state::State;
use std::fmt;

#[derive(Clone, Copy)]
pub enum Message {
    Empty,
    A,
    Alphabet,
    Million,
}

impl fmt::Display for Message {
    fn fmt<W: fmt::Write>(&self, f: &mut fmt::Formatter<W>) -> fmt::Result {
        let name = match self {
            Message::Empty => "empty",
            Message::A => "a",
            Message::Alphabet => "alphabet",
            Message::Million => "million-a",
        };
        write!(f, "{name}")
    }
}

fn add(state: State, bytes: &[u8]) -> State {
    digest::add(form::TABLES, state, bytes).state
}

// One million letters A, a thousand an add.
fn add_million(state: State) -> State {
    let chunk = [b'A'; 1000];
    let mut reached = state;
    for _ in 0..1000 {
        reached = add(reached, &chunk);
    }
    reached
}

// The state after a whole message.
pub(crate) fn added(state: State, message: Message) -> State {
    match message {
        Message::Empty => state,
        Message::A => add(state, b"A"),
        Message::Alphabet => add(state, b"ABCDEFGHIJKLMNOPQRSTUVWXYZ"),
        Message::Million => add_million(state),
    }
}

// What the calls answer: a value or a refusal with its number, and the state handed back beside it.
#![tactic(auto)]

mod handed;
mod refusal;
mod written;

pub use handed::Handed;
pub use refusal::{Refusal, also, answer_number, number};
pub use written::{length, written_number};

// The running digest: begin, add, finish and one-shot. Finish stands in a crate below and is passed on.
#![tactic(auto)]

mod bytes;
mod calls;

pub use calls::{Step, add, begin, one_shot};
pub use finishing::{Finished, finish};

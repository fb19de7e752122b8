// What the keyed calls' answers tell, a refusal's too: the number, how many bytes a finish covers, and whether a tag check says yes.
#![tactic(auto)]

mod check;
mod tagged;

pub use check::{check_number, is_yes};
pub use tagged::{covered, number};

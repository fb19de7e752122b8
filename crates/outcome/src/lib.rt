// When a promise leaves only one outcome: a definition and its laws, below every crate that makes a promise. There is no code here.
#![tactic(auto)]

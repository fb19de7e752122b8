// The table of document 01's cases marked P stands in specs/; this crate has no code.
#![tactic(auto)]

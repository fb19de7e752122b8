// Every public call has only one outcome: the contracts of all crates below, each with `OneOutcome`. Theorems; there is no code here.
#![tactic(auto)]

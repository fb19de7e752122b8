// Sequences of keyed calls, tag checks and keys with the same tags: theorems above `keyed`. There is no code here.
#![tactic(auto)]

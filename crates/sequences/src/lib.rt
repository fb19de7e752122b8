// Sequences of calls on a running digest: theorems above `digest`. There is no code here.
#![tactic(auto)]

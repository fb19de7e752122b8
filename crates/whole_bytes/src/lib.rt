// The rule for whole bytes, as it stood before bits were counted, is the rule of today with no last bits and m a multiple of 8. Theorems above `digest`; there is no code here.
#![tactic(auto)]

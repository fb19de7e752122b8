// Padding and digests as lists of bits, in the source's own terms. Theorems above `digest`; there is no code here.
#![tactic(auto)]

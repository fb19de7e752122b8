// The list of (counter, block) of a digest: no counter comes twice, and no list opens another. Theorems above `digest`; there is no code here.
#![tactic(auto)]

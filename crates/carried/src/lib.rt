// Saved states carried from one boot stage to the next: theorems above `saving`, `loading` and `sequences`. There is no code here.
#![tactic(auto)]

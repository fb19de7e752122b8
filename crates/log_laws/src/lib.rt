// What the rules say of boot logs: one register, labels, exactness, size. Theorems above `bootlog`; there is no code here.
#![tactic(auto)]

// What the place of a refused log means. Theorems above `layout`; there is no code here.
#![tactic(auto)]

// What the rules say of written logs: they are read back and accepted, and writing is exact. Theorems above `logger`; there is no code here.
#![tactic(auto)]

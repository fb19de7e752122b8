// The reading, the check and the text of a log, as they stood before a refusal had a place, are those of today with the place forgotten. Theorems above `printout`; there is no code here.
#![tactic(auto)]

// The letter's three duties, a theorem for each sentence, above every crate whose calls they speak of. There is no code here.
#![tactic(auto)]

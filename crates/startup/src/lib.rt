// The start-up calls as definitions, and the proof that they give what source 003 prints. The code is in `starting`.
#![tactic(auto)]

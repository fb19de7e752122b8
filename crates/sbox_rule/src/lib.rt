// The rule behind the S-box's table: theorems above `sbox` and `aes`. There is no code here.
#![tactic(auto)]

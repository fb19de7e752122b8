// Every byte of an AES round is below 256 and every word of a compression below 2^32: theorems above `aes` and `compress`. There is no code here.
#![tactic(auto)]

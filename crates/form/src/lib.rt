// Which form of the AES round a caller wants: one word at the call. No contract depends on it. The word is a `bool` and no enum: a `bool` is
// what each public call promises to take (docs/PROMISES.md has its two words), and an enum was tried, which left both forms in every program;
// the gate looks for that (docs/DECISIONS.md has the figures). It is a word at run time in every public call, and in what they hand it on to: a type parameter
// for it would ask more of callers, who may choose it then.
#![tactic(auto)]

// Byte by byte, by the S-box and the columns' mixing: no tables. The first loader's.
pub const BYTES: bool = false;

// By four tables of 256 words, read where they stand: a quarter of the instructions.
pub const TABLES: bool = true;

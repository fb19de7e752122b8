// Keyed digests: HMAC of FIPS 198-1 over the running digest. Begin, add, finish and the tag check; each tests in document 02's order, and a refusal changes nothing.
#![tactic(auto)]

mod bytes;
mod calls;
mod hashing;

pub use calls::{Compared, Finished, KEY_LIMIT, Step, add, begin, check, finish};

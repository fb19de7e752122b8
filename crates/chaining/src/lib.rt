// The chain taken through one compression, in the form of the round that the caller names.
#![tactic(auto)]

ghost use Rattle.std.specs.Prelude.{◌≡◌, replicate};
ghost use Rattle.counter.specs.Counter.{counter_of};
ghost use Rattle.compress.specs.Compression.{compress_of};

use counter::Counter;
use family::Family;

// Takes the chain over one block. The form stays a word at run time: a type for it would ask more of callers, who may choose it then.
pub fn block(
    form: bool,
    family: Family,
    chain: &mut [u32; 16],
    block: &[u8; 128],
    counter: Counter,
    salt: &[u8; 64],
)
    ensures { chain.new ≡ compress_of family chain.old block.now counter salt.now }
{
    if form {
        let size = family.block_bytes();
        expanded::run_by_tables(family, chain, fields::part(block, 0, size), counter, salt);
        return;
    }
    match family {
        Family::Small => {
            let mut h = *chain;
            compress::small(&mut h, block, counter, salt);
            compress::feed(chain, &h);
        }
        Family::Large => expanded::large_by_bytes(chain, block, counter, salt),
    }
}

// A start-up call: counter 0 and the zero salt.
pub fn start(form: bool, family: Family, chain: &mut [u32; 16], block: &[u8; 128])
    ensures { chain.new ≡ compress_of family chain.old block.now (counter_of 0) (replicate 64 0) }
{
    let counter = Counter::of(0);
    let salt = [0u8; 64];
    crate::block(form, family, chain, block, counter, &salt);
}

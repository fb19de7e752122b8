// Compression with all expanded words in an array: both families over the tables, and the large one byte by byte.
#![tactic(auto)]

ghost use Rattle.std.specs.Prelude.{◌≡◌, ◌/◌, ◌≤◌, length};
ghost use Rattle.family.specs.declared.Family.TheVariants.{Small, Large};
ghost use Rattle.family.specs.Family.{block_bytes};
ghost use Rattle.compress.specs.Compression.{large_output, compress_of};
ghost use Rattle.compress.specs.Run.{run_over};
ghost use Rattle.expanded.specs.Places.{quarters_at};

mod cipher;
mod expansion;
mod rounds;

use counter::Counter;
use family::{Family, LargeFamily, SmallFamily};
use rounds::{ByBytes, ByTables, Rounds};

// Xors the four quarters that the cipher made onto the chain. They stand two places on; `compress::feed` has two halves, in place, and zeros
// past them, so that one function for both would take every place from its caller.
fn feed(chain: &mut [u32; 16], h: &[u32; 16])
    ensures { chain.new ≡ large_output chain.old (quarters_at 8 h.now) }
{
    let l = words::xored(words::quad(&chain[0..4]), words::quad(&h[8..12]));
    let a = words::xored(words::quad(&chain[4..8]), words::quad(&h[12..16]));
    let b = words::xored(words::quad(&chain[8..12]), words::quad(&h[0..4]));
    let r = words::xored(words::quad(&chain[12..16]), words::quad(&h[4..8]));
    words::put(&mut chain[0..4], l);
    words::put(&mut chain[4..8], a);
    words::put(&mut chain[8..12], b);
    words::put(&mut chain[12..16], r);
}

// This and `large` stand apart: the cipher and the feed differ, and so does the array's length, which Rattle cannot take from an associated
// constant of a type parameter. One function for both would take all three from its caller.
fn small<R: Rounds>(chain: &mut [u32; 16], block: &[u8], c: Counter, salt: &[u8; 64])
    requires { block_bytes Small ≤ length block.now }
    ensures { chain.new ≡ compress_of Small chain.old block.now c salt.now }
{
    let mut w = [0u32; SmallFamily::EXPANDED_WORDS];
    expansion::expand::<R>(Family::Small, &mut w, block, c, salt);
    let mut h = *chain;
    cipher::small::<R>(&w, &mut h);
    compress::feed(chain, &h);
}

fn large<R: Rounds>(chain: &mut [u32; 16], block: &[u8], c: Counter, salt: &[u8; 64])
    requires { block_bytes Large ≤ length block.now }
    ensures { chain.new ≡ compress_of Large chain.old block.now c salt.now }
{
    let mut w = [0u32; LargeFamily::EXPANDED_WORDS];
    expansion::expand::<R>(Family::Large, &mut w, block, c, salt);
    let mut h = *chain;
    cipher::large::<R>(&w, &mut h);
    feed(chain, &h);
}

// The large family's compression of the chain, byte by byte. It stays a function, as the small one does: put into one caller, a small
// compression would carry the large one's words on its stack.
#[inline(never)]
pub fn large_by_bytes(chain: &mut [u32; 16], block: &[u8; 128], counter: Counter, salt: &[u8; 64])
    ensures { chain.new ≡ compress_of Large chain.old block.now counter salt.now }
{
    large::<ByBytes>(chain, block, counter, salt);
}

// The chain, the block, the counter and the salt go one by one, as the public calls take them. The block is a slice with a bound and no
// type of its own: it is a chunk of lent bytes or the front of the lent 128, as long as the family says, which is known at run time alone.
fn by_tables(family: Family, chain: &mut [u32; 16], block: &[u8], c: Counter, salt: &[u8; 64])
    requires { block_bytes family ≤ length block.now }
    ensures { chain.new ≡ compress_of family chain.old block.now c salt.now }
{
    match family {
        Family::Small => small::<ByTables>(chain, block, c, salt),
        Family::Large => large::<ByTables>(chain, block, c, salt),
    }
}

// Takes the chain over the whole blocks of `bytes`, by the tables.
pub fn run_by_tables(
    family: Family,
    chain: &mut [u32; 16],
    bytes: &[u8],
    counter: Counter,
    salt: &[u8; 64],
)
    ensures { chain.new ≡ run_over family salt.now (length bytes.now / block_bytes family) counter bytes.now chain.old }
{
    let size = family.block_bytes();
    let bits = (8 * size) as u32;
    let mut c = counter;
    for block in bytes.chunks_exact(size) {
        by_tables(family, chain, block, c, salt);
        c = c.advance(bits);
    }
}

// The same, and then one block more with a counter of its own: a message's whole blocks and its last one.
pub fn run_and_block_by_tables(
    family: Family,
    chain: &mut [u32; 16],
    bytes: &[u8],
    first: Counter,
    block: &[u8; 128],
    counter: Counter,
    salt: &[u8; 64],
)
    ensures { chain.new ≡ compress_of family (run_over family salt.now (length bytes.now / block_bytes family) first bytes.now chain.old) block.now counter salt.now }
{
    run_by_tables(family, chain, bytes, first, salt);
    by_tables(family, chain, block, counter, salt);
}

// The message expansion, once for both families and both forms of the round: the words are filled in order.
ghost use Rattle.std.specs.Prelude.{◌≡◌, ◌++◌, ◌+◌, ◌*◌, ◌/◌, ◌%◌, ◌≤◌, ◌<◌, length, take, drop};
ghost use Rattle.family.specs.declared.Family.TheVariants.{Large};
ghost use Rattle.family.specs.Family.{block_words, salt_quads, expanded_words};
ghost use Rattle.words.specs.Words.{words_of};
ghost use Rattle.compress.specs.Expansion.{places, taps_of, last_of, group_of, nonlinear_run, linear_run, run_of, expand_of};

use crate::rounds::Rounds;
use counter::Counter;
use family::{Family, LargeFamily, SmallFamily};

// The first n words of `bytes`, put at the front of `w`.
fn load(w: &mut [u32], bytes: &[u8], n: usize)
    requires { (n ≤ length w.old) × (4 * n ≤ length bytes.now) }
    ensures { w.new ≡ words_of n bytes.now ++ drop n w.old }
{
    for j in 0..n {
        w[j] = words::word_of(&bytes[4 * j..4 * j + 4]);
    }
}

// The words that the group behind w is made from, n being the far distance. `compress` has taps and linear words of its own: it makes them
// as they are used, from the last sixteen, and here all that went before stand in one array.
fn taps(w: &[u32], n: usize) -> [u32; 4]
    requires { (4 ≤ n) × (n ≤ length w.now) }
    ensures { result ≡ taps_of n w.now }
{
    let i = w.len();
    [w[i - (n - 1)], w[i - (n - 2)], w[i - (n - 3)], w[i - n]]
}

fn last(w: &[u32]) -> [u32; 4]
    requires { 4 ≤ length w.now }
    ensures { result ≡ last_of w.now }
{
    let i = w.len();
    [w[i - 4], w[i - 3], w[i - 2], w[i - 1]]
}

// The four words that follow w.
fn group<R: Rounds>(family: Family, w: &[u32], c: Counter, salt4: [u32; 4]) -> [u32; 4]
    requires { (block_words family ≤ length w.now) × (length w.now % 4 ≡ 0) }
    ensures { result ≡ group_of (block_words family) (places family c) salt4 w.now }
{
    let n = family.block_words();
    let salted = words::xored(taps(w, n), salt4);
    let mixed = R::round(salted, last(w));
    compress::entered(family, w.len(), c, mixed)
}

// A run of nonlinear words from place i.
fn nonlinear<R: Rounds>(family: Family, w: &mut [u32], i: usize, c: Counter, salt: &[u32; 16])
    requires { (block_words family ≤ i) × (i + block_words family ≤ length w.old) × (i % 4 ≡ 0) }
    ensures { (take (i + block_words family) w.new ≡ nonlinear_run (block_words family) (salt_quads family) (places family c) salt.now (block_words family / 4) (take i w.old)) × (length w.new ≡ length w.old) }
{
    let groups = family.block_words() / 4;
    let quads = family.salt_quads();
    for k in 0..groups {
        let from = 4 * (k % quads);
        let salt4 = words::quad(&salt[from..from + 4]);
        let at = i + 4 * k;
        let x = group::<R>(family, &w[..at], c, salt4);
        words::put(&mut w[at..at + 4], x);
    }
}

// A run of n linear words from place i.
fn linear(w: &mut [u32], i: usize, n: usize, near: usize)
    requires { (0 < near) × (near ≤ n) × (n ≤ i) × (i + n ≤ length w.old) }
    ensures { (take (i + n) w.new ≡ linear_run n near n (take i w.old)) × (length w.new ≡ length w.old) }
{
    for k in 0..n {
        let j = i + k;
        w[j] = w[j - n] ^ w[j - near];
    }
}

// Run r, behind the first n * (r + 1) words.
fn run<R: Rounds>(family: Family, w: &mut [u32], r: usize, c: Counter, salt: &[u32; 16])
    requires { (block_words family * (r + 1) + block_words family ≤ length w.old) × (length w.old ≤ expanded_words Large) }
    ensures { (take (block_words family * (r + 1) + block_words family) w.new ≡ run_of family c salt.now r (take (block_words family * (r + 1)) w.old)) × (length w.new ≡ length w.old) }
{
    let n = family.block_words();
    let at = n * (r + 1);
    if r % 2 == 0 {
        nonlinear::<R>(family, w, at, c, salt);
    } else {
        // The compiler makes the family's own loop of each.
        match family {
            Family::Small => linear(w, at, SmallFamily::BLOCK_WORDS, SmallFamily::NEAR_DISTANCE),
            Family::Large => linear(w, at, LargeFamily::BLOCK_WORDS, LargeFamily::NEAR_DISTANCE),
        }
    }
}

// All words of a block.
pub(crate) fn expand<R: Rounds>(
    family: Family,
    w: &mut [u32],
    block: &[u8],
    c: Counter,
    salt: &[u8; 64],
)
    requires { (length w.old ≡ expanded_words family) × (4 * block_words family ≤ length block.now) }
    ensures { w.new ≡ expand_of family block.now c (words_of 16 salt.now) }
{
    let mut s = [0u32; 16];
    load(&mut s, salt, 16);
    load(w, block, family.block_words());
    let runs = family.runs();
    for r in 0..runs {
        run::<R>(family, w, r, c, &s);
    }
}

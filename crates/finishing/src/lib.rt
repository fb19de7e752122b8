// The end of a digest: the last bits and the padding, the last blocks, and the digest written out; of a state, which goes on unchanged, or of one message whole.
#![tactic(auto)]

ghost use Rattle.std.specs.Prelude.{◌≡◌, true, ◌⊎◌, ◌%◌, ◌≤◌, ◌<◌, length, take, drop, replicate};
ghost use Rattle.std.proofs.lemmas.List.Edits.{sets};
ghost use Rattle.family.specs.Family.{family_of, block_bytes};
ghost use Rattle.compress.specs.Compression.{compress_of};
ghost use Rattle.bits.specs.Message.{message_of};
ghost use Rattle.state.specs.Bytes.{all_zero};
ghost use Rattle.state.specs.State.{limit};
ghost use Rattle.finishing.specs.Blocks.{blocks_of, chain_over};
ghost use Rattle.finishing.specs.Finish.{ending, whole_run, finish_of, finish_buffer};
ghost use Rattle.finishing.specs.Hash.{hash_of, hash_buffer};

mod fit_bits;

use answers::{Handed, Refusal};
use bits::LastBits;
use counter::Counter;
use family::Family;
use fit_bits::FitBits;
use reports::{Coverage, Length};
use state::State;

// What a digest covers, and the state handed back.
pub type Finished = Handed<Coverage, State>;

// The chain after a message's last block, and how many blocks that took.
#[derive(Clone, Copy)]
struct Closed {
    chain: [u32; 16],
    count: u64,
}

// Takes the chain over the whole blocks of `run`, by the tables, and then over a block of its end; byte by byte there is no run.
fn over(
    form: bool,
    family: Family,
    chain: &mut [u32; 16],
    run: &[u8],
    block: &[u8; 128],
    counter: Counter,
    salt: &[u8; 64],
)
    requires { (form ≡ true) ⊎ (length run.now < block_bytes family) }
    ensures { chain.new ≡ compress_of family (whole_run family salt.now run.now chain.old) block.now counter salt.now }
{
    if form {
        let first = Counter::of((8 * family.block_bytes()) as u64);
        expanded::run_and_block_by_tables(family, chain, run, first, block, counter, salt);
        return;
    }
    chaining::block(form, family, chain, block, counter, salt);
}

// Takes the chain to a message's end: over the whole blocks of `run`, and then over the held bytes, padded. Returns the number of last blocks. It takes the parts
// of a state, since a State handed in is a copy: counted, 180 instructions an event of a log more (docs/DECISIONS.md).
fn close(
    form: bool,
    family: Family,
    m: u16,
    chain: &mut [u32; 16],
    salt: &[u8; 64],
    run: &[u8],
    held: [u8; 128],
    covered: Length,
    last: FitBits,
) -> u64
    requires { (covered.0 ≤ limit) × (all_zero (drop (covered.0 % block_bytes family) held) ≡ true) × ((form ≡ true) ⊎ (length run.now < block_bytes family)) }
    ensures { (chain.new ≡ chain_over family salt.now (ending family m covered.0 (take (covered.0 % block_bytes family) held) last.bits) (whole_run family salt.now run.now chain.old)) × (result ≡ length (ending family m covered.0 (take (covered.0 % block_bytes family) held) last.bits)) }
{
    let bits = last.behind(covered);
    let rest = state::held_bytes(family, covered);
    let rest_bits = last.behind(Length(rest as u64));
    let block = last.put(held, rest);
    if padding::ends_in_one(family, rest_bits) {
        let padded = padding::with_length(block, family, bits, m);
        let counter = Counter::of(padding::last_counter(rest_bits, bits));
        over(form, family, chain, run, &padded, counter, salt);
        return 1;
    }
    over(form, family, chain, run, &block, Counter::of(bits), salt);
    let padded = padding::with_length([0u8; 128], family, bits, m);
    chaining::block(form, family, chain, &padded, Counter::of(0), salt);
    2
}

// The tests of finish, and the digest of what a state covers and of last bits behind it, put to the front of the buffer.
fn report(form: bool, state: State, last: LastBits, out: &mut [u8]) -> Result<Coverage, Refusal>
    ensures result { result ≡ (finish_of state last out.old).answer }
    ensures buffer { out.new ≡ finish_buffer state last out.old }
{
    if !state::consistent(state) {
        return Err(Refusal::StateInconsistent);
    }
    if !last.fits() {
        return Err(Refusal::BitsUnfit);
    }
    if out.len() < bits::digest_bytes(state.m) {
        return Err(Refusal::BufferShort);
    }
    let mut chain = state.chain;
    let count = close(
        form,
        state.family,
        state.m,
        &mut chain,
        &state.salt,
        b"",
        state.held,
        state.covered,
        FitBits { bits: last },
    );
    padding::put_digest(chain, state.m, out);
    let bits = last.count;
    Ok(Coverage {
        covered: state.covered,
        bits,
        blocks: state.compressed + count,
    })
}

// Writes the digest of what a state covers and of last bits behind it to the front of the buffer, m/8 bytes rounded up. The state goes on unchanged.
#[tactic(auto, unfolding(crate::specs::Finish::finish_of))]
pub fn finish(form: bool, state: State, last: LastBits, out: &mut [u8]) -> Finished
    ensures result { result ≡ finish_of state last out.old }
    ensures buffer { out.new ≡ finish_buffer state last out.old }
{
    let answer = report(form, state, last, out);
    Handed { answer, state }
}

// The bytes behind a message's whole blocks, with zeros up to 128.
fn rest_of(bytes: &[u8], from: usize) -> [u8; 128]
    ensures { result ≡ sets (replicate 128 0) 0 (take 128 (drop from bytes.now)) }
{
    fields::filled(fields::part(bytes, from, 128))
}

// The chain over all blocks of a message, by the tables.
fn chained(m: u16, salt: &[u8; 64], start: &[u32; 16], bytes: &[u8], last: FitBits) -> Closed
    requires { length bytes.now ≤ limit }
    ensures { (result.chain ≡ chain_over (family_of m) salt.now (blocks_of (family_of m) m (message_of bytes.now last.bits)) start.now) × (result.count ≡ length (blocks_of (family_of m) m (message_of bytes.now last.bits))) }
{
    let family = Family::of(m);
    let size = family.block_bytes();
    let whole = bytes.len() / size;
    let held = rest_of(bytes, whole * size);
    let covered = Length(bytes.len() as u64);
    let mut chain = *start;
    let count = close(
        form::TABLES,
        family,
        m,
        &mut chain,
        salt,
        bytes,
        held,
        covered,
        last,
    );
    Closed {
        chain,
        count: whole as u64 + count,
    }
}

// The digest of one message from a chain to start from, under a full salt: one-shot behind its start-up.
pub fn hash(
    m: u16,
    salt: &[u8; 64],
    start: &[u32; 16],
    bytes: &[u8],
    last: LastBits,
    out: &mut [u8],
) -> Result<Coverage, Refusal>
    ensures result { result ≡ hash_of m (message_of bytes.now last) out.old }
    ensures buffer { out.new ≡ hash_buffer m salt.now start.now (message_of bytes.now last) out.old }
{
    if !state::is_allowed(m) {
        return Err(Refusal::DigestLength);
    }
    if bytes.len() as u64 > state::LIMIT {
        return Err(Refusal::MessageLimit);
    }
    if !last.fits() {
        return Err(Refusal::BitsUnfit);
    }
    if out.len() < bits::digest_bytes(m) {
        return Err(Refusal::BufferShort);
    }
    let all = chained(m, salt, start, bytes, FitBits { bits: last });
    padding::put_digest(all.chain, m, out);
    Ok(Coverage {
        covered: Length(bytes.len() as u64),
        bits: last.count,
        blocks: all.count,
    })
}

// The text of one check: what the programs print.
#![tactic(auto, using(crate::proofs::Pages::kept_more, std::proofs::Common::append_assoc), unfolding(crate::specs::Printout::spaced, crate::specs::Printout::verdict_text, crate::specs::Printout::register_line, crate::specs::Printout::place_text, crate::specs::Printout::refusal_line, crate::specs::Printout::text_of))]

ghost use Rattle.std.specs.Prelude.{◌≡◌, ◌++◌, length, replicate, Ok};
ghost use Rattle.text.specs.Digits.{decimal_of, hex_of};
ghost use Rattle.text.specs.Place.{placed};
ghost use Rattle.records.specs.Records.{value_at};
ghost use Rattle.bootlog.specs.Check.{check_of, check_buffer};
ghost use Rattle.printout.specs.Page.{kept};
ghost use Rattle.printout.specs.Printout.{verdict_text, register_line, spaced, place_text, refusal_line, text_of, printout_of, print_of};

use answers::Refusal;
use arrayvec::ArrayVec;
use log_answers::{Findings, Refused, Verdict};

// A buffer of so many bytes is never too short for a check's text.
pub const ROOM: usize = 2048;

// A check's text so far.
type Page = ArrayVec<u8, ROOM>;

// Puts as many of the bytes as there is room for, so that no caller has to show that there is any.
#[tactic(auto, using(crate::proofs::Pages::fits, crate::proofs::Pages::fitted))]
fn put(page: &mut Page, bytes: &[u8])
    ensures { page.new.items ≡ kept (page.old.items ++ bytes.now) }
{
    let fitting = text::first(bytes, page.remaining_capacity());
    let _ = page.try_extend_from_slice(fitting);
}

// The digits stand in a buffer of their own, since `text` puts them into a lent one. One function for this and `value` would take a size and a closure, and be no plainer.
#[tactic(auto, using(crate::proofs::Lengths::decimal_short, text::proofs::Storing::digits_there))]
fn number(page: &mut Page, n: usize)
    ensures { page.new.items ≡ kept (page.old.items ++ decimal_of n) }
{
    let mut digits = [0u8; 20];
    let count = text::put_decimal(&mut digits, 0, n as u64);
    put(page, text::first(&digits, count));
}

fn spaced_number(page: &mut Page, n: usize)
    ensures { page.new.items ≡ kept (page.old.items ++ spaced n) }
{
    number(page, n);
    put(page, b" ");
}

// By hand: `Display` promises nothing where a write fails, and `print` promises its answer on every input.
fn verdict(page: &mut Page, found: Verdict)
    ensures { page.new.items ≡ kept (page.old.items ++ verdict_text found) }
{
    match found {
        Verdict::NoClaim => put(page, b"noclaim"),
        Verdict::Agrees => put(page, b"agrees"),
        Verdict::Differs(register) => {
            put(page, b"differs ");
            number(page, register);
        }
    }
}

// The value of a register, two digits a byte.
#[tactic(auto, using(crate::proofs::Lengths::value_short, text::proofs::Storing::digits_there))]
fn value(page: &mut Page, records: &[u8], register: usize)
    ensures { page.new.items ≡ kept (page.old.items ++ hex_of (value_at records.now register)) }
{
    let mut digits = [0u8; 64];
    let count = text::put_hex(&mut digits, 0, records::value_at(records, register));
    put(page, text::first(&digits, count));
}

fn line(page: &mut Page, records: &[u8], register: usize)
    ensures { page.new.items ≡ kept (page.old.items ++ register_line records.now register) }
{
    spaced_number(page, register);
    spaced_number(page, records::extensions_at(records, register));
    value(page, records, register);
    put(page, b"\n");
}

// The end of a refusal's line: its place, where it has one.
fn place_end(page: &mut Page, place: Option<usize>)
    ensures { page.new.items ≡ kept (page.old.items ++ place_text place) }
{
    match place {
        Some(offset) => {
            put(page, b" at ");
            number(page, offset);
            put(page, b"\n");
        }
        None => put(page, b"\n"),
    }
}

fn refusal_line(page: &mut Page, refused: Refused)
    ensures { page.new.items ≡ kept (page.old.items ++ refusal_line refused.refusal refused.place) }
{
    put(page, b"refused ");
    number(page, usize::from(refused.refusal.number()));
    place_end(page, refused.place);
}

// Line 1, and a line for each register.
#[tactic(auto, using(crate::proofs::Pages::kept_more, crate::proofs::Pages::no_lines, crate::proofs::Pages::lines_more, std::proofs::Common::append_assoc))]
fn accepted(page: &mut Page, records: &[u8], found: Findings)
    ensures { page.new.items ≡ kept (page.old.items ++ text_of (Ok found) records.now) }
{
    put(page, b"accepted ");
    spaced_number(page, found.registers);
    spaced_number(page, found.events);
    spaced_number(page, found.blocks);
    verdict(page, found.verdict);
    put(page, b"\n");
    for register in 0..found.registers {
        line(page, records, register);
    }
}

fn compose(page: &mut Page, records: &[u8], checked: Result<Findings, Refused>)
    ensures { page.new.items ≡ kept (page.old.items ++ text_of checked records.now) }
{
    match checked {
        Ok(found) => accepted(page, records, found),
        Err(refused) => refusal_line(page, refused),
    }
}

// The page is lent, and not handed back: each function that handed it back would zero one of its own and copy it.
fn put_check(page: &mut Page, log: &[u8])
    ensures { page.new.items ≡ kept (page.old.items ++ text_of (check_of log.now 816) (check_buffer log.now (replicate 816 0))) }
{
    let mut records = [0u8; bootlog::ROOM];
    let checked = bootlog::check(log, &mut records);
    compose(page, &records, checked);
}

// Checks a log and puts the check's text at the buffer's front: all of it, or nothing where it does not fit.
#[tactic(auto, using(crate::proofs::Bounds::printed), unfolding(crate::specs::Printout::print_of, text::specs::Place::placed))]
pub fn print(log: &[u8], out: &mut [u8]) -> Result<usize, Refusal>
    ensures result { result ≡ print_of log.now (length out.old) }
    ensures buffer { out.new ≡ placed out.old 0 (printout_of log.now) }
{
    let mut page = Page::new();
    put_check(&mut page, log);
    let whole = page.as_slice();
    if out.len() < whole.len() {
        return Err(Refusal::BufferShort);
    }
    text::put(out, 0, whole);
    Ok(whole.len())
}

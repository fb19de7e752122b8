// What finish and one-shot report.
#![tactic(auto)]

ghost use Rattle.std.specs.Prelude.{◌≡◌};
ghost use Rattle.reports.specs.Report.{report_number, report_covered, report_bits, report_blocks};

use answers::Refusal;

// The message length in whole bytes: a type of its own, apart from the bit counter.
#[derive(Clone, Copy, Debug, PartialEq, Eq)]
pub struct Length(pub u64);

// What a digest covers: whole bytes and last bits, and blocks compressed with padding included.
#[derive(Clone, Copy, Debug, PartialEq, Eq)]
pub struct Coverage {
    pub covered: Length,
    pub bits: u8,
    pub blocks: u64,
}

// 0 where the call is accepted.
pub fn number(report: Result<Coverage, Refusal>) -> u8
    ensures { result ≡ report_number report }
{
    answers::number(report)
}

// Whole bytes covered: 0 on a refusal.
pub fn covered(report: Result<Coverage, Refusal>) -> u64
    ensures { result ≡ report_covered report }
{
    report.map_or(0, |coverage| coverage.covered.0)
}

// Last bits covered: 0 on a refusal.
pub fn bits(report: Result<Coverage, Refusal>) -> u8
    ensures { result ≡ report_bits report }
{
    report.map_or(0, |coverage| coverage.bits)
}

// Blocks compressed: 0 on a refusal.
pub fn blocks(report: Result<Coverage, Refusal>) -> u64
    ensures { result ≡ report_blocks report }
{
    report.map_or(0, |coverage| coverage.blocks)
}

// Prints every value that source 003 prints, computed: master values, starting values and appendix digests, one a line, as words in
// upper-case hex. Four lines follow with what the rule gives where the appendix departs from it.
#![tactic(auto)]

mod lines;
mod messages;
mod states;

use family::Family;
use lines::{Label, Words};
use messages::Message;
use std::io;

// A family's master value, by the family's longest length, and the starting values of its lengths.
fn family_lines(rt: &impl Print, longest: u16, lengths: &[u16]) -> io::Result<()> {
    let family = Family::of(longest);
    let count = family.chain_words();
    let words = starting::master_value(family);
    println!(rt; "MIV_{longest}{}", Words { words, count })?;
    for m in lengths {
        let words = starting::starting_value(form::TABLES, family, *m);
        println!(rt; "IV_{m}{}", Words { words, count })?;
    }
    Ok(())
}

// Whether they are salted is a value of the label, which the start of the digest goes by too.
fn digest_lines(rt: &impl Print, m: u16, salted: bool) -> io::Result<()> {
    for message in [
        Message::Empty,
        Message::A,
        Message::Alphabet,
        Message::Million,
    ] {
        let label = Label { m, salted, message };
        let start = states::started_as_printed(m, salted);
        let words = states::ended_as_printed(messages::added(start, message), message);
        let count = states::word_count(m);
        println!(rt; "{label}{}", Words { words, count })?;
    }
    Ok(())
}

// Salted or not, as the label says.
fn rule_line(rt: &impl Print, m: u16, salted: bool) -> io::Result<()> {
    let message = Message::Million;
    let label = Label { m, salted, message };
    let start = states::started_by_rule(m, salted);
    let words = states::ended_by_rule(messages::added(start, message));
    let count = states::word_count(m);
    println!(rt; "{label} by the rule{}", Words { words, count })
}

fn appendix_lines(rt: &impl Print) -> io::Result<()> {
    for m in [224, 256, 384, 512] {
        digest_lines(rt, m, false)?;
        digest_lines(rt, m, true)?;
    }
    Ok(())
}

fn main(rt: HostRuntime) -> io::Result<()> {
    family_lines(&rt, 256, &[160, 224, 256])?;
    family_lines(&rt, 512, &[384, 512])?;
    appendix_lines(&rt)?;
    for m in [224, 256] {
        rule_line(&rt, m, false)?;
        rule_line(&rt, m, true)?;
    }
    Ok(())
}

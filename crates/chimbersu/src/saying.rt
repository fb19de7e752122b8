// What is said on standard error, and what goes to standard output.
use std::io;

// For whoever gave no words, or an unknown command.
pub(crate) fn help(rt: &HostRuntime) -> io::Result<()> {
    help_write(rt)?;
    help_mac(rt)
}

pub(crate) fn help_write(rt: &HostRuntime) -> io::Result<()> {
    let to = rt.stderr();
    to.write_all(b"usage: chimbersu write REGISTERS EVENTS [--salt HEX] [--claims]\n")?;
    to.write_all(
        b"REGISTERS and EVENTS are files: 1 to 24 starting registers of 32 bytes, up to 1,024 events of 36.\n",
    )?;
    to.write_all(b"The boot log goes to standard output. A refusal is the line 'refused N' here.\n")
}

pub(crate) fn help_mac(rt: &HostRuntime) -> io::Result<()> {
    let to = rt.stderr();
    to.write_all(b"usage: chimbersu mac KEYFILE [M] [--check TAG-HEX]\n")?;
    to.write_all(
        b"KEYFILE holds a key of up to 65,535 bytes. The message is standard input. M is the tag's length in bits, 256 where it is not given.\n",
    )?;
    to.write_all(
        b"The tag and the message's bytes go to standard output; with --check, yes or no. A refusal is the line 'refused N' here.\n",
    )
}

pub(crate) fn complain(rt: &HostRuntime, message: &str) -> io::Result<()> {
    eprintln!(rt; "chimbersu: {message}")
}

pub(crate) fn refuse(rt: &HostRuntime, number: u8) -> io::Result<()> {
    streaming::print_refusal(&rt.stderr(), number)
}

// Where standard output could not be written, that is said.
pub(crate) fn printed(rt: &HostRuntime, written: io::Result<()>) -> io::Result<()> {
    written.or_else(|error| command_line::fail(&rt.stderr(), b"standard output", &error))
}

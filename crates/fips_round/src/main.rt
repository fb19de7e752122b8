// Prints the state after round 1 of FIPS 197's appendix B, column by column; the file stdout holds the standard's printed bytes.
#![tactic(auto)]

use std::io;

fn main(rt: HostRuntime) -> io::Result<()> {
    let start = [
        [0x19, 0x3d, 0xe3, 0xbe],
        [0xa0, 0xf4, 0xe2, 0x2b],
        [0x9a, 0xc6, 0x8d, 0x2a],
        [0xe9, 0xf8, 0x48, 0x08],
    ];
    let key = [
        [0xa0, 0xfa, 0xfe, 0x17],
        [0x88, 0x54, 0x2c, 0xb1],
        [0x23, 0xa3, 0x39, 0x39],
        [0x2a, 0x6c, 0x76, 0x05],
    ];
    for [a, b, c, d] in aes::round(start, key) {
        println!(rt; "{a:02x} {b:02x} {c:02x} {d:02x}")?;
    }
    Ok(())
}

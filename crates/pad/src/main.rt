// The program `pad`: reads from standard input a sheet that is written by hand, and prints it with its numbers in their columns.
#![tactic(auto)]

use std::io::{self, Print};
use text::Text;

// Prints the sheet that a text says, where it is no longer than a sheet may be.
fn print_padded(rt: &HostRuntime, short: &[u8]) -> io::Result<()> {
    let mut sheet = [0u8; 65536];
    let t = padding::pad(short, Text::at(0), &mut sheet);
    if sheet.len() < t.fill() {
        return rt
            .stderr()
            .write_all(b"pad: the sheet is longer than 65536 bytes\n");
    }
    let n = programs::filled(t, &sheet);
    if rt.write_all(&sheet[..n]).is_err() {
        return rt
            .stderr()
            .write_all(b"pad: cannot write standard output\n");
    }
    Ok(())
}

fn main(rt: HostRuntime) -> io::Result<()> {
    // One byte more than a sheet may have: a longer one is then known to be longer.
    let mut short = [0u8; 65537];
    let Ok(n) = programs::read_input(&rt, &mut short) else {
        return rt.stderr().write_all(b"pad: cannot read standard input\n");
    };
    if 65536 < n {
        return rt
            .stderr()
            .write_all(b"pad: the sheet is longer than 65536 bytes\n");
    }
    print_padded(&rt, &short[..n])
}

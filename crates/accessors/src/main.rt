// The program `accessors`: reads a sheet from standard input and prints its parts, or its refusal.
#![tactic(auto)]

use std::io::{self, Print};

fn main(rt: HostRuntime) -> io::Result<()> {
    // One byte more than a sheet may have: a longer one is then known to be longer.
    let mut sheet = [0u8; 65537];
    let Ok(n) = programs::read_input(&rt, &mut sheet) else {
        return rt
            .stderr()
            .write_all(b"accessors: cannot read standard input\n");
    };
    if parts::print_sheet(&rt, &sheet[..n]).is_err() {
        return rt
            .stderr()
            .write_all(b"accessors: cannot write standard output\n");
    }
    Ok(())
}

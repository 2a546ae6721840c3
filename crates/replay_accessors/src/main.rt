// Replays what `accessors` prints: reads sheets from standard input, each after a line with its length in decimal, and prints
// for each what `accessors` prints for it. The files stdin and stdout beside src/ are written by the comparison in oracle/, by
// capnpc's own functions.
#![tactic(auto)]

use std::io::{self, Print};

fn main(rt: HostRuntime) -> io::Result<()> {
    let mut sheets = [0u8; 65536];
    let Ok(n) = programs::read_input(&rt, &mut sheets) else {
        return rt
            .stderr()
            .write_all(b"replay_accessors: cannot read standard input\n");
    };
    if programs::each_sheet(&sheets[..n], |s| parts::print_sheet(&rt, s)).is_err() {
        return rt
            .stderr()
            .write_all(b"replay_accessors: cannot write standard output\n");
    }
    Ok(())
}

// Replays what sheets are: reads sheets from standard input, each after a line with its length in decimal, and writes for each
// a line with its refusal's number, line and column, `0 0 0` for a sheet that is admitted. The files stdin and stdout beside src/
// are written by the comparison in oracle/, by its own reader of sheets.
#![tactic(auto)]

use sheet::Refused;
use std::io::{self, Print};
use text::Text;

// A number and a byte after it.
fn put(n: u64, end: u8, t: Text, buf: &mut [u8]) -> Text {
    let t = t.number(buf, n);
    t.byte(buf, end)
}

// Prints a sheet's line: its refusal's number, line and column, or zeros.
fn print_line(
    rt: &HostRuntime,
    number: u64,
    line: usize,
    column: usize,
    buf: &mut [u8],
) -> io::Result<()> {
    let t = put(number, b' ', Text::at(0), buf);
    let t = put(line as u64, b' ', t, buf);
    let t = put(column as u64, b'\n', t, buf);
    let n = programs::filled(t, buf);
    rt.write_all(&buf[..n])
}

// Prints the line of a sheet's bytes.
fn print_sheet(rt: &HostRuntime, s: &[u8], buf: &mut [u8]) -> io::Result<()> {
    let mut none = [0u64; 0];
    match sheet::admit(s, &mut none) {
        Ok(()) => print_line(rt, 0, 0, 0, buf),
        Err(
            Refused {
                refusal,
                line,
                column,
            },
        ) => print_line(rt, refusal.number(), line, column, buf),
    }
}

fn main(rt: HostRuntime) -> io::Result<()> {
    let mut sheets = [0u8; 65536];
    let Ok(n) = programs::read_input(&rt, &mut sheets) else {
        return rt
            .stderr()
            .write_all(b"replay_sheets: cannot read standard input\n");
    };
    let mut buf = [0u8; 4096];
    programs::each_sheet(&sheets[..n], |s| print_sheet(&rt, s, &mut buf))
}

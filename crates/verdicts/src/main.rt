// The program `verdicts`: reads a sheet from standard input, and prints of each slot with bits whether its setter and its getters
// agree, or prints the sheet's refusal.
#![tactic(auto)]

use std::io::{self, Print};
use verdict::Report;

// Prints both parts of a report, one after the other, which is `report_text` of the sheet. That they are printed so is outside
// the proof, as the call that writes is.
fn print_parts(rt: &HostRuntime, report: Report, first: &[u8], second: &[u8]) -> io::Result<()> {
    let n = programs::filled(report.first, first);
    let m = programs::filled(report.second, second);
    rt.write_all(&first[..n])?;
    rt.write_all(&second[..m])
}

// Prints the report of a sheet. A slot's line is shorter than its rows, and the last line than those of R and of the first N, so
// both parts have room.
fn print_report(rt: &HostRuntime, sheet: &[u8]) -> io::Result<()> {
    let mut first = [0u8; 65536];
    let mut second = [0u8; 65536];
    let report = verdict::write_report(sheet, &mut first, &mut second);
    if first.len() < report.first.fill() || second.len() < report.second.fill() {
        return rt.stderr().write_all(
            b"verdicts: a part of the report is longer than 65536 bytes\n",
        );
    }
    if print_parts(rt, report, &first, &second).is_err() {
        return rt
            .stderr()
            .write_all(b"verdicts: cannot write standard output\n");
    }
    Ok(())
}

fn main(rt: HostRuntime) -> io::Result<()> {
    // One byte more than a sheet may have: a longer one is then known to be longer.
    let mut sheet = [0u8; 65537];
    let Ok(n) = programs::read_input(&rt, &mut sheet) else {
        return rt
            .stderr()
            .write_all(b"verdicts: cannot read standard input\n");
    };
    print_report(&rt, &sheet[..n])
}

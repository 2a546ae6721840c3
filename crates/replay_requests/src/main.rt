// Replays single requests through the static library's entry: reads sheets from standard input, each after a line with its
// length in decimal and before its requests, which stand after a line with theirs. A request is a letter and seven numbers in 21
// columns each: the node's id, the place, the request's number, the leaf, the level, the fill count, and the length of a buffer
// of points. Its answer is printed as the refusal's number, its line, its column and the fill count afterwards, and then the
// whole buffer. The files stdin and stdout beside src/ are written by the comparison in oracle/, by capnpc's own functions.
#![tactic(auto)]

use programs::Sheet;
use std::io::{self, ErrorKind, Print};
use text::Text;

// The number in the columns from a place on; 0 where there is none.
fn number(asked: &[u8], at: usize) -> u64 {
    column::column(asked, at, 0, u64::MAX).unwrap_or(0)
}

// Prints four numbers as a line.
fn print_numbers(
    rt: &HostRuntime,
    refusal: u64,
    line: usize,
    column: usize,
    fill: usize,
) -> io::Result<()> {
    let mut buf = [0u8; 4096];
    let t = Text::at(0).number(&mut buf, refusal);
    let t = t.byte(&mut buf, b' ');
    let t = t.number(&mut buf, line as u64);
    let t = t.byte(&mut buf, b' ');
    let t = t.number(&mut buf, column as u64);
    let t = t.byte(&mut buf, b' ');
    let t = t.number(&mut buf, fill as u64);
    let t = t.byte(&mut buf, b'\n');
    let n = programs::filled(t, &buf);
    rt.write_all(&buf[..n])
}

// Prints the answer to a request over a buffer.
fn print_answer(rt: &HostRuntime, sheet: &[u8], asked: &[u8], buf: &mut [u8]) -> io::Result<()> {
    let mut fill = number(asked, 106) as usize;
    let mut line: usize = 0;
    let mut column: usize = 0;
    let refusal = exports::kitlubas_answer(
        sheet,
        number(asked, 1),
        number(asked, 22),
        number(asked, 43),
        number(asked, 64),
        number(asked, 85) as usize,
        &mut fill,
        &mut line,
        &mut column,
        buf,
    );
    print_numbers(rt, refusal, line, column, fill)?;
    rt.write_all(buf)?;
    rt.write_all(b"\n")
}

// Prints the answer to a request over as much of a buffer as it asks for; it is an error where there is less.
fn print_part(rt: &HostRuntime, sheet: &[u8], asked: &[u8], buf: &mut [u8]) -> io::Result<()> {
    let size = number(asked, 127) as usize;
    if buf.len() < size {
        return Err(io::Error::from(ErrorKind::InvalidInput));
    }
    print_answer(rt, sheet, asked, &mut buf[..size])
}

// Prints the answer to a request over points, at most 4,096.
fn print_request(rt: &HostRuntime, sheet: &[u8], asked: &[u8]) -> io::Result<()> {
    let mut points = [b'.'; 4096];
    print_part(rt, sheet, asked, &mut points)
}

// Prints the answers to the requests of a sheet.
fn replay_requests(rt: &HostRuntime, sheet: &[u8], requests: &[u8]) -> io::Result<()> {
    for request in requests.split_inclusive(|&b| b == b'\n') {
        print_request(rt, sheet, request)?;
    }
    Ok(())
}

// Prints the answers for each sheet.
fn replay(rt: &HostRuntime, input: &[u8]) -> io::Result<()> {
    // No iterator of std: where a sheet and its requests end stands in the lines before them.
    let mut at = 0;
    while at < input.len() {
        let Sheet { start, end } = programs::next_sheet(input, at);
        let requests = programs::next_sheet(input, end);
        replay_requests(rt, &input[start..end], &input[requests.start..requests.end])?;
        at = requests.end;
    }
    Ok(())
}

fn main(rt: HostRuntime) -> io::Result<()> {
    let mut input = [0u8; 131072];
    let Ok(n) = programs::read_input(&rt, &mut input) else {
        return rt
            .stderr()
            .write_all(b"replay_requests: cannot read standard input\n");
    };
    if replay(&rt, &input[..n]).is_err() {
        return rt
            .stderr()
            .write_all(b"replay_requests: not all answers were printed\n");
    }
    Ok(())
}

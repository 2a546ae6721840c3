// What the programs share: reading standard input, the lines and sheets of an input, and how much of a buffer a text state has
// filled. Each program has a `main` of its own: one for all, over the size of its buffer as a const parameter, would take each
// message and what is done with the input as arguments, and whether a failed write is a message or the error itself.
#![tactic(auto)]

ghost use Rattle.std.specs.Prelude.{◌≡◌, ◌+◌, ◌≤◌, min, max, length};
ghost use Rattle.std.specs.Fn.{TakesAt, CalledAt};
ghost use Rattle.io.specs.Counts.{IsPrefixLen};
ghost use Rattle.programs.specs.Input.{WasRead, line_end, digit_of, decimal_of, sheet_after};
ghost use Rattle.programs.specs.Input.{sheets_of, CallableUpToErr, CalledUpToErr};

use std::io::{self, ErrorKind, Read};
use text::Text;

// How often a read that a signal interrupted is tried again.
const TRIES: usize = 4096;

// Where a sheet starts and ends among others. It is no `row::Span`, as this crate stands over texts alone.
#[derive(Clone, Copy)]
pub struct Sheet {
    pub start: usize,
    pub end: usize,
}

// Reads standard input to its end, or until the buffer is full. So many bytes at the start of the buffer were read.
pub fn read_input(rt: &HostRuntime, buf: &mut [u8]) -> io::Result<usize>
    ensures { WasRead result buf.new }
{
    let mut n: usize = 0;
    let mut tries = TRIES;
    // How much is read is what each read answers.
    while n < buf.len() {
        match rt.stdin().read(&mut buf[n..]) {
            Ok(0) => return Ok(n),
            Ok(m) => n += m,
            Err(e) => {
                if tries == 0 || e.kind() != ErrorKind::Interrupted {
                    return Err(e);
                }
                tries -= 1;
            }
        }
    }
    Ok(n)
}

// The first byte 10 from a place on, or the end; a place past the end as it is.
pub fn line_end(s: &[u8], from: usize) -> usize
    ensures end { result ≡ line_end s.now from }
    ensures within { (from ≤ result) × (result ≤ max from (length s.now)) }
{
    if s.len() <= from {
        return from;
    }
    let rest = &s[from..];
    let line = rest.iter().position(|&b| b == b'\n');
    from + line.unwrap_or(rest.len())
}

// What a decimal digit counts; 0 for any other byte.
fn digit(b: u8) -> usize
    ensures { result ≡ digit_of b }
{
    match b {
        b'0'..=b'9' => usize::from(b - b'0'),
        _ => 0,
    }
}

// The number of the last seven digits; a byte that is no digit counts as 0.
fn number(digits: &[u8]) -> usize
    ensures { result ≡ decimal_of digits.now }
{
    let mut n: usize = 0;
    for &b in digits {
        n = n % 1000000 * 10 + digit(b);
    }
    n
}

// The sheet after the line at a place, which has the sheet's length in decimal; all that is left where that is less.
// From a place inside the input it ends past that place, and not past the input.
pub fn next_sheet(s: &[u8], from: usize) -> Sheet
    ensures sheet { result ≡ sheet_after s.now from }
    ensures within { (min (from + 1) (length s.now) ≤ result.end) × (result.start ≤ result.end)
        × (result.end ≤ max from (length s.now)) }
{
    let line = line_end(s, from);
    if s.len() <= line {
        return Sheet {
            start: line,
            end: line,
        };
    }
    let start = line + 1;
    let size = number(&s[from..line]).min(s.len() - start);
    Sheet {
        start,
        end: start + size,
    }
}

// Hands each sheet of an input to a function, one after the other, up to the first error. A sheet says itself where the next one
// begins, so no iterator of std goes through them.
pub fn each_sheet<F: FnMut(&[u8]) -> io::Result<()>>(input: &[u8], mut f: F) -> io::Result<()>
    requires { CallableUpToErr (TakesAt F.FnMut) (CalledAt F.FnMut) f (sheets_of input.now) }
    ensures { CalledUpToErr (CalledAt F.FnMut) f (sheets_of input.now) result }
{
    let mut at = 0;
    while at < input.len() {
        let Sheet { start, end } = next_sheet(input, at);
        f(&input[start..end])?;
        at = end;
    }
    Ok(())
}

// How much of the buffer is filled: the fill count, or the buffer's length where a text did not fit.
pub fn filled(t: Text, buf: &[u8]) -> usize
    ensures count { result ≡ min t.at (length buf.now) }
    ensures part { IsPrefixLen result buf.now }
{
    t.fill().min(buf.len())
}

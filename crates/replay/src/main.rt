// Replays answers of the Rust: reads cases from standard input, one a line, and writes the answer to each. The files stdin and
// stdout beside src/ are written by the comparison in oracle/, which says how. A case is a letter and, after a space, what it
// is about:
//
//     s, c, m   a name: in snake case, its default's constant, as a module
//     u         a number, as 16 hex digits
//     h i j k   the bits of a signed number, as 2, 4, 8 and 16 hex digits
//     0 to 9    a line's text, at that indent
//     b, z      nothing: a blank line, and no lines at all
//
// Each answer ends with byte 10.
#![tactic(auto)]

ghost use Rattle.std.specs.Prelude.{◌<◌};

use std::io::{self, Print};
use text::Text;

// What a hex digit counts; 0 for any other byte.
fn hex_digit(b: u8) -> u64
    ensures { result < 16 }
{
    match b {
        b'0'..=b'9' => u64::from(b - b'0'),
        b'a'..=b'f' => u64::from(b - b'a' + 10),
        _ => 0,
    }
}

// The number of the last 16 hex digits.
fn hex(digits: &[u8]) -> u64 {
    let mut n: u64 = 0;
    for &b in digits {
        n = n % 0x1000_0000_0000_0000 * 16 + hex_digit(b);
    }
    n
}

// A name or a number.
fn leaf(letter: u8, about: &[u8], t: Text, buf: &mut [u8]) -> Text {
    match letter {
        b's' => names::snake_name(about, t, buf),
        b'c' => names::default_name(about, t, buf),
        b'm' => names::module_name(about, t, buf),
        b'u' => t.number(buf, hex(about)),
        b'h' => t.signed(buf, 0x80, hex(about) % 0x100),
        b'i' => t.signed(buf, 0x8000, hex(about) % 0x1_0000),
        b'j' => t.signed(buf, 0x8000_0000, hex(about) % 0x1_0000_0000),
        b'k' => t.signed(buf, 0x8000_0000_0000_0000, hex(about)),
        _ => t,
    }
}

// The text of a case: of a line with an indentation, an empty line, no lines, or a name or a number in a line of its own.
fn answer(letter: u8, about: &[u8], t: Text, buf: &mut [u8]) -> Text {
    match letter {
        b'0'..=b'9' => t.line(buf, usize::from(letter - b'0'), about),
        b'b' => t.blank_line(buf),
        b'z' => t.no_lines(buf),
        _ => {
            let t = leaf(letter, about, t, buf);
            t.byte(buf, b'\n')
        }
    }
}

// Prints the text of a case.
fn print_answer(rt: &HostRuntime, letter: u8, about: &[u8], buf: &mut [u8]) -> io::Result<()> {
    let t = answer(letter, about, Text::at(0), buf);
    let n = programs::filled(t, buf);
    rt.write_all(&buf[..n])
}

// Prints a case, a letter and what it is about, with a byte between them; an empty line is none.
fn print_case(rt: &HostRuntime, case: &[u8], buf: &mut [u8]) -> io::Result<()> {
    match case {
        [] => Ok(()),
        [letter] => print_answer(rt, *letter, b"", buf),
        [letter, _, about @ ..] => print_answer(rt, *letter, about, buf),
    }
}

// Prints the cases, a line each.
fn replay(rt: &HostRuntime, cases: &[u8], buf: &mut [u8]) -> io::Result<()> {
    for case in cases.split(|&b| b == b'\n') {
        print_case(rt, case, buf)?;
    }
    Ok(())
}

fn main(rt: HostRuntime) -> io::Result<()> {
    let mut cases = [0u8; 65536];
    let Ok(n) = programs::read_input(&rt, &mut cases) else {
        return rt
            .stderr()
            .write_all(b"replay: cannot read standard input\n");
    };
    let mut buf = [0u8; 4096];
    replay(&rt, &cases[..n], &mut buf)
}

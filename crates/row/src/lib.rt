// Rows of a sheet: where a row ends, what it says, and the text that it has. A position stands as a number beside the bytes, as
// it goes to C and to the index as one. `next` says what a row says, or its fault. Past a row goes `row_end`; past one whose kind
// is known `part`, and past several `unbound_run`; past a good one of its kind `past_parameter` and `past_word`, which give none
// elsewhere.
#![tactic(auto)]

mod ends;
mod lines;
mod parts;

ghost use Rattle.std.specs.Prelude.{◌≡◌, [], ◌∷◌, ◌++◌, ◌+◌, ◌-◌, ◌*◌, ◌≤◌, ◌<◌, take, drop, length};
ghost use Rattle.std.specs.Prelude.{eqb, None, Some};
ghost use Rattle.row.specs.Rows.{row_len, rows, joined, rest_of, line_no, unbound_rows};
ghost use Rattle.row.specs.Fours.{fours};
ghost use Rattle.row.specs.Line.{line_said, reader, line_at, text_start, text_at};
ghost use Rattle.row.specs.Past.{PastParameter, PastWord};
ghost use Rattle.row.specs.Stop.{ReadTo};
ghost use Rattle.text.specs.Bytes.{Str, cond};
ghost use Rattle.row.specs.Span.{SpanWithin, spanned, span_to, span_between, text_between};

use ends::newline_at;
pub use ends::{find_newline, row_end, singly};
use lines::{NO_LINE, read};
pub use parts::part;
use terms::{Kind, Refusal};

// Two U rows.
const TWO_UNBOUND: [u8; 4] = *b"U\nU\n";

// How many bytes a W row has: its letter, its number's columns and byte 10.
const WORD_BYTES: usize = 23;

// What a row says. Its flags are numbers, as C and the index hold them.
#[derive(Clone, Copy)]
pub enum Line {
    // R: the root stands as its text.
    Root,
    // N: the module stands as its text.
    Node {
        id: u64,
        parent: u64,
        scope: u64,
        is_struct: u64,
        generic: u64,
        tag_count: u64,
        tag_offset: u64,
    },
    // P: the parameter stands as its text.
    Parameter,
    // F: the field's name stands as its text.
    Field {
        offset: u64,
        discriminant: u64,
        explicit: u64,
        option: u64,
    },
    // G: the field's name stands as its text.
    Group {
        id: u64,
        discriminant: u64,
    },
    // T
    Typ {
        kind: Kind,
        a: u64,
        b: u64,
        c: u64,
    },
    // S: how many bindings, under bind; none under inherit.
    Scope {
        id: u64,
        bindings: Option<u64>,
    },
    // U
    Unbound,
    // V
    Value {
        kind: Kind,
        bits: u64,
    },
    // W
    Word {
        value: u64,
    },
}

// A line that is bad: its letter, why, and the column, from 1. Where no line with a letter of a sheet stands, a last one lacks
// byte 10, or the sheet has ended, the letter is 0, and it is a bad line at column 1.
#[derive(Clone, Copy)]
pub struct BadLine {
    pub letter: u8,
    pub refusal: Refusal,
    pub column: usize,
}

// What the row at a position says, and where the next row starts.
#[derive(Clone, Copy)]
pub struct Got {
    pub line: Result<Line, BadLine>,
    pub next: usize,
}

// How many types, scopes or bindings belong to a row, and where the next row starts. No struct over any type serves for this and
// `Got`, as the field's name says what is counted.
#[derive(Clone, Copy)]
pub struct Owing {
    pub owed: u64,
    pub next: usize,
}

// Where a text stands: from a position up to another.
#[derive(Clone, Copy)]
pub struct Span {
    pub start: usize,
    pub end: usize,
}

// The least bytes that a good line with a letter has. Where a byte 10 stands before that, the fault is the same whether the line
// is read up to it or further.
fn least_length(letter: u8) -> usize
    ensures { (u w : Str) → 0 < length u → length u < result → reader letter u ≡ reader letter (u ++ 10 ∷ w) }
{
    match letter {
        b'R' => 3,
        b'N' => 150,
        b'P' => 3,
        b'F' => 87,
        b'G' => 45,
        b'T' => 85,
        b'S' => 64,
        b'U' => 1,
        b'V' => 43,
        b'W' => 22,
        _ => 0,
    }
}

// Where the byte 10 stands up to which the line at a position is read, none where there is none. A good line has at least the
// bytes of its letter, so that the first byte 10 behind them ends it; and a row that ends before that has the same fault when it
// is read further.
fn read_to(s: &[u8], at: usize) -> Option<usize>
    requires { at < length s.now }
    ensures { ReadTo s.now at result }
{
    let k = least_length(s[at]);
    if k < s.len() - at {
        if let Some(z) = newline_at(s, at + k) {
            return Some(z);
        }
    }
    find_newline(s, at)
}

// The row at a position; past the end stands no line, and no row follows.
pub fn next(s: &[u8], at: usize) -> Got
    ensures line_value { line_said result.line ≡ line_at (rows (drop at s.now)) }
    ensures s_value { rows (drop result.next s.now) ≡ rest_of (rows (drop at s.now)) }
{
    if s.len() <= at {
        return Got {
            line: Err(NO_LINE),
            next: at,
        };
    }
    let Some(z) = read_to(s, at) else {
        return Got {
            line: Err(NO_LINE),
            next: s.len(),
        };
    };
    let line = read(&s[at..z], s[at]);
    match line {
        Ok(_) => Got { line, next: z + 1 },
        Err(_) => Got {
            line,
            next: row_end(s, at),
        },
    }
}

// Where the text of a line with a letter begins, after its numbers and a space; none for a line without a text, where the
// definition says 0.
#[tactic(auto, unfolding(crate::specs::Line::text_start))]
fn text_start(letter: u8) -> Option<usize>
    ensures { result ≡ cond (eqb (text_start letter) 0) None (Some (text_start letter)) }
{
    match letter {
        b'R' => Some(2),
        b'N' => Some(149),
        b'P' => Some(2),
        b'F' => Some(86),
        b'G' => Some(44),
        _ => None,
    }
}

// Where the text of the row from `at` to `e` stands.
#[tactic(auto, unfolding(crate::specs::Span::span_to))]
fn span_to(s: &[u8], at: usize, e: usize) -> Span
    requires { (at < e) × (e ≤ length s.now) }
    ensures within { SpanWithin s.now result }
    ensures is { result ≡ span_to s.now at e }
{
    let z = e - 1;
    match text_start(s[at]) {
        Some(k) if k <= z - at => Span {
            start: at + k,
            end: z,
        },
        _ => Span { start: 0, end: 0 },
    }
}

// The root, module, parameter or field name of the row at a position: the caller's own bytes.
#[tactic(auto, using(crate::proofs::Laws::text_out))]
pub fn text(s: &[u8], at: usize) -> &[u8]
    ensures { result.now ≡ text_at (rows (drop at s.now)) }
{
    if s.len() <= at {
        return &s[..0];
    }
    let Span { start, end } = span_to(s, at, row_end(s, at));
    &s[start..end]
}

// Where the text of the row at a position stands if the next row begins at `next`: no end is sought.
#[tactic(auto, using(crate::proofs::SpanLaws::between))]
pub fn text_span(s: &[u8], at: usize, next: usize) -> Span
    ensures within { SpanWithin s.now result }
    ensures text { rows (drop next s.now) ≡ rest_of (rows (drop at s.now))
        → spanned s.now result ≡ text_at (rows (drop at s.now)) }
    ensures is { result ≡ span_between s.now at next }
{
    let e = next.min(s.len());
    if e <= at {
        return Span { start: 0, end: 0 };
    }
    span_to(s, at, e)
}

// That text: the caller's own bytes.
pub fn text_before(s: &[u8], at: usize, next: usize) -> &[u8]
    ensures text { rows (drop next s.now) ≡ rest_of (rows (drop at s.now))
        → result.now ≡ text_at (rows (drop at s.now)) }
    ensures is { result.now ≡ text_between s.now at next }
{
    let Span { start, end } = text_span(s, at, next);
    &s[start..end]
}

// How many twos of U rows stand in front. By single rows it takes 2.8 times as many instructions.
#[tactic(auto, using(crate::proofs::UnboundLaws::fours_within), unfolding(crate::specs::Fours::fours))]
fn twos_in_front(t: &[u8]) -> usize
    ensures within { 4 * result ≤ length t.now }
    ensures is { result ≡ fours (85 ∷ 10 ∷ 85 ∷ 10 ∷ []) t.now }
{
    let (twos, _) = t.as_chunks::<4>();
    twos.iter().take_while(|&&two| two == TWO_UNBOUND).count()
}

// How many U rows stand in front: by twos, and a last one singly.
#[tactic(auto, using(crate::proofs::UnboundLaws::front_twos))]
fn unbound_front(t: &[u8]) -> usize
    ensures within { 2 * result ≤ length t.now }
    ensures rows { take (2 * result) t.now ≡ joined (unbound_rows result) }
{
    let n = 2 * twos_in_front(t);
    match &t[2 * n..] {
        [b'U', b'\n', ..] => n + 1,
        _ => n,
    }
}

// How many U rows stand one after the other from a position on, as far as they were looked at: no more than `most`.
pub fn unbound_run(s: &[u8], at: usize, most: u64) -> u64
    ensures few { result ≤ most }
    ensures within { 0 < result → at + 2 * result ≤ length s.now }
    ensures rows { rows (drop at s.now) ≡ unbound_rows result ++ rows (drop (at + 2 * result) s.now) }
{
    if s.len() <= at || s[at] != b'U' {
        return 0;
    }
    let few = most.min(((s.len() - at) / 2) as u64) as usize;
    unbound_front(&s[at..at + 2 * few]) as u64
}

// Where the row after the P row at a position begins; none where no good one stands there. Its name is read up to its end, which
// is not sought first.
pub fn past_parameter(s: &[u8], at: usize) -> Option<usize>
    ensures { PastParameter s.now at result }
{
    if s.len() <= at || s[at] != b'P' {
        return None;
    }
    let end = column::name_end(s, at + 1)?;
    Some(end + 1)
}

// Where the row after the W row at a position begins; none where no good one stands there. All W rows are of one length, so that
// no end is sought.
pub fn past_word(s: &[u8], at: usize) -> Option<usize>
    ensures { PastWord s.now at result }
{
    let row = s.get(at..)?.first_chunk::<WORD_BYTES>()?;
    if row[0] != b'W' || row[WORD_BYTES - 1] != b'\n' {
        return None;
    }
    column::column(row, 1, 0, u64::MAX)?;
    Some(at + WORD_BYTES)
}

// The number, from 1, of the row that starts at a position.
pub fn line_number(s: &[u8], at: usize) -> usize
    ensures { result ≡ line_no s.now (rows (drop at s.now)) }
{
    let front = &s[..at.min(s.len())];
    1 + front.iter().filter(|&&b| b == b'\n').count()
}

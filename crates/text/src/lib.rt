// Text into a lent buffer, by a state that is passed by value. Every writer has one contract: the buffer and the state
// afterwards are those after its text (`Wrote`), which for lines hangs on the state's level (`WroteLines`). Over an empty buffer
// the same writer measures.
#![tactic(auto)]

ghost use Rattle.std.specs.Prelude.{◌≡◌, [], ◌+◌, ◌++◌, ◌-◌, ◌*◌, ◌^◌, ◌<◌, ◌≤◌, min, length};
ghost use Rattle.text.specs.Bytes.{unit, cond};
ghost use Rattle.text.specs.Decimal.{decimal, signed};
ghost use Rattle.text.specs.Lines.{Line, BlankLine, Branch, none, spaces, margin, broken, to_lines, stringify, ended};
ghost use Rattle.text.specs.Levels.{StringifyMovesHolds};
ghost use Rattle.text.specs.Text.{Wrote, WroteLines, state_at, state_at_level, with_fill};

// Where the next byte goes: the fill count. Past the end of the buffer bytes are counted and not written, and the count
// stops at the largest usize. Beside it stands the level of indentation at which lines begin, which no writer changes.
//
// The buffer is no field of it. After a refusal the state of before is still there (the chain of a brand goes on from it), and
// in a struct that holds the `&mut` each writer would owe a second clause, that the buffer is the same one. Speed says nothing
// for either: by such a struct the texts of crate calls take 0.99 to 1.01 times as many instructions, and 0.99 to 1.06 over an
// empty buffer, by which a text is measured.
#[derive(Clone, Copy)]
pub struct Text {
    at: usize,
    level: usize,
}

// Puts bytes over as many others. With `copy_from_slice` the static library would call `memmove`, which whoever links it would
// have to bring.
fn copy(place: &mut [u8], s: &[u8])
    requires { length place.old ≡ length s.now }
    ensures { place.new ≡ s.now }
{
    for (i, &b) in s.iter().enumerate() {
        place[i] = b;
    }
}

impl Text {
    // the state at a fill count, at level 0
    pub fn at(fill: usize) -> Text
        ensures { result ≡ state_at fill }
    {
        Text { at: fill, level: 0 }
    }

    // the state at a fill count and a level
    pub fn at_level(fill: usize, level: usize) -> Text
        ensures { result ≡ state_at_level fill level }
    {
        Text { at: fill, level }
    }

    // the fill count
    pub fn fill(self) -> usize
        ensures { result ≡ self.at }
    {
        self.at
    }

    // the level
    pub fn level(self) -> usize
        ensures { result ≡ self.level }
    {
        self.level
    }

    // the state at another fill count, at the same level
    pub fn with_fill(self, fill: usize) -> Text
        ensures { result ≡ with_fill self fill }
    {
        Text { at: fill, ..self }
    }

    // one byte
    pub fn byte(self, buf: &mut [u8], b: u8) -> Text
        ensures { Wrote buf.old self (unit b) buf.new result }
    {
        let at = self.at;
        if at < buf.len() {
            buf[at] = b;
            return Text { at: at + 1, ..self };
        }
        self.past(1)
    }

    // A byte string. Most fit whole, or, in a measuring pass, begin past the end: neither looks at the end for each byte.
    pub fn bytes(self, buf: &mut [u8], s: &[u8]) -> Text
        ensures { Wrote buf.old self s.now buf.new result }
    {
        let at = self.at;
        if at >= buf.len() {
            return self.past(s.len());
        }
        if s.len() <= buf.len() - at {
            let end = at + s.len();
            copy(&mut buf[at..end], s);
            return Text { at: end, ..self };
        }
        self.each(buf, s)
    }

    // the state after n bytes, all of them past the end of the buffer
    pub fn past(self, n: usize) -> Text
        ensures { result ≡ with_fill self (min (self.at + n) (2 ^ 64 - 1)) }
    {
        Text {
            at: self.at.saturating_add(n),
            ..self
        }
    }

    // bytes of which some fit
    fn each(self, buf: &mut [u8], s: &[u8]) -> Text
        ensures { Wrote buf.old self s.now buf.new result }
    {
        let mut t = self;
        for &b in s {
            t = t.byte(buf, b);
        }
        t
    }

    // n in decimal. The last digits are found first, two in a turn: the number and no index says when to stop, so no `for` fits.
    pub fn number(self, buf: &mut [u8], n: u64) -> Text
        ensures { Wrote buf.old self (decimal n) buf.new result }
    {
        if n < 10 {
            return self.byte(buf, b'0' + n as u8);
        }
        let mut digits = [0u8; 20];
        let mut i = 19;
        let mut left = n;
        while left >= 100 {
            let pair = left % 100;
            digits[i] = b'0' + (pair % 10) as u8;
            digits[i - 1] = b'0' + (pair / 10) as u8;
            i -= 2;
            left /= 100;
        }
        if left >= 10 {
            digits[i] = b'0' + (left % 10) as u8;
            i -= 1;
            left /= 10;
        }
        digits[i] = b'0' + left as u8;
        self.bytes(buf, &digits[i..])
    }

    // the number in decimal whose bits in two's complement are n, where the sign's bit is half
    pub fn signed(self, buf: &mut [u8], half: u64, n: u64) -> Text
        ensures { Wrote buf.old self (signed half n) buf.new result }
    {
        if n < half {
            return self.number(buf, n);
        }
        let t = self.byte(buf, b'-');
        t.number(buf, half.saturating_sub(n - half))
    }

    // four spaces for each step of an indent
    fn indent(self, buf: &mut [u8], indent: usize) -> Text
        ensures { Wrote buf.old self (spaces (indent * 4)) buf.new result }
    {
        let mut t = self;
        for _ in 0..indent {
            t = t.bytes(buf, b"    ");
        }
        t
    }

    // the start of a line at the level
    pub fn margin(self, buf: &mut [u8]) -> Text
        ensures { WroteLines buf.old self margin buf.new result }
    {
        if self.level == 0 {
            return self;
        }
        self.indent(buf, self.level)
    }

    // the start of a line one step in
    pub fn inner_margin(self, buf: &mut [u8]) -> Text
        ensures { WroteLines buf.old self (λ level. margin (level + 1)) buf.new result }
    {
        let t = self.margin(buf);
        t.bytes(buf, b"    ")
    }

    // A part of a text in which lines end: each line that begins in it has its margin. Behind a last byte 10 none begins.
    pub fn broken(self, buf: &mut [u8], s: &[u8]) -> Text
        ensures { WroteLines buf.old self (broken s.now) buf.new result }
    {
        if self.level == 0 {
            return self.bytes(buf, s);
        }
        self.broken_lines(buf, s)
    }

    // one byte, and the margin where a line begins behind it
    fn byte_then_margin(self, buf: &mut [u8], b: u8, begins: bool) -> Text
        ensures { WroteLines buf.old self (λ level. unit b ++ cond begins (margin level) []) buf.new result }
    {
        let t = self.byte(buf, b);
        if !begins {
            return t;
        }
        t.margin(buf)
    }

    // the same part at any level
    fn broken_lines(self, buf: &mut [u8], s: &[u8]) -> Text
        ensures { WroteLines buf.old self (broken s.now) buf.new result }
    {
        let mut t = self;
        for i in 0..s.len() {
            let begins = (s[i] == b'\n') & (i + 1 < s.len());
            t = t.byte_then_margin(buf, s[i], begins);
        }
        t
    }

    // a `Line` at this indent, with its byte 10
    pub fn line(self, buf: &mut [u8], indent: usize, s: &[u8]) -> Text
        ensures { WroteLines buf.old self (λ level. ended (to_lines (Line s.now) (level + indent))) buf.new result }
    {
        let t = self.margin(buf);
        let t = t.indent(buf, indent);
        let t = t.bytes(buf, s);
        t.byte(buf, b'\n')
    }

    // a `BlankLine`, with its byte 10
    pub fn blank_line(self, buf: &mut [u8]) -> Text
        ensures { WroteLines buf.old self (λ level. ended (to_lines BlankLine level)) buf.new result }
    {
        self.byte(buf, b'\n')
    }

    // `stringify` of no lines: the same byte, but of another clause, and C has both
    pub fn no_lines(self, buf: &mut [u8]) -> Text
        ensures { WroteLines buf.old self (stringify (Branch none)) buf.new result }
    {
        self.byte(buf, b'\n')
    }
}

// Makes it a promise of this crate that a level moves in each line of a text but a `BlankLine`.
pub fn claims()
    ensures { StringifyMovesHolds }
{}

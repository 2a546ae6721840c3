// Sheets that are written by hand: the numbers of each line, with any spaces between them, are put right-justified into their 21
// columns. `claims` does nothing: its contract is what this does to sheets.
#![tactic(auto)]

ghost use Rattle.std.specs.Prelude.{◌≡◌, ◌==◌, ◌&&◌, not, take_while, length};
ghost use Rattle.text.specs.Text.{Wrote};
ghost use Rattle.padding.specs.Padded.{number_count, right_justified, words_padded, padded_row, padded_text};
ghost use Rattle.padding.specs.Claims.{PadsShortHolds, KeepsPaddedHolds};

use text::Text;

// How many columns a number has.
const COLUMNS: usize = 21;

// How many numbers a line with a letter has.
#[tactic(auto, unfolding(crate::specs::Padded::number_count))]
fn number_count(letter: u8) -> usize
    ensures { result ≡ number_count letter }
{
    match letter {
        b'N' => 7,
        b'F' => 4,
        b'G' => 2,
        b'T' => 4,
        b'S' => 3,
        b'V' => 2,
        b'W' => 1,
        _ => 0,
    }
}

// How many spaces stand in front.
fn space_len(t: &[u8]) -> usize
    ensures { result ≡ length (take_while (λ b. b == 32) t.now) }
{
    t.iter().take_while(|&&b| b == b' ').count()
}

// How many bytes stand in front of the first space or byte 10.
fn word_len(t: &[u8]) -> usize
    ensures { result ≡ length (take_while (λ b. not (b == 32) && not (b == 10)) t.now) }
{
    t.iter().take_while(|&&b| b != b' ' && b != b'\n').count()
}

// A word at the end of its columns.
fn right_justified(w: &[u8], t: Text, buf: &mut [u8]) -> Text
    ensures { Wrote buf.old t (right_justified w.now) buf.new result }
{
    let mut out = t;
    for _ in w.len()..COLUMNS {
        out = out.byte(buf, b' ');
    }
    out.bytes(buf, w)
}

// What stands after a row's letter: so many words, each in its columns, and the rest, of whose spaces in front one is kept.
fn words_padded(r: &[u8], count: usize, t: Text, buf: &mut [u8]) -> Text
    ensures { Wrote buf.old t (words_padded count r.now) buf.new result }
{
    let mut out = t;
    let mut rest = r;
    for _ in 0..count {
        let word = &rest[space_len(rest)..];
        let len = word_len(word);
        out = right_justified(&word[..len], out, buf);
        rest = &word[len..];
    }
    out.bytes(buf, &rest[space_len(rest).saturating_sub(1)..])
}

// A row.
fn pad_row(r: &[u8], t: Text, buf: &mut [u8]) -> Text
    ensures { Wrote buf.old t (padded_row r.now) buf.new result }
{
    let [letter, rest @ ..] = r else {
        return t;
    };
    let out = t.byte(buf, *letter);
    words_padded(rest, number_count(*letter), out, buf)
}

// The sheet that a text says.
pub fn pad(s: &[u8], t: Text, buf: &mut [u8]) -> Text
    ensures { Wrote buf.old t (padded_text s.now) buf.new result }
{
    // `row_end` finds byte 10 by words, in 0.65 of the instructions of a search by single bytes.
    let mut out = t;
    let mut at = 0;
    while at < s.len() {
        let end = row::row_end(s, at);
        out = pad_row(&s[at..end], out, buf);
        at = end;
    }
    out
}

// Makes it a promise of this crate that padding makes a sheet of its short form, and leaves a sheet as it is.
pub fn claims()
    ensures { PadsShortHolds × KeepsPaddedHolds }
{}

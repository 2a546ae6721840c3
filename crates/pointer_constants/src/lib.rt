// The declaration of a pointer's default: `word_array_declaration` of pointer_constants.rs, for the words that a slot has in the
// sheet.
#![tactic(auto)]

ghost use Rattle.std.specs.Prelude.{drop};
ghost use Rattle.text.specs.Text.{Wrote, WroteLines};
ghost use Rattle.row.specs.Rows.{rows};
ghost use Rattle.names.specs.Names.{default_name};
ghost use Rattle.codegen.specs.WordArray.{word_bytes};
ghost use Rattle.pointer_constants.specs.Words.{words_at, word_code, words_text, declaration_text};

use field::Slot;
use row::Line;
use text::Text;

// A word's line: its eight bytes, from the lowest on.
fn word(root: &[u8], w: u64, t: Text, buf: &mut [u8]) -> Text
    ensures { WroteLines buf.old t (word_code root.now w) buf.new result }
{
    let t = t.inner_margin(buf);
    let t = t.bytes(buf, root);
    let t = t.bytes(buf, b"::word(");
    let t = bytes(w, t, buf);
    t.bytes(buf, b"),\n")
}

// The bytes of a word, with a comma and a space between two.
fn bytes(w: u64, t: Text, buf: &mut [u8]) -> Text
    ensures { Wrote buf.old t (word_bytes w) buf.new result }
{
    let bytes = w.to_le_bytes();
    let mut t = t.number(buf, u64::from(bytes[0]));
    for &byte in &bytes[1..] {
        t = t.bytes(buf, b", ");
        t = t.number(buf, u64::from(byte));
    }
    t
}

// The lines of the W rows that stand there, up to so many.
fn words(root: &[u8], s: &[u8], from: usize, most: u64, t: Text, buf: &mut [u8]) -> Text
    ensures { WroteLines buf.old t
        (words_text root.now (words_at most (rows (drop from s.now)))) buf.new result }
{
    let mut t = t;
    let mut at = from;
    for _ in 0..most {
        let row = row::next(s, at);
        let Ok(Line::Word { value }) = row.line else {
            return t;
        };
        t = word(root, value, t, buf);
        at = row.next;
    }
    t
}

// The declaration of the constant of the field with this name, whose slot this is: of as many words as the slot counts, and with
// those of them that stand there.
pub fn word_array_declaration(
    root: &[u8],
    s: &[u8],
    name: &[u8],
    slot: Slot,
    t: Text,
    buf: &mut [u8],
) -> Text
    ensures { WroteLines buf.old t
        (declaration_text root.now (default_name name.now) slot.count
        (words_at slot.count (rows (drop slot.words s.now)))) buf.new result }
{
    let t = t.margin(buf);
    let t = t.bytes(buf, b"pub(crate) static ");
    let t = names::default_name(name, t, buf);
    let t = t.bytes(buf, b": [");
    let t = t.bytes(buf, root);
    let t = t.bytes(buf, b"::Word; ");
    let t = t.number(buf, slot.count);
    let t = t.bytes(buf, b"] = [\n");
    let t = words(root, s, slot.words, slot.count, t, buf);
    let t = t.margin(buf);
    t.bytes(buf, b"];\n")
}

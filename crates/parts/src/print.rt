// Prints a sheet piece by piece. Each piece is as many whole units as the output buffer holds; the unit that does not fit behind
// them is the first of the next piece. Nothing is handed to the system but by `hand`, which asks that the piece and what is left
// after it are what was left before it; such pieces from `start` on, one after the other up to the end, are all that document 01
// says (`claims`), over whatever buffers. `print_small` asks that all is left where it begins, and `print_large` for a place of
// the same sheet (`Reached`) where something is left. What no contract can say, that `print_large` goes on at the place that
// `print_small` came to, is what `print_sheet` is to be read for.
ghost use Rattle.std.specs.Prelude.{◌≡◌, List, ◌+◌, ◌≤◌, ◌<◌, length};
ghost use Rattle.io.specs.Counts.{IsPrefixLen};
ghost use Rattle.text.specs.Bytes.{Str};
ghost use Rattle.text.specs.Text.{Wrote};
ghost use Rattle.row.specs.Rows.{rows};
ghost use Rattle.row.specs.Line.{text_at};
ghost use Rattle.terms.specs.Refusals.{number};
ghost use Rattle.tree.specs.Tree.{Node};
ghost use Rattle.tree.specs.Read.{admitted};
ghost use Rattle.nodes.specs.Index.{index_size, Indexed, nth};
ghost use Rattle.parts.specs.Program.{labelled, refused_sheet_text, program_text};
ghost use Rattle.parts.specs.Fit.{unit_most, Within, TakesAtMost, Puts};
ghost use Rattle.parts.specs.Left.{Left, Gives};
ghost use Rattle.parts.specs.Pieces.{PiecesHold};
ghost use Rattle.parts.specs.Steps.{most_left, Enters, Turns, Filled, Reached, Comes};
ghost use Rattle.parts.specs.declared.Place.TheVariants.{At, End};

use crate::{Piece, Place, Turn, taken, write_field};
use nodes::Source;
use requests::Located;
use sheet::Refused;
use std::io::{self, Print};
use terms::limits;
use text::Text;

// A sheet of so many bytes at most is short: clearing the large buffer would be a large part of the work on it.
const SHORT_SHEET: usize = 8192;

// The bytes of the buffer that a short sheet is printed over.
const PIECE_SIZE: usize = 32768;

// The bytes that a unit has at most: five parts, each a header of at most 17 + 64 + 1 bytes and a text of at most 65,536.
const UNIT_SIZE: usize = 328090;

// A sheet that is printed: its root is that of its own bytes.
#[derive(Clone, Copy)]
struct Printed<'a> {
    source: Source<'a>,
    ghost rooted: { source.root.now ≡ text_at (rows source.bytes.now) },
}

// The first field of the node with a number. There are at most 64 nodes.
fn enter(source: &Source<'_>, node: usize) -> Place
    ensures { Enters source.now.index.now node result }
{
    match source.nth(node) {
        Some(entry) => Place::At {
            node,
            field: entry.fields,
        },
        None => Place::End,
    }
}

// The first field of the node after the one with a number.
fn next_node(source: &Source<'_>, node: usize) -> Place
    ensures { Enters source.now.index.now (node + 1) result }
{
    if limits::NODES <= node {
        return Place::End;
    }
    enter(source, node + 1)
}

// The offset of the tag of the node with a number.
fn tag_of(source: &Source<'_>, node: usize) -> u64
    ensures { (s : Str) (ns : List Node) (n : Node) → Indexed s ns source.now.index.now → nth node ns ≡ Some n
        → n.tag_offset ≡ result }
{
    match source.nth(node) {
        Some(entry) => entry.tag_offset,
        None => 0,
    }
}

// Where the printing of a sheet begins. The sheet is admitted, and its nodes are put into the index.
fn start(s: &[u8], index: &mut [u64]) -> Place
    ensures { index_size (length s.now) ≤ length index.old
        → Left s.now index.new result (program_text (admitted s.now)) }
{
    match sheet::admit(s, index) {
        Ok(()) => enter(&Source::new(s, index), 0),
        Err(refused) => Place::Refused(refused),
    }
}

// A word and a number after it.
fn write_labelled(label: &[u8], n: u64, t: Text, buf: &mut [u8]) -> Text
    ensures { Wrote buf.old t (labelled label.now n) buf.new result }
{
    let t = t.bytes(buf, label);
    t.number(buf, n)
}

// What is printed of a refused sheet.
fn refused_sheet(refused: Refused, buf: &mut [u8]) -> Option<usize>
    ensures within { Within result buf.new }
    ensures fits { TakesAtMost 65536 buf.old result }
    ensures said { Puts (refused_sheet_text (number refused.refusal) refused.line refused.column) buf.new result }
{
    let t = write_labelled(b"refused ", refused.refusal.number(), Text::at(0), buf);
    let t = write_labelled(b" line ", refused.line as u64, t, buf);
    let t = write_labelled(b" column ", refused.column as u64, t, buf);
    let t = t.byte(buf, b'\n');
    taken(t, buf)
}

// The unit of the field at a position in the node with a number; nothing where no field stands there.
fn field_turn(sheet: &Printed<'_>, node: usize, at: usize, out: &mut [u8]) -> Turn
    ensures within { Within result.fit out.new }
    ensures said { Turns sheet.now.source.bytes.now sheet.now.source.index.now (At node at) out.old out.new
        result.fit result.next }
    ensures fewer { most_left sheet.now.source.bytes.now result.next < most_left sheet.now.source.bytes.now (At node at) }
{
    let Some(field) = field::read(sheet.source.bytes, at) else {
        return Turn {
            fit: Some(0),
            next: next_node(&sheet.source, node),
        };
    };
    let located = Located {
        tag: tag_of(&sheet.source, node),
        field,
    };
    let fit = write_field(&sheet.source, &located, out);
    Turn {
        fit,
        next: Place::At {
            node,
            field: field.next(),
        },
    }
}

// What is printed next at a place, from the start of the buffer on.
fn step(sheet: &Printed<'_>, place: Place, out: &mut [u8]) -> Turn
    ensures within { Within result.fit out.new }
    ensures said { Turns sheet.now.source.bytes.now sheet.now.source.index.now place out.old out.new
        result.fit result.next }
    ensures fewer { (place ≡ End → ⊥)
        → most_left sheet.now.source.bytes.now result.next < most_left sheet.now.source.bytes.now place }
{
    match place {
        Place::At { node, field } => field_turn(sheet, node, field, out),
        Place::Refused(refused) => Turn {
            fit: refused_sheet(refused, out),
            next: Place::End,
        },
        Place::End => Turn {
            fit: Some(0),
            next: Place::End,
        },
    }
}

// The piece that begins at a place: whole units, as many as fit into the buffer.
fn fill(sheet: &Printed<'_>, place: Place, out: &mut [u8]) -> Piece
    ensures count { IsPrefixLen result.n out.new }
    ensures filled { Filled sheet.now.source.bytes.now sheet.now.source.index.now place out.old out.new result }
{
    let mut next = place;
    let mut n: usize = 0;
    // The next place is what the turn at the one before comes to.
    loop {
        if let Place::End = next {
            return Piece { n, next };
        }
        let turn = step(sheet, next, &mut out[n..]);
        let Some(m) = turn.fit else {
            return Piece { n, next };
        };
        n += m;
        next = turn.next;
    }
}

// Hands a piece to standard output. It and what is left at the next place are what was left at the place before. Nothing is said
// of its bytes afterwards, so that they can't be handed over a second time.
fn hand(
    rt: &HostRuntime,
    source: &Source<'_>,
    place: Place,
    piece: &mut [u8],
    next: Place,
) -> io::Result<()>
    requires { Gives source.now.bytes.now source.now.index.now place piece.old next }
{
    rt.write_all(piece)
}

// Prints a sheet from a place on, up to the end or to a unit that the buffer has no room for.
fn print_pieces(
    rt: &HostRuntime,
    sheet: &Printed<'_>,
    start: Place,
    out: &mut [u8],
) -> io::Result<Place>
    requires { Reached sheet.now.source.bytes.now sheet.now.source.index.now start }
    ensures { Comes sheet.now.source.bytes.now sheet.now.source.index.now (length out.old) result }
{
    let mut place = start;
    // A piece says itself where the next one begins, so no range counts them.
    loop {
        let Piece { n, next } = fill(sheet, place, out);
        if n == 0 {
            return Ok(next);
        }
        hand(rt, &sheet.source, place, &mut out[..n], next)?;
        place = next;
    }
}

// The same over the small buffer, from the start of a short sheet; a longer one is left to the large buffer, so that no unit of
// it is tried in the small one first. The buffer stands here and not in `print_sheet`, so that the stack holds one at a time.
fn print_small(rt: &HostRuntime, sheet: &Printed<'_>, start: Place) -> io::Result<Place>
    requires { Left sheet.now.source.bytes.now sheet.now.source.index.now start
        (program_text (admitted sheet.now.source.bytes.now)) }
    ensures { Comes sheet.now.source.bytes.now sheet.now.source.index.now 32768 result }
{
    if SHORT_SHEET < sheet.source.bytes.len() {
        return Ok(start);
    }
    let mut out = [0u8; PIECE_SIZE];
    print_pieces(rt, sheet, start, &mut out)
}

// The same over a buffer that holds any unit, from a place where something is left. It asks more of the place than `print_small`
// can say: one function with the size as a parameter was tried, and lets a sheet be printed again from its start.
fn print_large(rt: &HostRuntime, sheet: &Printed<'_>, start: Place) -> io::Result<Place>
    requires reached { Reached sheet.now.source.bytes.now sheet.now.source.index.now start }
    requires more { start ≡ End → ⊥ }
    ensures { Comes sheet.now.source.bytes.now sheet.now.source.index.now unit_most result }
{
    let mut out = [0u8; UNIT_SIZE];
    print_pieces(rt, sheet, start, &mut out)
}

// Prints all that is printed of a sheet.
pub fn print_sheet(rt: &HostRuntime, s: &[u8]) -> io::Result<()> {
    let mut index = [0u64; nodes::INDEX_SIZE];
    let place = start(s, &mut index);
    let sheet = Printed {
        source: Source::new(s, &index),
    };
    let next = print_small(rt, &sheet, place)?;
    if let Place::End = next {
        return Ok(());
    }
    print_large(rt, &sheet, next)?;
    Ok(())
}

// Makes it a promise of this crate that the pieces, one after the other, are what document 01 says of the sheet.
pub fn claims()
    ensures { PiecesHold }
{}

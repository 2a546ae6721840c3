// One admission, many requests: the index of a sheet's nodes in the caller's memory, and what is asked over it. Over any bytes
// and any index every function returns; what it says of the sheet holds for an index of these bytes' nodes.
ghost use Rattle.std.specs.Prelude.{◌≡◌, ◌+◌, ◌≤◌, length};
ghost use Rattle.tree.specs.Read.{admitted};
ghost use Rattle.nodes.specs.Index.{index_size, entry_with};
ghost use Rattle.sheet.specs.Admission.{IndexOf};
ghost use Rattle.exports.specs.Boundary.{Told, Asked, ask, accessor_numbered, request_of};
ghost use Rattle.exports.specs.Boundary.{SameAnswersHold, OverIndex, AskedWithin, TextTold, NodeTold, EntryTold};
ghost use Rattle.exports.specs.Boundary.{FirstTold, FirstPut, ValueRead};

use crate::{accessor_of, request_of, say, tell};
use field::Field;
use row::Span;
use terms::Refusal;
use text::Text;

// What stands for the kind of a group, where C reads a kind.
const GROUP: u64 = 19;

// How many numbers the index of a sheet of so many bytes needs.
pub fn kitlubas_index_size(size: usize) -> usize
    ensures { result ≡ index_size size }
{
    nodes::index_size(size)
}

// The number of the sheet's refusal, 0 for a sheet that is admitted; `line` and `column` become the refusal's, or 0. The
// index of an admitted sheet is put into `index`, if there is room for it.
pub fn kitlubas_index(s: &[u8], index: &mut [u64], line: &mut usize, column: &mut usize) -> u64
    ensures told { Told (admitted s.now) result line.new column.new }
    ensures index { index_size (length s.now) ≤ length index.old
        → IndexOf s.now (admitted s.now) index.new }
{
    tell(sheet::admit(s, index).err(), line, column)
}

// The answer to the request with a number, at a level of indentation, in the sheet with this index. Over any index a refusal
// changes nothing; no byte before the fill count changes, and the count neither falls nor passes the end.
pub fn kitlubas_answer_in(
    s: &[u8],
    index: &[u64],
    id: u64,
    place: u64,
    request: u64,
    leaf: u64,
    level: usize,
    fill: &mut usize,
    line: &mut usize,
    column: &mut usize,
    buf: &mut [u8],
) -> u64
    ensures asked { OverIndex s.now index.now (λ sheet. Asked buf.old fill.old
        (ask sheet id (request_of request place leaf) level) buf.new fill.new result line.new
        column.new) }
    ensures within { AskedWithin buf.old fill.old buf.new fill.new result }
{
    let asked = request_of(request, place, leaf);
    let start = Text::at_level(*fill, level);
    let answer = requests::answer_by_index(s, index, id, asked, start, buf);
    say(answer, fill, line, column)
}

// The text with a number, at a level of indentation, of the field with these numbers, as `kitlubas_field` puts them, in the node
// with a number, from 0: 0, and the text from the start of the buffer on; 22 where it is longer than the buffer; or its refusal.
// `size` becomes the text's length, 0 for a refusal. Where the answer is not 0, the bytes of the buffer may be any; where it is
// 0, the length is within the buffer over any index.
pub fn kitlubas_text(
    s: &[u8],
    index: &[u64],
    node: usize,
    field: &[u64],
    request: u64,
    leaf: u64,
    level: usize,
    size: &mut usize,
    buf: &mut [u8],
) -> u64
    ensures told { TextTold s.now index.now node field.now
        (accessor_numbered request leaf) level buf.old buf.new result size.new }
    ensures within { result ≡ 0 → size.new ≤ length buf.old }
{
    *size = 0;
    let accessor = accessor_of(request, leaf);
    match requests::text_by_index(s, index, node, field::get(field), accessor, level, buf) {
        Ok(n) => {
            *size = n;
            if n <= buf.len() {
                0
            } else {
                Refusal::NoRoom.number()
            }
        }
        Err(refusal) => refusal.number(),
    }
}

// The node with a number, from 0: its id, the place and the length of its module in the sheet, and the position of its first
// field. 15 where there is none, and all of them become 0. There are at most 64.
pub fn kitlubas_node(
    s: &[u8],
    index: &[u64],
    number: usize,
    id: &mut u64,
    at: &mut usize,
    size: &mut usize,
    first: &mut usize,
) -> u64
    ensures node { NodeTold s.now index.now number result id.new
        at.new size.new first.new }
    ensures within { at.new + size.new ≤ length s.now }
    ensures entry { EntryTold s.now (entry_with index.now number) result id.new
        at.new size.new first.new }
{
    *id = 0;
    *at = 0;
    *size = 0;
    *first = 0;
    let Some(node) = nodes::nth(index, number) else {
        return Refusal::NotThere.number();
    };
    let Span { start, end } = row::text_span(s, node.at, node.params);
    *id = node.id;
    *at = start;
    *size = end - start;
    *first = node.fields;
    0
}

// The field that stands at a position: the kind of its type, or 19 for a group, the place and the length of its name in the
// sheet, and the position after it. 15 where there is none, and all of them become 0. The field's numbers are put into `field`,
// if there is room for them. A slot and a group have an arm each: the kind and the end of the name's span are other ones.
pub fn kitlubas_field(
    s: &[u8],
    from: usize,
    field: &mut [u64],
    kind: &mut u64,
    at: &mut usize,
    size: &mut usize,
    next: &mut usize,
) -> u64
    ensures told { FirstTold s.now from result kind.new at.new size.new
        next.new }
    ensures within { at.new + size.new ≤ length s.now }
    ensures put { FirstPut s.now from field.old field.new }
    ensures value { ValueRead s.now from field.old field.new result kind.new
        at.new size.new next.new }
{
    let read = field::read(s, from);
    field::put(read, field);
    let Some(read) = read else {
        *kind = 0;
        *at = 0;
        *size = 0;
        *next = 0;
        return Refusal::NotThere.number();
    };
    match read {
        Field::Slot(slot) => {
            let Span { start, end } = row::text_span(s, slot.at, slot.typ);
            *kind = slot.kind.number();
            *at = start;
            *size = end - start;
            *next = slot.next;
        }
        Field::Group(group) => {
            let Span { start, end } = row::text_span(s, group.at, group.next);
            *kind = GROUP;
            *at = start;
            *size = end - start;
            *next = group.next;
        }
    }
    0
}

// Makes it a promise of this crate that a request over the index of an admitted sheet is answered as from its bytes.
pub fn claims()
    ensures { SameAnswersHold }
{}

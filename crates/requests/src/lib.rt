// The public entry: a request of a node of a sheet, over any bytes, any text state and any buffer. The answer is the whole
// text, or one refusal of documents 01 and 02 that changes nothing. A request is measured over an empty buffer, which finds its
// refusal or its length, before the first byte is written. Whoever holds a sheet's index asks over it, and has the text of a
// field that was read from the start of a buffer on.
#![tactic(auto)]

ghost use Rattle.std.specs.Prelude.{◌≡◌, ℕ, ◌^◌, ◌≤◌, ◌<◌, length};
ghost use Rattle.tree.specs.Read.{admitted};
ghost use Rattle.nodes.specs.Index.{index_size, IsSource};
ghost use Rattle.codegen_types.specs.Written.{Within, refusal_number};
ghost use Rattle.field.specs.declared.Field.TheVariants as field_is;
ghost use Rattle.requests.specs.Requests.{of_field, outcome_of, state_refusal};
ghost use Rattle.requests.specs.Parts.{may_have_scopes, LocatedIn, FieldAnswered, RequestAsked};
ghost use Rattle.requests.specs.Told.{AccessorWritten, AccessorMeasured, RequestAnswered, Answered, AnswerWithin};
ghost use Rattle.requests.specs.Told.{StateAllowed, TextPassed, unplaced};
ghost use Rattle.requests.specs.Levels.{LevelsHold};
ghost use Rattle.requests.specs.declared.Accessor.TheVariants.{TypeText};

use codegen::Profile;
use codegen_types::Leaf;
use field::{Field, Group, Slot};
use nodes::Source;
use sheet::Refused;
use terms::{Refusal, limits};
use text::Text;

// The bytes from a type to its slot's words where the type is one row of T, and where it is two. A T row has 86, a V row 44.
const ONE_ROW: usize = 130;

const TWO_ROWS: usize = 216;

// A sheet of so many bytes at most is short, and how many numbers are room enough for its index.
const SHORT_SHEET: usize = 3072;

const SHORT_INDEX: usize = 289;

// A text of a field: of a slot its type's text for a leaf, its getters, its setter, the setter that is paired with its getters,
// and its hasers; of a group its zeroing. The leaf is missing where it was asked for by a number that names none: this is 15, but
// only after 21 and the sheet's own refusal.
#[derive(Clone, Copy)]
pub enum Accessor {
    TypeText { leaf: Option<Leaf> },
    Getter { is_reader: bool, is_fn: bool },
    Setter,
    PairedSetter,
    Haser { is_reader: bool },
    Zeroing,
}

// What can be requested of a node: a text of its field at a place. The request is missing where it was asked for by a number
// that names none: this is 15, in its order as that of a leaf.
#[derive(Clone, Copy)]
pub enum Request {
    Field { place: u64, accessor: Accessor },
}

// A field that was read, and the offset of its node's tag.
#[derive(Clone, Copy)]
pub struct Located {
    pub tag: u64,
    pub field: Field,
}

// A refusal that names no line: it is none of the sheet's.
fn unplaced(refusal: Refusal) -> Refused
    ensures { result ≡ unplaced refusal }
{
    Refused {
        refusal,
        line: 0,
        column: 0,
    }
}

// The field at a place, from 0, of the node with an id.
fn locate(s: &[u8], index: &[u64], id: u64, place: u64) -> Option<Located>
    ensures { (x : Source) → IsSource s.now index.now x → LocatedIn x id place result }
{
    let node = nodes::find(index, id)?;
    let field = field::at_place(s, node.fields, place)?;
    Some(Located {
        tag: node.tag_offset,
        field,
    })
}

// The text of a slot's type for a leaf; where none is named, 15.
fn type_text(
    source: &Source<'_>,
    slot: Slot,
    leaf: Option<Leaf>,
    t: Text,
    buf: &mut [u8],
) -> Result<Text, Refusal>
    ensures text { (tag : ℕ) → AccessorWritten source.now tag (field_is.Slot slot)
        (TypeText leaf) buf.old t buf.new result }
    ensures within { Within buf.old t buf.new result }
{
    let Some(leaf) = leaf else {
        return Err(Refusal::NotThere);
    };
    let t = t.margin(buf);
    type_string::type_string(source, slot.typ, leaf, t, buf)
}

// An accessor of a slot, whose node's tag is at this offset; its zeroing is 15.
fn slot_accessor(
    source: &Source<'_>,
    slot: Slot,
    tag: u64,
    accessor: Accessor,
    t: Text,
    buf: &mut [u8],
) -> Result<Text, Refusal>
    ensures text { AccessorWritten source.now tag (field_is.Slot slot) accessor
        buf.old t buf.new result }
    ensures within { Within buf.old t buf.new result }
{
    match accessor {
        Accessor::TypeText { leaf } => type_text(source, slot, leaf, t, buf),
        Accessor::Getter { is_reader, is_fn } => {
            getter::getter(source, slot, is_reader, is_fn, t, buf)
        }
        Accessor::Setter => setter::setter(source, slot, tag, Profile::Present, t, buf),
        Accessor::PairedSetter => setter::setter(source, slot, tag, Profile::Paired, t, buf),
        Accessor::Haser { is_reader } => {
            let name = slot.name(source.bytes);
            Ok(codegen::haser(name, slot, tag, is_reader, t, buf))
        }
        Accessor::Zeroing => Err(Refusal::NotThere),
    }
}

// An accessor of a group: all but its zeroing are 15.
fn group_accessor(
    source: &Source<'_>,
    group: Group,
    accessor: Accessor,
    t: Text,
    buf: &mut [u8],
) -> Result<Text, Refusal>
    ensures text { (tag : ℕ) → AccessorWritten source.now tag (field_is.Group group)
        accessor buf.old t buf.new result }
    ensures within { Within buf.old t buf.new result }
{
    let Accessor::Zeroing = accessor else {
        return Err(Refusal::NotThere);
    };
    let zeroed = zeroing::zeroing(source, group.id, t, buf)?;
    Ok(zeroed.text)
}

// An accessor of a field that was read: its text, or its refusal.
pub fn field_accessor(
    source: &Source<'_>,
    located: &Located,
    accessor: Accessor,
    t: Text,
    buf: &mut [u8],
) -> Result<Text, Refusal>
    ensures text { AccessorWritten source.now located.now.tag located.now.field accessor
        buf.old t buf.new result }
    ensures within { Within buf.old t buf.new result }
{
    match located.field {
        Field::Slot(slot) => slot_accessor(source, slot, located.tag, accessor, t, buf),
        Field::Group(group) => group_accessor(source, group, accessor, t, buf),
    }
}

// Whether a field's type may have a brand with scopes. A type of one row of T has none, nor has one of two, a list and its
// element: the V row stands behind them, and the words behind that.
pub fn may_have_scopes(field: Field) -> bool
    ensures { result ≡ may_have_scopes field }
{
    let Field::Slot(slot) = field else {
        return false;
    };
    if slot.words < slot.typ {
        return true;
    }
    let size = slot.words - slot.typ;
    size != ONE_ROW && size != TWO_ROWS
}

// The refusal of an accessor of a field that was read, or the length of its text at a level: it is written over an empty buffer.
pub fn measure(
    source: &Source<'_>,
    located: &Located,
    accessor: Accessor,
    level: usize,
) -> Result<usize, Refusal>
    ensures { AccessorMeasured source.now located.now.tag located.now.field accessor level result }
{
    let mut empty = [0u8; 0];
    let start = Text::at_level(0, level);
    let measured = field_accessor(source, located, accessor, start, &mut empty)?;
    Ok(measured.fill())
}

// An accessor of a field that was read, as `field_accessor` writes it. A brand is written outermost node first, while the Rust
// meets the innermost one's refusal first: where its scopes may be refused, the text is measured before it is written, so that
// what the Rust never comes to is not written either.
pub fn write_accessor(
    source: &Source<'_>,
    located: &Located,
    accessor: Accessor,
    t: Text,
    buf: &mut [u8],
) -> Result<Text, Refusal>
    ensures text { AccessorWritten source.now located.now.tag located.now.field accessor
        buf.old t buf.new result }
    ensures within { Within buf.old t buf.new result }
{
    if may_have_scopes(located.field) {
        measure(source, located, accessor, t.level())?;
    }
    field_accessor(source, located, accessor, t, buf)
}

// The answer for a field that was found: its refusal, 22, or its text. What is written is written into the free part of the
// buffer, so that no byte before the fill count can change. That there is one, and that the level is at most 8, is a premise of
// this and three functions below, and no value's fact, as the buffer is lent.
fn answer_found(
    source: &Source<'_>,
    located: &Located,
    accessor: Accessor,
    t: Text,
    buf: &mut [u8],
) -> Result<Text, Refusal>
    requires { StateAllowed buf.old t }
    ensures indexed { FieldAnswered source.now located.now.tag located.now.field accessor
        buf.old t buf.new result }
    ensures within { AnswerWithin buf.old t buf.new result }
{
    let n = measure(source, located, accessor, t.level())?;
    let fill = t.fill();
    if buf.len() - fill < n {
        return Err(Refusal::NoRoom);
    }
    let free = &mut buf[fill..];
    // What was measured is not refused now.
    let _ = field_accessor(source, located, accessor, t.with_fill(0), free);
    Ok(t.with_fill(fill + n))
}

// The answer for the field at a place of the node with an id: 15 where there is none. The sheet's root is sought only once the
// field was found.
fn answer_field(
    s: &[u8],
    index: &[u64],
    id: u64,
    place: u64,
    accessor: Accessor,
    t: Text,
    buf: &mut [u8],
) -> Result<Text, Refusal>
    requires { StateAllowed buf.old t }
    ensures indexed { (x : Source) → IsSource s.now index.now x
        → RequestAsked x id (of_field place accessor) buf.old t buf.new result }
    ensures within { AnswerWithin buf.old t buf.new result }
{
    let Some(located) = locate(s, index, id, place) else {
        return Err(Refusal::NotThere);
    };
    let source = Source::new(s, index);
    answer_found(&source, &located, accessor, t, buf)
}

// The same in a source, whose root may be any text.
fn answer_field_in(
    source: &Source<'_>,
    id: u64,
    place: u64,
    accessor: Accessor,
    t: Text,
    buf: &mut [u8],
) -> Result<Text, Refusal>
    requires { StateAllowed buf.old t }
    ensures indexed { RequestAsked source.now id (of_field place accessor) buf.old t buf.new result }
    ensures within { AnswerWithin buf.old t buf.new result }
{
    let Some(located) = locate(source.bytes, source.index, id, place) else {
        return Err(Refusal::NotThere);
    };
    answer_found(source, &located, accessor, t, buf)
}

// The refusal of a text state over a buffer of so many bytes: 21, and then 36.
fn state_allowed(t: Text, size: usize) -> Result<(), Refusal>
    ensures { refusal_number result ≡ state_refusal size t.at t.level }
{
    if size < t.fill() {
        return Err(Refusal::FillPastEnd);
    }
    if limits::LEVEL < t.level() {
        return Err(Refusal::LevelTooHigh);
    }
    Ok(())
}

// The answer to a request of the node with an id: 21 and 36 before anything is looked at; where there is no request, 15.
fn answer_asked(
    s: &[u8],
    index: &[u64],
    id: u64,
    request: Option<Request>,
    t: Text,
    buf: &mut [u8],
) -> Result<Text, Refusal>
    ensures indexed { (x : Source) → IsSource s.now index.now x
        → RequestAsked x id request buf.old t buf.new result }
    ensures within { AnswerWithin buf.old t buf.new result }
{
    state_allowed(t, buf.len())?;
    match request {
        Some(Request::Field { place, accessor }) => {
            answer_field(s, index, id, place, accessor, t, buf)
        }
        None => Err(Refusal::NotThere),
    }
}

// The same in a source, whose root may be any text.
fn answer_asked_in(
    source: &Source<'_>,
    id: u64,
    request: Option<Request>,
    t: Text,
    buf: &mut [u8],
) -> Result<Text, Refusal>
    ensures indexed { RequestAsked source.now id request buf.old t buf.new result }
    ensures within { AnswerWithin buf.old t buf.new result }
{
    state_allowed(t, buf.len())?;
    match request.ok_or(Refusal::NotThere)? {
        Request::Field { place, accessor } => answer_field_in(source, id, place, accessor, t, buf),
    }
}

// The answer to a request of the node with an id, over a sheet's bytes and its index, with the line of the refusal, which is none
// of the sheet's. Over any bytes and any index a refusal changes no byte, and a text none before the fill count, which does not
// fall.
pub fn answer_by_index(
    s: &[u8],
    index: &[u64],
    id: u64,
    request: Option<Request>,
    t: Text,
    buf: &mut [u8],
) -> Result<Text, Refused>
    ensures indexed { (x : Source) → IsSource s.now index.now x
        → RequestAnswered x id request buf.old t buf.new result }
    ensures within { AnswerWithin buf.old t buf.new result }
{
    answer_asked(s, index, id, request, t, buf).map_err(unplaced)
}

// The same in a source, whose root may be any text: the answer is that of the sheet with this root.
pub fn answer_in(
    source: &Source<'_>,
    id: u64,
    request: Option<Request>,
    t: Text,
    buf: &mut [u8],
) -> Result<Text, Refused>
    ensures indexed { RequestAnswered source.now id request buf.old t buf.new result }
    ensures within { AnswerWithin buf.old t buf.new result }
{
    answer_asked_in(source, id, request, t, buf).map_err(unplaced)
}

// The answer to a request of the node with an id, over an index that has room for the sheet's nodes: the sheet's own refusal,
// or the answer in its index.
fn answer_over<const N: usize>(
    s: &[u8],
    id: u64,
    request: Option<Request>,
    t: Text,
    buf: &mut [u8],
) -> Result<Text, Refused>
    requires { (index_size (length s.now) ≤ N) × (N < 2 ^ 60) × StateAllowed buf.old t }
    ensures { Answered buf.old t (outcome_of (admitted s.now) id request t.level)
        buf.new result }
{
    let mut index = [0u64; N];
    sheet::admit(s, &mut index)?;
    answer_by_index(s, &index, id, request, t, buf)
}

// The answer to a request of the node with an id: 21 and 36 before the sheet is looked at, the sheet's own refusal, 15, the
// request's own, 22. Of the index no more is cleared than a sheet of this length may need.
pub fn answer_request(
    s: &[u8],
    id: u64,
    request: Option<Request>,
    t: Text,
    buf: &mut [u8],
) -> Result<Text, Refused>
    ensures { Answered buf.old t (outcome_of (admitted s.now) id request t.level)
        buf.new result }
{
    if let Err(refusal) = state_allowed(t, buf.len()) {
        return Err(unplaced(refusal));
    }
    if s.len() <= SHORT_SHEET {
        return answer_over::<SHORT_INDEX>(s, id, request, t, buf);
    }
    answer_over::<{ nodes::INDEX_SIZE }>(s, id, request, t, buf)
}

// The length of a text, at a level, of a field that was read, in the node with a number, from 0. It is written from the start of
// the buffer on, and is whole where the buffer has so many bytes. 36 comes first; 15 where there is no such node, field or text.
// There are at most 64 nodes.
pub fn text_by_index(
    s: &[u8],
    index: &[u64],
    node: usize,
    field: Option<Field>,
    accessor: Option<Accessor>,
    level: usize,
    buf: &mut [u8],
) -> Result<usize, Refusal>
    ensures passed { (x : Source) → IsSource s.now index.now x
        → TextPassed x node field accessor level buf.old buf.new result }
{
    let start = Text::at_level(0, level);
    state_allowed(start, buf.len())?;
    let (Some(entry), Some(field), Some(accessor)) = (nodes::nth(index, node), field, accessor)
    else {
        return Err(Refusal::NotThere);
    };
    let located = Located {
        tag: entry.tag_offset,
        field,
    };
    let source = Source::new(s, index);
    let end = write_accessor(&source, &located, accessor, start, buf)?;
    Ok(end.fill())
}

// The same in a source, whose root may be any text: the text is that of the sheet with this root.
pub fn text(
    source: &Source<'_>,
    node: usize,
    field: Option<Field>,
    accessor: Option<Accessor>,
    level: usize,
    buf: &mut [u8],
) -> Result<usize, Refusal>
    ensures passed { TextPassed source.now node field accessor level
        buf.old buf.new result }
{
    let start = Text::at_level(0, level);
    state_allowed(start, buf.len())?;
    let (Some(found), Some(field), Some(accessor)) = (source.nth(node), field, accessor) else {
        return Err(Refusal::NotThere);
    };
    let located = Located {
        tag: found.tag_offset,
        field,
    };
    let written = write_accessor(source, &located, accessor, start, buf)?;
    Ok(written.fill())
}

// Makes it a promise of this crate that a level moves in the lines of whatever is asked, and changes nothing else.
pub fn claims()
    ensures { LevelsHold }
{}

#[cfg(test)]
mod tests;

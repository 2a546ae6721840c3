// The zeroing of a group: `zero_fields_of_group` of codegen.rs, its text or its refusal, from the sheet's rows.
#![tactic(auto)]

ghost use Rattle.std.specs.Prelude.{◌≡◌, false, List, ◌*◌, ◌<◌, ◌≤◌, eqb, length, drop, take};
ghost use Rattle.terms.specs.Kinds.{number_of};
ghost use Rattle.text.specs.Bytes.{Str, both, either};
ghost use Rattle.text.specs.Text.{Wrote, WroteSome};
ghost use Rattle.row.specs.Rows.{rows};
ghost use Rattle.tree.specs.Tree as tree;
ghost use Rattle.tree.specs.Fields.{FieldsHere};
ghost use Rattle.nodes.specs.Index.{ForAll};
ghost use Rattle.codegen.specs.Zeroing.{zero_fields_of_group};
ghost use Rattle.zeroing.specs.Lines.{line_type, zero_text, repeats, slot_lines, tag_lines, with_margin};
ghost use Rattle.zeroing.specs.Types.{type_number, type_numbers};
ghost use Rattle.zeroing.specs.Table.{table_size, has_both, stops, place_below, table_place, Knows, KeptLines, with_line};
ghost use Rattle.zeroing.specs.Table.{may_stop, FoundIn, IsPlace};
ghost use Rattle.zeroing.specs.Added.{Added, AddedSlot, Adds, AddsWithin};
ghost use Rattle.zeroing.specs.Path.{Leads, inner_levels};
ghost use Rattle.zeroing.specs.Told.{Zeroes, ZeroedWithin};

use field::{Field, Slot};
use nodes::Source;
use terms::{Kind, Refusal};
use text::Text;

// How many lines of one group the table has room for. A sheet of 65,536 bytes has 300 slots at most.
const SIZE: usize = 307;

// How many places of the table a long search looks at in one turn.
const BLOCK: usize = 8;

// The type of a slot's line: Void where a slot has none, and at a free place of the table, where an Option would take two bytes;
// a Bool's; a number's, with an enum's being a Uint16's; a pointer's.
#[derive(Clone, Copy, PartialEq, Eq)]
enum LineType {
    Void,
    Bool,
    Int8,
    Int16,
    Int32,
    Int64,
    Uint8,
    Uint16,
    Uint32,
    Uint64,
    Float32,
    Float64,
    Pointer,
}

// The lines so far: the text state after them, whether one clears a pointer, and whether there is one.
#[derive(Clone, Copy)]
struct Lines {
    text: Text,
    clear: bool,
    any: bool,
}

// A zeroing: the text state after it, and whether a line of it clears a pointer.
#[derive(Clone, Copy)]
pub struct Zeroed {
    pub text: Text,
    pub clear: bool,
}

// A line of a zeroing: the offset that it writes at, and its type.
#[derive(Clone, Copy, PartialEq, Eq)]
struct ZeroLine {
    offset: u64,
    typ: LineType,
}

// A line as the table keeps it: its offset has 32 bits.
#[derive(Clone, Copy)]
struct KeptLine {
    offset: u32,
    typ: LineType,
}

// The fields of a group that are passed: so many, the first of them at a position of the sheet.
#[derive(Clone, Copy)]
struct Fields<'a> {
    s: &'a [u8],
    first: usize,
    count: usize,
}

// A group that a zeroing comes to: its id, how many levels are left for it, and the group that the zeroing began with. That there
// is a way from that one to it (`Leads`) is a fact of a sheet: it stands in the one clause over sheets, since a ghost field would
// have to hold the source too.
#[derive(Clone, Copy)]
struct Visit {
    id: u64,
    left: usize,
    start: u64,
}

impl LineType {
    // The type of a slot's line by its kind.
    #[tactic(auto, unfolding(crate::specs::Lines::line_type))]
    fn of(kind: Kind) -> LineType
        ensures { type_number result ≡ line_type (number_of kind) }
    {
        match kind {
            Kind::Void => LineType::Void,
            Kind::Bool => LineType::Bool,
            Kind::Int8 => LineType::Int8,
            Kind::Int16 => LineType::Int16,
            Kind::Int32 => LineType::Int32,
            Kind::Int64 => LineType::Int64,
            Kind::Uint8 => LineType::Uint8,
            Kind::Uint16 | Kind::Enum => LineType::Uint16,
            Kind::Uint32 => LineType::Uint32,
            Kind::Uint64 => LineType::Uint64,
            Kind::Float32 => LineType::Float32,
            Kind::Float64 => LineType::Float64,
            _ => LineType::Pointer,
        }
    }

    // Its number: that of its kind, but for a pointer's.
    fn number(self) -> u64
        ensures { result ≡ type_number self }
    {
        self as u64
    }
}

impl ZeroLine {
    // A slot's line.
    fn of(slot: Slot) -> ZeroLine
        ensures offset { result.offset ≡ slot.offset }
        ensures typ { type_number result.typ ≡ line_type (number_of slot.kind) }
    {
        ZeroLine {
            offset: slot.offset,
            typ: LineType::of(slot.kind),
        }
    }

    // Whether a line clears a pointer, once there is this one too.
    fn clears(self, before: bool) -> bool
        ensures { result ≡ either before (eqb (type_number self.typ) 12) }
    {
        before || self.typ == LineType::Pointer
    }

    // Its text.
    #[tactic(auto, unfolding(crate::specs::Lines::zero_text))]
    fn write(self, t: Text, buf: &mut [u8]) -> Text
        ensures { Wrote buf.old t (zero_text (type_number self.typ) self.offset) buf.new result }
    {
        let ZeroLine { offset, typ } = self;
        match typ {
            LineType::Bool => calls::zero_bool(offset, t, buf),
            LineType::Pointer => calls::clear_pointer(offset, t, buf),
            _ => codegen::zero_number(Kind::from(typ.number()), offset, t, buf),
        }
    }
}

impl Fields<'_> {
    // Whether one of them has a line: they are read again.
    fn is_repeat(&self, line: ZeroLine) -> bool
        ensures { (fs : List tree.Field) → FieldsHere (rows (drop self.now.first self.now.s.now)) fs
            → result ≡ repeats (type_number line.typ) line.offset (take self.now.count fs) }
    {
        let mut at = self.first;
        for _ in 0..self.count {
            let Some(field) = field::read(self.s, at) else {
                return false;
            };
            if let Field::Slot(slot) = field {
                if ZeroLine::of(slot) == line {
                    return true;
                }
            }
            at = field.next();
        }
        false
    }
}

// Whether a line at an offset can stand among some places, or one of them be free, by their offsets alone.
fn may_stop(offsets: &[u32], offset: u32) -> bool
    ensures { result ≡ may_stop offsets.now offset }
{
    nodes::among(offsets, offset) | nodes::among(offsets, 0)
}

// The lines of a group so far by type and offset, each at a place of its own. A place with type Void and offset 0 is free. There
// are two arrays, since a place of both would take eight bytes for five, and sixteen tables stand on a small stack.
#[derive(Drop)]
struct Table {
    offsets: [u32; SIZE],
    types: [LineType; SIZE],
}

impl Table {
    // What stands at a free place.
    const FREE: KeptLine = KeptLine {
        offset: 0,
        typ: LineType::Void,
    };

    // Whether a place has a line's offset and type. Most places are passed over by their offset alone.
    fn has_both(&self, i: usize, line: KeptLine) -> bool
        requires { i < table_size }
        ensures { result ≡ has_both self.now.offsets (type_numbers self.now.types) (type_number line.typ) line.offset i }
    {
        self.offsets[i] == line.offset && self.types[i] == line.typ
    }

    // Whether a place has a line, or is free.
    fn is_stop(&self, i: usize, line: KeptLine) -> bool
        requires { i < table_size }
        ensures { result ≡ stops self.now.offsets (type_numbers self.now.types) (type_number line.typ) line.offset i }
    {
        self.has_both(i, line) || self.has_both(i, Table::FREE)
    }

    // The last place that is free or has a line from one on and below another, if there is one.
    #[tactic(auto, using(crate::proofs::TableLaws::place_steps, crate::proofs::BlockLaws::in_steps))]
    fn place_in(&self, from: usize, to: usize, line: KeptLine) -> Option<usize>
        requires { (from ≤ to) × (to ≤ table_size) }
        ensures { FoundIn self.now.offsets (type_numbers self.now.types) (type_number line.typ) line.offset
            from to result }
    {
        for i in (from..to).rev() {
            if self.is_stop(i, line) {
                return Some(i);
            }
        }
        None
    }

    // The last place below one that is free or has a line, if there is one. Below those that are no whole block the search passes
    // over the blocks that cannot stop it: place by place, a request for the zeroing of 298 lines that all have one place takes
    // 1.21 times as many instructions, and 2.38 times those for half of them, where bench/run allows 2.3.
    #[tactic(auto, using(crate::proofs::TableLaws::place_none, crate::proofs::BlockLaws::below_steps))]
    fn place_below(&self, end: usize, line: KeptLine) -> Option<usize>
        requires { end ≤ table_size }
        ensures { IsPlace result (place_below self.now.offsets (type_numbers self.now.types)
            (type_number line.typ) line.offset table_size end) }
    {
        let whole = end / BLOCK;
        if let Some(i) = self.place_in(whole * BLOCK, end, line) {
            return Some(i);
        }
        for block in (0..whole).rev() {
            let from = block * BLOCK;
            let to = from + BLOCK;
            if !may_stop(&self.offsets[from..to], line.offset) {
                continue;
            }
            if let Some(i) = self.place_in(from, to, line) {
                return Some(i);
            }
        }
        None
    }

    // The place of a line: its own, or the first one from there down that has the line or is free; where there is none, the last
    // of all, if there is any.
    #[tactic(auto, using(crate::proofs::TableLaws::own_steps))]
    fn place(&self, line: KeptLine) -> Option<usize>
        ensures { IsPlace result (table_place self.now.offsets (type_numbers self.now.types) (type_number line.typ) line.offset) }
    {
        let own = ((line.offset % 65536) as usize * 13 + line.typ as usize) % SIZE;
        if self.is_stop(own, line) {
            return Some(own);
        }
        if let Some(i) = self.place_below(own, line) {
            return Some(i);
        }
        self.place_below(SIZE, line)
    }

    // Whether one of the fields passed has a line already. If not, the table keeps it. A line that has no place there, or whose
    // offset has more than 32 bits, is sought by reading the fields again.
    fn is_known(&mut self, fields: &Fields<'_>, line: ZeroLine) -> bool
        requires { type_number line.typ ≡ 0 → ⊥ }
        ensures { (fs : List tree.Field) → FieldsHere (rows (drop fields.now.first fields.now.s.now)) fs
            → KeptLines self.old.offsets (type_numbers self.old.types) (λ c o. repeats c o (take fields.now.count fs))
            → Knows (type_number line.typ) line.offset (take fields.now.count fs)
            result self.new.offsets (type_numbers self.new.types) }
    {
        let Ok(offset) = u32::try_from(line.offset) else {
            return fields.is_repeat(line);
        };
        let kept = KeptLine {
            offset,
            typ: line.typ,
        };
        let Some(i) = self.place(kept) else {
            return fields.is_repeat(line);
        };
        if self.types[i] != LineType::Void {
            return true;
        }
        self.types[i] = kept.typ;
        self.offsets[i] = kept.offset;
        false
    }
}

// A line after the lines so far: none where it is one of them.
fn next_line(line: ZeroLine, again: bool, before: Lines, buf: &mut [u8]) -> Lines
    requires { type_number line.typ ≡ 0 → ⊥ }
    ensures { Added (with_margin (slot_lines (type_number line.typ) line.offset again) before.text.level)
        (eqb (type_number line.typ) 12) buf.old before buf.new result }
{
    let clear = line.clears(before.clear);
    if again {
        return Lines { clear, ..before };
    }
    let t = before.text.margin(buf);
    let t = line.write(t, buf);
    let text = t.byte(buf, b'\n');
    Lines {
        text,
        clear,
        any: true,
    }
}

// The line of a slot, after the fields passed: none for Void.
fn zero_slot(
    fields: &Fields<'_>,
    table: &mut Table,
    slot: Slot,
    before: Lines,
    buf: &mut [u8],
) -> Lines
    ensures lines { (fs : List tree.Field) → FieldsHere (rows (drop fields.now.first fields.now.s.now)) fs
        → KeptLines table.old.offsets (type_numbers table.old.types) (λ c o. repeats c o (take fields.now.count fs))
        → AddedSlot (line_type (number_of slot.kind)) slot.offset (take fields.now.count fs) buf.old before buf.new result
        × KeptLines table.new.offsets (type_numbers table.new.types)
        (with_line (line_type (number_of slot.kind)) slot.offset (take fields.now.count fs)) }
    ensures some { WroteSome buf.old before.text buf.new result.text }
{
    let line = ZeroLine::of(slot);
    if line.typ == LineType::Void {
        return before;
    }
    let again = table.is_known(fields, line);
    next_line(line, again, before, buf)
}

// The line of a node's tag, where it has one.
fn tag_line(tag_count: u64, tag_offset: u64, before: Lines, buf: &mut [u8]) -> Lines
    ensures { Added (with_margin (tag_lines tag_count tag_offset) before.text.level) false buf.old before buf.new result }
{
    if tag_count == 0 {
        return before;
    }
    let t = before.text.margin(buf);
    let t = calls::zero_tag(tag_offset, t, buf);
    let text = t.byte(buf, b'\n');
    Lines {
        text,
        any: true,
        ..before
    }
}

impl Visit {
    // A group inside this one. No level is left for the one that the zeroing began with: it leads to itself on every level, so
    // that it would be refused on the last.
    fn inner(self, id: u64) -> Visit
        requires { self.left ≡ 0 → ⊥ }
        ensures { result ≡ record { id = id; left = inner_levels self.left id self.start; start = self.start } }
    {
        let left = if id == self.start { 0 } else { self.left - 1 };
        Visit { id, left, ..self }
    }
}

// The lines of a group, or the refusal that is met first. An inner group has a table of its own: repeats are dropped inside one
// group only.
fn zero_fields_of_group(
    source: &Source<'_>,
    group: Visit,
    before: Lines,
    buf: &mut [u8],
) -> Result<Lines, Refusal>
    ensures lines { (root : Str) → ForAll root source.now.bytes.now source.now.index.now (λ sheet.
        Leads sheet group.start group.left group.id
        → Adds (zero_fields_of_group sheet group.left group.id) buf.old before buf.new result) }
    ensures within { AddsWithin buf.old before buf.new result }
{
    if group.left == 0 {
        return Err(Refusal::TooDeep);
    }
    let Some(node) = source.find(group.id) else {
        return Err(Refusal::NoNode);
    };
    if node.is_struct != 1 {
        return Err(Refusal::NoStruct);
    }
    let mut table = Table {
        offsets: [0; SIZE],
        types: [LineType::Void; SIZE],
    };
    let mut lines = tag_line(node.tag_count, node.tag_offset, before, buf);
    let s = source.bytes;
    let first = node.fields;
    let mut at = first;
    let mut count = 0;
    // Where the next field stands is what the one before says, so no range counts them.
    while let Some(field) = field::read(s, at) {
        lines = match field {
            Field::Slot(slot) => {
                let fields = Fields { s, first, count };
                zero_slot(&fields, &mut table, slot, lines, buf)
            }
            Field::Group(inner) => {
                zero_fields_of_group(source, group.inner(inner.id), lines, buf)?
            }
        };
        at = field.next();
        count += 1;
    }
    Ok(lines)
}

// The zeroing of the group with this id: its text, or its refusal.
pub fn zeroing(source: &Source<'_>, id: u64, t: Text, buf: &mut [u8]) -> Result<Zeroed, Refusal>
    ensures text { (root : Str) → ForAll root source.now.bytes.now source.now.index.now (λ sheet.
        Zeroes (zero_fields_of_group sheet 16 id) buf.old t buf.new result) }
    ensures within { ZeroedWithin buf.old t buf.new result }
{
    let none = Lines {
        text: t,
        clear: false,
        any: false,
    };
    let first = Visit {
        id,
        left: 16,
        start: id,
    };
    let lines = zero_fields_of_group(source, first, none, buf)?;
    if lines.any {
        return Ok(Zeroed {
            text: lines.text,
            clear: lines.clear,
        });
    }
    Ok(Zeroed {
        text: lines.text.no_lines(buf),
        clear: lines.clear,
    })
}

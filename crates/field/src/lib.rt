// A field of the sheet by value, read once: what its F or G row says, its type's row and its V row, where its name, type and
// words stand, and where the next field begins. A caller may hold it as numbers.
#![tactic(auto)]

ghost use Rattle.std.specs.Prelude.{◌≡◌, List, ℕ, ◌≤◌, drop, length};
ghost use Rattle.text.specs.Bytes.{Str};
ghost use Rattle.row.specs.Rows.{rows, rest_of};
ghost use Rattle.row.specs.Span.{text_between};
ghost use Rattle.tree.specs.Tree as tree;
ghost use Rattle.tree.specs.Reader.{map_r};
ghost use Rattle.tree.specs.Read.{read_type, read_words_up_to, read_slot};
ghost use Rattle.tree.specs.Walked.{counted};
ghost use Rattle.tree.specs.Fields.{FieldsHere};
ghost use Rattle.nodes.specs.Index.{nth};
ghost use Rattle.field.specs.Slot.{SlotField, SlotHere};
ghost use Rattle.field.specs.Field.{next_of, GroupHere, ReadsFirst, Fewer, FindsField};
ghost use Rattle.field.specs.Parts.{Gets, TypeIs, most_words, SlotRead};
ghost use Rattle.field.specs.Numbers.{slot_numbers, group_numbers, with_field, slot_in, group_in, field_in};

use row::Line;
use terms::Kind;
use tree::{Counted, RefusedRow};

// How many numbers are room enough for any field: what it is, and the thirteen of a slot.
pub const FIELD_SIZE: usize = 14;

// What the first number says: that nothing is there, a slot, or a group. C holds it.
const NOTHING: u64 = 0;

const SLOT: u64 = 1;

const GROUP: u64 = 2;

// How many numbers a group has.
const GROUP_SIZE: usize = 5;

// The most words of a slot.
const WORDS: u64 = 255;

// A slot. The numbers of its F row, its flags among them, as a caller may lend any number:
#[derive(Clone, Copy)]
pub struct Slot {
    pub offset: u64,
    pub discriminant: u64,
    pub explicit: u64,
    pub option: u64,
    // The type's kind, and the id of its node; of an AnyPointer, whether it is a parameter.
    pub kind: Kind,
    pub id: u64,
    // The default's kind and its bits.
    pub default: Kind,
    pub bits: u64,
    // Where the F row stands, the type, the words, how many these are, and where the next field begins.
    pub at: usize,
    pub typ: usize,
    pub words: usize,
    pub count: u64,
    pub next: usize,
}

// A group: the numbers of its G row, where that row stands, and where the next field begins.
#[derive(Clone, Copy)]
pub struct Group {
    pub id: u64,
    pub discriminant: u64,
    pub at: usize,
    pub next: usize,
}

// A field: a slot, or a group.
#[derive(Clone, Copy)]
pub enum Field {
    Slot(Slot),
    Group(Group),
}

impl Slot {
    // The field's name: the sheet's own bytes.
    pub fn name(self, s: &[u8]) -> &[u8]
        ensures name { (f : SlotField) → SlotHere s.now self f → result.now ≡ f.name }
        ensures is { result.now ≡ text_between s.now self.at self.typ }
    {
        row::text_before(s, self.at, self.typ)
    }

    // Its numbers, as a caller holds them. A slot and a group have other numbers, so each gives and takes its own, by methods of
    // this crate alone. A `From` would be public, and nobody outside is to make a slot or a group of numbers but by `get`, which
    // tests what the first of them says.
    fn numbers(self) -> [u64; FIELD_SIZE]
        ensures { result ≡ slot_numbers self }
    {
        [
            SLOT,
            self.offset,
            self.discriminant,
            self.explicit,
            self.option,
            self.kind.number(),
            self.id,
            self.default.number(),
            self.bits,
            self.at as u64,
            self.typ as u64,
            self.words as u64,
            self.count,
            self.next as u64,
        ]
    }

    // The slot with these numbers: no `From`, which would be public.
    fn from_numbers(numbers: &[u64; FIELD_SIZE]) -> Slot
        ensures { result ≡ slot_in numbers.now }
    {
        let [
            _,
            offset,
            discriminant,
            explicit,
            option,
            kind,
            id,
            default,
            bits,
            at,
            typ,
            words,
            count,
            next,
        ] = *numbers;
        Slot {
            offset,
            discriminant,
            explicit,
            option,
            kind: Kind::from(kind),
            id,
            default: Kind::from(default),
            bits,
            at: at as usize,
            typ: typ as usize,
            words: words as usize,
            count,
            next: next as usize,
        }
    }
}

impl Group {
    // The field's name: the sheet's own bytes.
    pub fn name(self, s: &[u8]) -> &[u8]
        ensures name { (name : Str) (d id : ℕ) → GroupHere s.now self name d id → result.now ≡ name }
        ensures is { result.now ≡ text_between s.now self.at self.next }
    {
        row::text_before(s, self.at, self.next)
    }

    // Its numbers, as a caller holds them: no `From`, which would be public.
    fn numbers(self) -> [u64; GROUP_SIZE]
        ensures { result ≡ group_numbers self }
    {
        [
            GROUP,
            self.id,
            self.discriminant,
            self.at as u64,
            self.next as u64,
        ]
    }

    // The group with these numbers: no `From`, which would be public.
    fn from_numbers(numbers: &[u64; FIELD_SIZE]) -> Group
        ensures { result ≡ group_in numbers.now }
    {
        let [_, id, discriminant, at, next, ..] = *numbers;
        Group {
            id,
            discriminant,
            at: at as usize,
            next: next as usize,
        }
    }
}

impl Field {
    // Where the next field begins.
    pub fn next(self) -> usize
        ensures { result ≡ next_of self }
    {
        match self {
            Field::Slot(slot) => slot.next,
            Field::Group(group) => group.next,
        }
    }
}

// What the row of a type says, kind and a, and where the rows after the type begin.
#[derive(Clone, Copy)]
struct TypeSpan {
    kind: Kind,
    id: u64,
    past: usize,
}

// The type at a position: its row is read, and what is nested is passed over. A row that is no T row counts as a Void with
// nothing after it.
fn type_span(s: &[u8], at: usize) -> TypeSpan
    ensures is { Gets (read_type 16 (rows (drop at s.now))) (TypeIs s.now result) }
    ensures fewer { length (rows (drop result.past s.now)) ≤ length (rows (drop at s.now)) }
{
    let got = row::next(s, at);
    let Ok(Line::Typ { kind, a, b, .. }) = got.line else {
        return TypeSpan {
            kind: Kind::Void,
            id: 0,
            past: got.next,
        };
    };
    let past = match kind {
        Kind::List => types::past(s, got.next, 1),
        Kind::Enum | Kind::Struct | Kind::Interface => types::past(s, got.next, b),
        _ => got.next,
    };
    TypeSpan { kind, id: a, past }
}

// The W rows at a position, up to 255, where there may be any.
fn words_from(s: &[u8], from: usize, any: bool) -> Result<Counted, RefusedRow>
    ensures { counted s.now result ≡ map_r length (read_words_up_to (most_words any)) (rows (drop from s.now)) }
{
    tree::words_up_to(s, from, if any { WORDS } else { 0 })
}

// The slot whose F row stands at a position and says these numbers; its type follows.
fn slot_from(
    s: &[u8],
    at: usize,
    typ: usize,
    offset: u64,
    discriminant: u64,
    explicit: u64,
    option: u64,
) -> Option<Field>
    ensures is { rows (drop typ s.now) ≡ rest_of (rows (drop at s.now))
        → Gets (read_slot offset explicit option (rows (drop typ s.now)))
        (SlotRead s.now result at discriminant) }
    ensures fewer { Fewer s.now typ result }
{
    let span = type_span(s, typ);
    let value = row::next(s, span.past);
    let Ok(
        Line::Value {
            kind: default,
            bits,
        },
    ) = value.line
    else {
        return None;
    };
    let words = words_from(s, value.next, tree::has_words(explicit, default)).ok()?;
    Some(Field::Slot(Slot {
        offset,
        discriminant,
        explicit,
        option,
        kind: span.kind,
        id: span.id,
        default,
        bits,
        at,
        typ,
        words: value.next,
        count: words.count,
        next: words.next,
    }))
}

// The field at a position.
pub fn read(s: &[u8], at: usize) -> Option<Field>
    ensures first { (fs : List tree.Field) → FieldsHere (rows (drop at s.now)) fs
        → ReadsFirst s.now result fs }
    ensures fewer { Fewer s.now at result }
{
    let got = row::next(s, at);
    match got.line {
        Ok(
            Line::Field {
                offset,
                discriminant,
                explicit,
                option,
            },
        ) => slot_from(s, at, got.next, offset, discriminant, explicit, option),
        Ok(Line::Group { id, discriminant }) => Some(Field::Group(Group {
            id,
            discriminant,
            at,
            next: got.next,
        })),
        _ => None,
    }
}

// The field with a number, from 0, of those that stand at a position.
pub fn at_place(s: &[u8], from: usize, place: u64) -> Option<Field>
    ensures found { (fs : List tree.Field) → FieldsHere (rows (drop from s.now)) fs
        → FindsField s.now result (nth place fs) }
    ensures fewer { Fewer s.now from result }
{
    let mut at = from;
    for _ in 0..place {
        at = read(s, at)?.next();
    }
    read(s, at)
}

// Puts a field's numbers, if there is room for any field; those after them stay.
pub fn put(field: Option<Field>, numbers: &mut [u64])
    ensures { numbers.new ≡ with_field numbers.old field }
{
    if numbers.len() < FIELD_SIZE {
        return;
    }
    match field {
        Some(Field::Slot(slot)) => numbers[..FIELD_SIZE].copy_from_slice(&slot.numbers()),
        Some(Field::Group(group)) => numbers[..GROUP_SIZE].copy_from_slice(&group.numbers()),
        None => numbers[0] = NOTHING,
    }
}

// The field with these numbers: nothing where they are too few, or the first says neither a slot nor a group.
pub fn get(numbers: &[u64]) -> Option<Field>
    ensures { result ≡ field_in numbers.now }
{
    let numbers = numbers.first_chunk::<FIELD_SIZE>()?;
    match numbers[0] {
        SLOT => Some(Field::Slot(Slot::from_numbers(numbers))),
        GROUP => Some(Field::Group(Group::from_numbers(numbers))),
        _ => None,
    }
}

// What a line says, by its letter: its numbers and its text from left to right, or the first of them that is bad.
ghost use Rattle.std.specs.Prelude.{◌≡◌, ℕ};
ghost use Rattle.text.specs.Bytes.{cond};
ghost use Rattle.terms.specs.Kinds.{number_of};
ghost use Rattle.row.specs.Line.{root_line, node_line, parameter_line, field_line, group_line};
ghost use Rattle.row.specs.Line.{type_line, scope_line, unbound_line, value_line, word_line};
ghost use Rattle.row.specs.Line.{Content, Bad, letter_of, bad_text, line_said, good_said, said_with};
ghost use Rattle.row.specs.Line.{with_number, with_nothing, reader};
ghost use Rattle.row.specs.Line.{most_a, most_b, most_c, most_count, most_bits};

use crate::{BadLine, Line};
use terms::{Kind, Refusal, limits};

// The greatest numbers of 32 and 16 bits.
const MOST_32: u64 = 0xffff_ffff;

const MOST_16: u64 = 0xffff;

// The number of the last kind, and how many kinds there are.
const LAST_KIND: u64 = 18;

const KINDS: usize = 19;

// The greatest bits of a value of each kind: Void, Bool, Int8 to Int64, Uint8 to Uint64, Float32, Float64, Text, Data, List,
// Enum, Struct, Interface, AnyPointer.
const MOST_BITS: [u64; KINDS] = [
    0,
    1,
    0xff,
    MOST_16,
    MOST_32,
    u64::MAX,
    0xff,
    MOST_16,
    MOST_32,
    u64::MAX,
    MOST_32,
    u64::MAX,
    0,
    0,
    0,
    MOST_16,
    0,
    0,
    0,
];

// No line.
pub const NO_LINE: BadLine = BadLine {
    letter: 0,
    refusal: Refusal::BadLine,
    column: 1,
};

// The letter of a line; an empty one has 0.
fn letter_of(t: &[u8]) -> u8
    ensures { result ≡ letter_of t.now }
{
    t.first().copied().unwrap_or(0)
}

// A number from `least` to `most` in the columns from `a` on, or a bad line. Written out at each call, so that a number is handed
// on in a register: with a call, each took half as many instructions again.
#[inline(always)]
#[tactic(auto, unfolding(crate::specs::Line::line_said))]
fn number(t: &[u8], a: u16, least: u64, most: u64) -> Result<u64, BadLine>
    ensures { (f : ℕ → Content) → said_with result f ≡ with_number t.now a least most f }
{
    let a = usize::from(a);
    column::column(t, a, least, most).ok_or(BadLine {
        letter: letter_of(t),
        refusal: Refusal::BadNumber,
        column: a + 1,
    })
}

// The line ends in one space at `a` and a good text. With another text after that space, or without a space, it is bad.
#[tactic(auto, unfolding(crate::specs::Line::line_said))]
fn text(t: &[u8], a: u16, good: bool) -> Result<(), BadLine>
    ensures { (line : Content) → said_with result (λ _. line) ≡ cond good line (Bad (letter_of t.now) (bad_text t.now a)) }
{
    if good {
        return Ok(());
    }
    let a = usize::from(a);
    let column = if a < t.len() && t[a] == b' ' {
        a + 2
    } else {
        a + 1
    };
    Err(BadLine {
        letter: letter_of(t),
        refusal: Refusal::BadText,
        column,
    })
}

// The line ends at `a`. With more bytes or fewer it is bad.
#[tactic(auto, unfolding(crate::specs::Line::line_said))]
fn nothing(t: &[u8], a: u16) -> Result<(), BadLine>
    ensures { (line : Content) → said_with result (λ _. line) ≡ with_nothing t.now a line }
{
    let a = usize::from(a);
    if t.len() == a {
        return Ok(());
    }
    Err(BadLine {
        letter: letter_of(t),
        refusal: Refusal::BadText,
        column: a + 1,
    })
}

// R: the root, 1 to 64 graphic bytes.
#[tactic(auto, unfolding(crate::specs::Line::line_said, crate::specs::Line::root_line))]
fn root_line(t: &[u8]) -> Result<Line, BadLine>
    ensures { line_said result ≡ root_line t.now }
{
    text(t, 1, column::ends_in_graphic(t, 1, limits::ROOT_BYTES))?;
    Ok(Line::Root)
}

// N: seven numbers and the module, 1 to 128 graphic bytes.
#[tactic(auto, unfolding(crate::specs::Line::line_said, crate::specs::Line::node_line))]
fn node_line(t: &[u8]) -> Result<Line, BadLine>
    ensures { line_said result ≡ node_line t.now }
{
    let id = number(t, 1, 1, u64::MAX)?;
    let parent = number(t, 22, 0, u64::MAX)?;
    let scope = number(t, 43, 0, u64::MAX)?;
    let is_struct = number(t, 64, 0, 1)?;
    let generic = number(t, 85, 0, 1)?;
    let tag_count = number(t, 106, 0, MOST_16)?;
    let tag_offset = number(t, 127, 0, MOST_32)?;
    text(
        t,
        148,
        column::ends_in_graphic(t, 148, limits::MODULE_BYTES),
    )?;
    Ok(Line::Node {
        id,
        parent,
        scope,
        is_struct,
        generic,
        tag_count,
        tag_offset,
    })
}

// P: the parameter's name.
#[tactic(auto, unfolding(crate::specs::Line::line_said, crate::specs::Line::parameter_line))]
fn parameter_line(t: &[u8]) -> Result<Line, BadLine>
    ensures { line_said result ≡ parameter_line t.now }
{
    text(t, 1, column::ends_in_name(t, 1))?;
    Ok(Line::Parameter)
}

// F: four numbers and the field's name.
#[tactic(auto, unfolding(crate::specs::Line::line_said, crate::specs::Line::field_line))]
fn field_line(t: &[u8]) -> Result<Line, BadLine>
    ensures { line_said result ≡ field_line t.now }
{
    let offset = number(t, 1, 0, MOST_32)?;
    let discriminant = number(t, 22, 0, MOST_16)?;
    let explicit = number(t, 43, 0, 1)?;
    let option = number(t, 64, 0, 1)?;
    text(t, 85, column::ends_in_field_name(t, 85))?;
    Ok(Line::Field {
        offset,
        discriminant,
        explicit,
        option,
    })
}

// G: the group's id, the discriminant and the field's name.
#[tactic(auto, unfolding(crate::specs::Line::line_said, crate::specs::Line::group_line))]
fn group_line(t: &[u8]) -> Result<Line, BadLine>
    ensures { line_said result ≡ group_line t.now }
{
    let id = number(t, 1, 1, u64::MAX)?;
    let discriminant = number(t, 22, 0, MOST_16)?;
    text(t, 43, column::ends_in_field_name(t, 43))?;
    Ok(Line::Group { id, discriminant })
}

// The kind of a T or a V line: its first number.
#[inline(always)]
#[tactic(auto, unfolding(crate::specs::Line::line_said))]
fn kind(t: &[u8]) -> Result<Kind, BadLine>
    ensures { (f : ℕ → Content) → said_with result (λ k. f (number_of k)) ≡ with_number t.now 1 0 18 f }
{
    let n = number(t, 1, 0, LAST_KIND)?;
    Ok(Kind::from(n))
}

// T's a by the kind: an id for Enum, Struct and Interface, 0 or 1 for AnyPointer, otherwise 0.
#[tactic(auto, unfolding(crate::specs::Line::most_a))]
fn most_a(kind: Kind) -> u64
    ensures { result ≡ most_a (number_of kind) }
{
    match kind {
        Kind::Enum | Kind::Struct | Kind::Interface => u64::MAX,
        Kind::AnyPointer | Kind::Unnamed(_) => 1,
        _ => 0,
    }
}

// T's b: a number of scopes for Enum, Struct and Interface, a scope id for a parameter, otherwise 0.
#[tactic(auto, unfolding(crate::specs::Line::most_b))]
fn most_b(kind: Kind, a: u64) -> u64
    ensures { result ≡ most_b (number_of kind) a }
{
    match kind {
        Kind::Enum | Kind::Struct | Kind::Interface => u64::MAX,
        Kind::AnyPointer | Kind::Unnamed(_) if a != 0 => u64::MAX,
        _ => 0,
    }
}

// T's c: a parameter's index, otherwise 0.
#[tactic(auto, unfolding(crate::specs::Line::most_c))]
fn most_c(kind: Kind, a: u64) -> u64
    ensures { result ≡ most_c (number_of kind) a }
{
    match kind {
        Kind::AnyPointer | Kind::Unnamed(_) if a != 0 => MOST_16,
        _ => 0,
    }
}

// T: the kind, and what it allows for a, b and c.
#[tactic(auto, unfolding(crate::specs::Line::line_said, crate::specs::Line::type_line))]
fn type_line(t: &[u8]) -> Result<Line, BadLine>
    ensures { line_said result ≡ type_line t.now }
{
    let kind = kind(t)?;
    let a = number(t, 22, 0, most_a(kind))?;
    let b = number(t, 43, 0, most_b(kind, a))?;
    let c = number(t, 64, 0, most_c(kind, a))?;
    nothing(t, 85)?;
    Ok(Line::Typ { kind, a, b, c })
}

// S's bindings: none under inherit (0), any number under bind (1).
#[tactic(auto, unfolding(crate::specs::Line::most_count))]
fn most_count(bind: u64) -> u64
    ensures { result ≡ most_count bind }
{
    if bind == 0 { 0 } else { u64::MAX }
}

// S: the scope id, whether it binds, and how many bindings follow.
#[tactic(auto, unfolding(crate::specs::Line::line_said, crate::specs::Line::scope_line))]
fn scope_line(t: &[u8]) -> Result<Line, BadLine>
    ensures { line_said result ≡ scope_line t.now }
{
    let id = number(t, 1, 0, u64::MAX)?;
    let bind = number(t, 22, 0, 1)?;
    let count = number(t, 43, 0, most_count(bind))?;
    nothing(t, 64)?;
    Ok(Line::Scope {
        id,
        bindings: (bind != 0).then_some(count),
    })
}

// U: the letter alone.
#[tactic(auto, unfolding(crate::specs::Line::line_said, crate::specs::Line::unbound_line))]
fn unbound_line(t: &[u8]) -> Result<Line, BadLine>
    ensures { line_said result ≡ unbound_line t.now }
{
    nothing(t, 1)?;
    Ok(Line::Unbound)
}

// V's bits: as many as the kind's values have.
#[tactic(auto, unfolding(crate::specs::Line::most_bits))]
fn most_bits(kind: Kind) -> u64
    ensures { result ≡ most_bits (number_of kind) }
{
    MOST_BITS.get(kind.number() as usize).copied().unwrap_or(0)
}

// V: the kind, and bits that fit its width.
#[tactic(auto, unfolding(crate::specs::Line::line_said, crate::specs::Line::value_line))]
fn value_line(t: &[u8]) -> Result<Line, BadLine>
    ensures { line_said result ≡ value_line t.now }
{
    let kind = kind(t)?;
    let bits = number(t, 22, 0, most_bits(kind))?;
    nothing(t, 43)?;
    Ok(Line::Value { kind, bits })
}

// W: one number.
#[tactic(auto, unfolding(crate::specs::Line::line_said, crate::specs::Line::word_line))]
fn word_line(t: &[u8]) -> Result<Line, BadLine>
    ensures { line_said result ≡ word_line t.now }
{
    let value = number(t, 1, 0, u64::MAX)?;
    nothing(t, 22)?;
    Ok(Line::Word { value })
}

// What a line says, by its letter.
#[tactic(auto, unfolding(crate::specs::Line::line_said, crate::specs::Line::reader))]
pub fn read(t: &[u8], letter: u8) -> Result<Line, BadLine>
    ensures { line_said result ≡ reader letter t.now }
{
    match letter {
        b'R' => root_line(t),
        b'N' => node_line(t),
        b'P' => parameter_line(t),
        b'F' => field_line(t),
        b'G' => group_line(t),
        b'T' => type_line(t),
        b'S' => scope_line(t),
        b'U' => unbound_line(t),
        b'V' => value_line(t),
        b'W' => word_line(t),
        _ => Err(NO_LINE),
    }
}

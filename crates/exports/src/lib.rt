// The boundary of the static library, for C, Rust and the comparison with capnpc: crate exports_c gives these functions to C,
// and kitlubas.h declares them.
//
// The writers put their text at the fill count `at` and answer the new one, which stops at 18446744073709551614. Bytes past the
// end of the buffer are counted and not written. What is not taken writes nothing and answers 18446744073709551615.
#![tactic(auto)]

mod index;
mod pad;
mod verdicts;

ghost use Rattle.tree.specs.Read.{admitted};
ghost use Rattle.names.specs.Names.{camel_to_snake_case, default_name, module_name};
ghost use Rattle.text.specs.Decimal.{decimal};
ghost use Rattle.text.specs.Lines.{Line, BlankLine, Branch, none, to_lines, stringify, ended};
ghost use Rattle.requests.specs.Told.{in_numbers};
ghost use Rattle.exports.specs.Boundary.{Fills, FillsName, Signed, Told, Asked, ask, accessor_numbered, request_of};
ghost use Rattle.exports.specs.Parts.{Tells, Said};
ghost use Rattle.std.specs.Prelude.{◌≡◌, ◌-◌, ◌^◌, min};

use codegen_types::Leaf;
pub use index::{
    claims, kitlubas_answer_in, kitlubas_field, kitlubas_index, kitlubas_index_size, kitlubas_node,
    kitlubas_text,
};
pub use pad::kitlubas_pad;
use requests::{Accessor, Request};
use sheet::Refused;
use text::Text;
pub use verdicts::kitlubas_verdict;

// The largest fill count that is answered: one below the answer for what is not taken.
const LARGEST: usize = 0xffff_ffff_ffff_fffe;

// The fill count of a state, as it is answered.
fn count(t: Text) -> usize
    ensures { result ≡ min t.at (2 ^ 64 - 2) }
{
    t.fill().min(LARGEST)
}

// The number in decimal.
pub fn kitlubas_number(at: usize, buf: &mut [u8], n: u64) -> usize
    ensures { Fills buf.old at (decimal n) buf.new result }
{
    let t = Text::at(at).number(buf, n);
    count(t)
}

// The number with these bits in two's complement. Bits past the width are dropped; a width is taken that is 8, 16, 32 or 64.
// The program replay has the four arms by letter: for a function of both it would name the width in as many arms, and throw away
// the answer that there is none.
pub fn kitlubas_signed(at: usize, buf: &mut [u8], width: u32, n: u64) -> usize
    ensures { Signed buf.old at width n buf.new result }
{
    let t = Text::at(at);
    match width {
        8 => count(t.signed(buf, 0x80, n % 0x100)),
        16 => count(t.signed(buf, 0x8000, n % 0x1_0000)),
        32 => count(t.signed(buf, 0x8000_0000, n % 0x1_0000_0000)),
        64 => count(t.signed(buf, 0x8000_0000_0000_0000, n)),
        _ => usize::MAX,
    }
}

// A line with an indent of so many steps, four spaces each.
pub fn kitlubas_line(at: usize, buf: &mut [u8], indent: usize, line: &[u8]) -> usize
    ensures { Fills buf.old at (ended (to_lines (Line line.now) indent)) buf.new result }
{
    let t = Text::at(at).line(buf, indent, line);
    count(t)
}

// An empty line.
pub fn kitlubas_blank_line(at: usize, buf: &mut [u8]) -> usize
    ensures { Fills buf.old at (ended (to_lines BlankLine 0)) buf.new result }
{
    let t = Text::at(at).blank_line(buf);
    count(t)
}

// What `stringify` makes of no lines.
pub fn kitlubas_no_lines(at: usize, buf: &mut [u8]) -> usize
    ensures { Fills buf.old at (stringify (Branch none) 0) buf.new result }
{
    let t = Text::at(at).no_lines(buf);
    count(t)
}

// The snake name of a name, `camel_to_snake_case`. A name is taken that has at most 64 bytes, of ASCII and letters from U+00C0 to
// U+00FF in UTF-8. This and the next two stand whole: a writer as an argument would lend the buffer to a closure, with a contract
// as long as these bodies.
pub fn kitlubas_snake(at: usize, buf: &mut [u8], name: &[u8]) -> usize
    ensures { FillsName buf.old at camel_to_snake_case name.now buf.new result }
{
    if !names::takes(name) {
        return usize::MAX;
    }
    let t = names::snake_name(name, Text::at(at), buf);
    count(t)
}

// The name of a name's default's constant.
pub fn kitlubas_default_name(at: usize, buf: &mut [u8], name: &[u8]) -> usize
    ensures { FillsName buf.old at default_name name.now buf.new result }
{
    if !names::takes(name) {
        return usize::MAX;
    }
    let t = names::default_name(name, Text::at(at), buf);
    count(t)
}

// The module of a name, `module_name`.
pub fn kitlubas_module_name(at: usize, buf: &mut [u8], name: &[u8]) -> usize
    ensures { FillsName buf.old at module_name name.now buf.new result }
{
    if !names::takes(name) {
        return usize::MAX;
    }
    let t = names::module_name(name, Text::at(at), buf);
    count(t)
}

// The number of the sheet's refusal, 0 for a sheet that is admitted; `line` and `column` become the refusal's, or 0.
pub fn kitlubas_admit(s: &[u8], line: &mut usize, column: &mut usize) -> u64
    ensures { Told (admitted s.now) result line.new column.new }
{
    let mut none = [0u64; 0];
    kitlubas_index(s, &mut none, line, column)
}

// Tells a refusal: its number, or 0 where there is none; `line` and `column` become the refusal's, or 0.
fn tell(refused: Option<Refused>, line: &mut usize, column: &mut usize) -> u64
    ensures { Tells refused result line.new column.new }
{
    let Some(refused) = refused else {
        *line = 0;
        *column = 0;
        return 0;
    };
    *line = refused.line;
    *column = refused.column;
    refused.refusal.number()
}

// Says an answer: 0 with `fill` moved past the text, or the number of its refusal; `line` and `column` become the refusal's.
fn say(answer: Result<Text, Refused>, fill: &mut usize, line: &mut usize, column: &mut usize) -> u64
    ensures { Said (in_numbers answer) fill.old fill.new result line.new column.new }
{
    if let Ok(t) = answer {
        *fill = t.fill();
    }
    tell(answer.err(), line, column)
}

// The text of a field with a number, as C holds it: 0 is its type's text for the leaf with a number, 1 and 2 are the getters of
// reader and builder, 3 and 4 the same as functions, 5 is the setter, 6 and 7 are the hasers of reader and builder, 8 is the
// zeroing, 9 is the paired setter.
#[tactic(auto, unfolding(crate::specs::Boundary::accessor_numbered, nodes::specs::Index::nth))]
fn accessor_of(number: u64, leaf: u64) -> Option<Accessor>
    ensures { result ≡ accessor_numbered number leaf }
{
    match number {
        0 => Some(Accessor::TypeText {
            leaf: Leaf::try_from(leaf).ok(),
        }),
        1 => Some(Accessor::Getter {
            is_reader: true,
            is_fn: false,
        }),
        2 => Some(Accessor::Getter {
            is_reader: false,
            is_fn: false,
        }),
        3 => Some(Accessor::Getter {
            is_reader: true,
            is_fn: true,
        }),
        4 => Some(Accessor::Getter {
            is_reader: false,
            is_fn: true,
        }),
        5 => Some(Accessor::Setter),
        6 => Some(Accessor::Haser { is_reader: true }),
        7 => Some(Accessor::Haser { is_reader: false }),
        8 => Some(Accessor::Zeroing),
        9 => Some(Accessor::PairedSetter),
        _ => None,
    }
}

// The request with a number, for that text of the field at a place, if there is one.
fn request_of(number: u64, place: u64, leaf: u64) -> Option<Request>
    ensures { result ≡ request_of number place leaf }
{
    let accessor = accessor_of(number, leaf)?;
    Some(Request::Field { place, accessor })
}

// The answer to the request with a number, at a level of indentation.
pub fn kitlubas_answer(
    s: &[u8],
    id: u64,
    place: u64,
    request: u64,
    leaf: u64,
    level: usize,
    fill: &mut usize,
    line: &mut usize,
    column: &mut usize,
    buf: &mut [u8],
) -> u64
    ensures { Asked buf.old fill.old
        (ask (admitted s.now) id (request_of request place leaf) level)
        buf.new fill.new result line.new column.new }
{
    let asked = request_of(request, place, leaf);
    let start = Text::at_level(*fill, level);
    let answer = requests::answer_request(s, id, asked, start, buf);
    say(answer, fill, line, column)
}

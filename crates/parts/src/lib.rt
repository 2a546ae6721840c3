// What the program `accessors` prints: document 01's headers and texts, in their order, in pieces as large as the output buffer
// holds. All that is printed of a field is a unit: its parts, one behind the other, each written straight into the buffer, and
// measured before only where a getter of the field is refused or too long.
#![tactic(auto)]

use field::Field;
use nodes::Source;
use requests::{Accessor, Located};
use terms::Refusal;
use text::Text;

mod print;

ghost use Rattle.std.specs.Prelude.{◌≡◌, ◌*◌, length};
ghost use Rattle.text.specs.Text.{Wrote};
ghost use Rattle.requests.specs.Requests.{accessor_text};
ghost use Rattle.requests.specs.Told.{OfField};
ghost use Rattle.parts.specs.Program.{accessor_of, header_text, refused_text, part_text};
ghost use Rattle.parts.specs.Program.{opening as Program·opening};
ghost use Rattle.parts.specs.Fit.{part_most, fit_of, Within, TakesAtMost, Puts, PartPut, PartsPut, FieldPut};
ghost use Rattle.parts.specs.Fit.{SaidUnder, Under, NotLong};

pub use print::{claims, print_sheet};

// The bytes that a text has at most; a longer one is refused with 22.
const TEXT_SIZE: usize = 65536;

// A part of a field.
#[derive(Clone, Copy)]
enum Part {
    GetterReader,
    GetterBuilder,
    Setter,
    HaserReader,
    HaserBuilder,
    Zero,
}

// The parts of a slot, in their order.
const SLOT_PARTS: [Part; 5] = [
    Part::GetterReader,
    Part::GetterBuilder,
    Part::Setter,
    Part::HaserReader,
    Part::HaserBuilder,
];

// The one part of a group.
const GROUP_PARTS: [Part; 1] = [Part::Zero];

// A part that is to be written, and whether its text is measured before: a flag, as both ways then call the same functions.
#[derive(Clone, Copy)]
struct Job {
    part: Part,
    measured: bool,
}

// Where the printing of a sheet stands: at the refusal of the sheet; at a field of the node with a number, from 0, or at what
// stands after its last; at the end.
#[derive(Clone, Copy)]
enum Place {
    Refused(sheet::Refused),
    At { node: usize, field: usize },
    End,
}

// What the next unit takes of a buffer, if there is room for it, and the place after it.
#[derive(Clone, Copy)]
struct Turn {
    fit: Option<usize>,
    next: Place,
}

// A piece: so many bytes of the buffer, and the place after them.
#[derive(Clone, Copy)]
struct Piece {
    n: usize,
    next: Place,
}

// The accessor that is asked for a part: a getter in the form that is not a function.
fn asked(part: Part) -> Accessor
    ensures { result ≡ accessor_of part }
{
    match part {
        Part::GetterReader => Accessor::Getter {
            is_reader: true,
            is_fn: false,
        },
        Part::GetterBuilder => Accessor::Getter {
            is_reader: false,
            is_fn: false,
        },
        Part::Setter => Accessor::Setter,
        Part::HaserReader => Accessor::Haser { is_reader: true },
        Part::HaserBuilder => Accessor::Haser { is_reader: false },
        Part::Zero => Accessor::Zeroing,
    }
}

// The header of a part up to the name.
fn opening(part: Part, t: Text, buf: &mut [u8]) -> Text
    ensures { Wrote buf.old t (Program·opening part) buf.new result }
{
    let head: &[u8] = match part {
        Part::GetterReader => b"# getter reader ",
        Part::GetterBuilder => b"# getter builder ",
        Part::Setter => b"# setter ",
        Part::HaserReader => b"# haser reader ",
        Part::HaserBuilder => b"# haser builder ",
        Part::Zero => b"# zero ",
    };
    t.bytes(buf, head)
}

// The header of a part of the field with a name.
fn header(name: &[u8], part: Part, t: Text, buf: &mut [u8]) -> Text
    ensures { Wrote buf.old t (header_text part name.now) buf.new result }
{
    let t = opening(part, t, buf);
    let t = t.bytes(buf, name);
    t.byte(buf, b'\n')
}

// How many bytes the text that a state ends takes of the buffer that it begins, if there is room for it.
fn taken(t: Text, buf: &[u8]) -> Option<usize>
    ensures { result ≡ fit_of t.at (length buf.now) }
{
    let n = t.fill();
    if buf.len() < n { None } else { Some(n) }
}

// What stands under the header of a refused part.
fn refused(number: u64, buf: &mut [u8]) -> Option<usize>
    ensures within { Within result buf.new }
    ensures fits { TakesAtMost 65536 buf.old result }
    ensures said { Puts (refused_text number) buf.new result }
{
    let t = Text::at(0).bytes(buf, b"refused ");
    let t = t.number(buf, number);
    let t = t.byte(buf, b'\n');
    taken(t, buf)
}

// The text of a part of a field that was read, from the start of the buffer on: it is refused too where it is too long.
fn write_text(
    source: &Source<'_>,
    located: &Located,
    part: Part,
    buf: &mut [u8],
) -> Result<Text, Refusal>
    ensures under { OfField source.now located.now.tag located.now.field
        (λ sheet at. Under (accessor_text sheet at (accessor_of part) 0) buf.old buf.new result) }
    ensures fits { NotLong result }
{
    let t = requests::field_accessor(source, located, asked(part), Text::at(0), buf)?;
    if TEXT_SIZE < t.fill() {
        return Err(Refusal::NoRoom);
    }
    Ok(t)
}

// The refusal of a part's text, if it is refused: it is measured over an empty buffer.
fn measure(source: &Source<'_>, located: &Located, part: Part) -> Result<(), Refusal>
    ensures { OfField source.now located.now.tag located.now.field
        (λ sheet at. SaidUnder result (part_text (accessor_text sheet at (accessor_of part) 0))) }
{
    let mut empty = [0u8; 0];
    write_text(source, located, part, &mut empty)?;
    Ok(())
}

// The text of a part, which is measured before it is written where the job says so.
fn job_text(
    source: &Source<'_>,
    located: &Located,
    job: Job,
    buf: &mut [u8],
) -> Result<Text, Refusal>
    ensures under { OfField source.now located.now.tag located.now.field
        (λ sheet at. Under (accessor_text sheet at (accessor_of job.part) 0) buf.old buf.new result) }
    ensures fits { NotLong result }
{
    if job.measured {
        measure(source, located, job.part)?;
    }
    write_text(source, located, job.part, buf)
}

// What stands under the header of a part of a field that was read. Where its text is refused or too long, the refusal is written
// over it.
fn under_header(source: &Source<'_>, located: &Located, job: Job, buf: &mut [u8]) -> Option<usize>
    ensures within { Within result buf.new }
    ensures fits { TakesAtMost 65536 buf.old result }
    ensures said { OfField source.now located.now.tag located.now.field
        (λ sheet at. Puts (part_text (accessor_text sheet at (accessor_of job.part) 0)) buf.new result) }
{
    match job_text(source, located, job, buf) {
        Ok(t) => taken(t, buf),
        Err(refusal) => refused(refusal.number(), buf),
    }
}

// A part of a field that was read: its header, and what stands under it.
fn write_part(
    source: &Source<'_>,
    name: &[u8],
    located: &Located,
    job: Job,
    out: &mut [u8],
) -> Option<usize>
    ensures within { Within result out.new }
    ensures fits { TakesAtMost (part_most name.now) out.old result }
    ensures said { PartPut source.now located.now.tag located.now.field name.now job.part out.new result }
{
    let t = header(name, job.part, Text::at(0), out);
    let n = t.fill();
    if out.len() < n {
        return None;
    }
    let m = under_header(source, located, job, &mut out[n..])?;
    Some(n + m)
}

// Parts of a field, one after the other.
fn write_parts(
    source: &Source<'_>,
    name: &[u8],
    located: &Located,
    parts: &[Part],
    measured: bool,
    out: &mut [u8],
) -> Option<usize>
    ensures within { Within result out.new }
    ensures fits { TakesAtMost (length parts.now * part_most name.now) out.old result }
    ensures said { PartsPut source.now located.now.tag located.now.field name.now parts.now out.new result }
{
    let mut n: usize = 0;
    for &part in parts {
        let job = Job { part, measured };
        n += write_part(source, name, located, job, &mut out[n..])?;
    }
    Some(n)
}

// Whether a getter of the field is refused or too long, where its type may have scopes. The texts of such a field are measured
// before they are written, each as far as the Rust comes; those of any other are written at once.
fn is_refused(source: &Source<'_>, located: &Located) -> bool {
    requests::may_have_scopes(located.field)
        && measure(source, located, Part::GetterReader).is_err()
}

// All that is printed of a field: of a slot five parts, of a group its zeroing.
fn write_field(source: &Source<'_>, located: &Located, out: &mut [u8]) -> Option<usize>
    ensures within { Within result out.new }
    ensures said { FieldPut source.now located.now.tag located.now.field out.old out.new result }
{
    match located.field {
        Field::Slot(slot) => {
            let name = slot.name(source.bytes);
            let measured = is_refused(source, located);
            write_parts(source, name, located, &SLOT_PARTS, measured, out)
        }
        Field::Group(group) => {
            let name = group.name(source.bytes);
            write_parts(source, name, located, &GROUP_PARTS, false, out)
        }
    }
}

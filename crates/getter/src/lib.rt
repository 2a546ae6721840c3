// A slot's getter: `getter_text` of codegen.rs, its text and its refusal, from a slot that was read.
#![tactic(auto)]

ghost use Rattle.std.specs.Prelude.{◌≡◌, Bool, drop};
ghost use Rattle.terms.specs.Kinds.{number_of};
ghost use Rattle.text.specs.Bytes.{Str};
ghost use Rattle.text.specs.Text.{Wrote, WroteLines};
ghost use Rattle.row.specs.Rows.{rows};
ghost use Rattle.tree.specs.Tree as tree;
ghost use Rattle.tree.specs.Read.{read_type};
ghost use Rattle.tree.specs.Reader.{On};
ghost use Rattle.nodes.specs.Index.{InSource};
ghost use Rattle.codegen_types.specs.Out.{ok, ◌then◌, refusal_of};
ghost use Rattle.codegen_types.specs.TypeString.{type_string, get_qualified_module};
ghost use Rattle.codegen_types.specs.Primitive.{primitive_text};
ghost use Rattle.codegen_types.specs.Written.{refusal_number, Writes, Within};
ghost use Rattle.field.specs.Slot.{SlotIs, SlotField, SlotHere};
ghost use Rattle.codegen.specs.Getter.{module_leaf, is_option_field, optional, as_function, getter_fragment, getter_request};
ghost use Rattle.getter.specs.Result.{arrow, enum_result, fallible_result, result_out, declared_by};

use codegen_types::{Leaf, Lifetime};
use field::Slot;
use nodes::Source;
use terms::{Kind, Refusal};
use text::Text;

// The leaf of a Reader's getter, or a Builder's.
fn module_leaf(is_reader: bool) -> Leaf
    ensures { result ≡ module_leaf is_reader }
{
    if is_reader {
        return Leaf::Reader(Lifetime::A);
    }
    Leaf::Builder(Lifetime::A)
}

// What is_option_field refuses: an option of what is no pointer, or of an interface.
fn option_allowed(slot: Slot) -> Result<(), Refusal>
    ensures { (sl : tree.Slot) → SlotIs slot sl → refusal_number result ≡ refusal_of (is_option_field sl) }
{
    if slot.option == 0 {
        return Ok(());
    }
    if slot.kind != Kind::Interface && codegen::is_pointer(slot.kind) {
        return Ok(());
    }
    Err(Refusal::OptionMisplaced)
}

// What getter_fragment refuses: a default that is not of the slot's type.
fn default_allowed(slot: Slot) -> Result<(), Refusal>
    ensures { (sl : tree.Slot) (root name typ : Str) (is_reader is_fn : Bool) → SlotIs slot sl
        → refusal_number result ≡ refusal_of (getter_fragment root name sl is_reader is_fn typ) }
{
    if slot.kind == slot.default {
        return Ok(());
    }
    Err(Refusal::GetterDefault)
}

// The arrow in front of a function's result type.
fn arrow(is_fn: bool, t: Text, buf: &mut [u8]) -> Text
    ensures { Wrote buf.old t (arrow is_fn) buf.new result }
{
    if is_fn {
        return t.bytes(buf, b"-> ");
    }
    t
}

// The result type of a Bool or a number, and of Void, which a function leaves out.
fn prim_result(kind: Kind, is_fn: bool, t: Text, buf: &mut [u8]) -> Text
    ensures { Wrote buf.old t (as_function is_fn (primitive_text (number_of kind))) buf.new result }
{
    match kind {
        Kind::Void if is_fn => t,
        Kind::Void => t.bytes(buf, b"()"),
        _ => {
            let t = arrow(is_fn, t, buf);
            codegen_types::type_name(kind, t, buf)
        }
    }
}

// The result type of an enum, whose node has this id.
fn enum_result(source: &Source<'_>, id: u64, t: Text, buf: &mut [u8]) -> Result<Text, Refusal>
    ensures text { InSource source.now (λ sheet.
        Writes (get_qualified_module sheet id then λ typ. ok (enum_result source.now.root.now typ))
        buf.old t buf.new result) }
    ensures within { Within buf.old t buf.new result }
{
    let t = t.bytes(buf, b"::core::result::Result<");
    let t = type_parts::qualified_module(source, id, t, buf)?;
    let t = t.bytes(buf, b",");
    let t = t.bytes(buf, source.root);
    Ok(t.bytes(buf, b"::NotInSchema>"))
}

// The type at a position, in an option or not.
fn optional_type(
    source: &Source<'_>,
    at: usize,
    leaf: Leaf,
    option: bool,
    t: Text,
    buf: &mut [u8],
) -> Result<Text, Refusal>
    ensures text { InSource source.now (λ sheet.
        On (read_type 16 (rows (drop at source.now.bytes.now))) (λ ty.
        Writes (type_string ty sheet leaf then λ typ. ok (optional option typ)) buf.old t buf.new result)) }
    ensures within { Within buf.old t buf.new result }
{
    if !option {
        return type_string::type_string(source, at, leaf, t, buf);
    }
    let t = t.bytes(buf, b"Option<");
    let t = type_string::type_string(source, at, leaf, t, buf)?;
    Ok(t.bytes(buf, b">"))
}

// The result type of what can fail.
fn fallible_result(
    source: &Source<'_>,
    at: usize,
    leaf: Leaf,
    option: bool,
    t: Text,
    buf: &mut [u8],
) -> Result<Text, Refusal>
    ensures text { InSource source.now (λ sheet.
        On (read_type 16 (rows (drop at source.now.bytes.now))) (λ ty.
        Writes (type_string ty sheet leaf then λ typ. ok (fallible_result source.now.root.now (optional option typ)))
        buf.old t buf.new result)) }
    ensures within { Within buf.old t buf.new result }
{
    let t = t.bytes(buf, source.root);
    let t = t.bytes(buf, b"::Result<");
    let t = optional_type(source, at, leaf, option, t, buf)?;
    Ok(t.bytes(buf, b">"))
}

// The result type of a getter. Its refusal is the type's. `is_reader` and `is_fn` are the Rust's own two parameters: each part
// takes one of them, so that a pair would be taken apart again at once.
fn result_type(
    source: &Source<'_>,
    slot: Slot,
    is_reader: bool,
    is_fn: bool,
    t: Text,
    buf: &mut [u8],
) -> Result<Text, Refusal>
    ensures text { InSource source.now (λ sheet.
        (f : SlotField) → SlotHere source.now.bytes.now slot f
        → Writes (result_out sheet f.slot is_reader is_fn) buf.old t buf.new result) }
    ensures within { Within buf.old t buf.new result }
{
    let kind = slot.kind;
    if kind.is_primitive() {
        return Ok(prim_result(kind, is_fn, t, buf));
    }
    let t = arrow(is_fn, t, buf);
    let leaf = module_leaf(is_reader);
    let option = slot.option != 0;
    match kind {
        Kind::Enum => enum_result(source, slot.id, t, buf),
        Kind::Interface => fallible_result(source, slot.typ, Leaf::Client, false, t, buf),
        Kind::AnyPointer if slot.id == 0 => optional_type(source, slot.typ, leaf, option, t, buf),
        _ => fallible_result(source, slot.typ, leaf, option, t, buf),
    }
}

// The declaration of the default, if there is one.
fn declaration(source: &Source<'_>, name: &[u8], slot: Slot, t: Text, buf: &mut [u8]) -> Text
    ensures { WroteLines buf.old t
        (declared_by source.now.root.now name.now source.now.bytes.now slot) buf.new result }
{
    if tree::has_words(slot.explicit, slot.kind) {
        return pointer_constants::word_array_declaration(
            source.root,
            source.bytes,
            name,
            slot,
            t,
            buf,
        );
    }
    t
}

// The text of a slot's getter, its lines at the level: the result type, a newline, the code, and the declaration of the default
// if there is one. The type's refusal is met first, then the option's, then the default's.
pub fn getter(
    source: &Source<'_>,
    slot: Slot,
    is_reader: bool,
    is_fn: bool,
    t: Text,
    buf: &mut [u8],
) -> Result<Text, Refusal>
    ensures text { InSource source.now (λ sheet.
        (f : SlotField) → SlotHere source.now.bytes.now slot f
        → Writes (getter_request sheet f.name f.slot is_reader is_fn t.level) buf.old t buf.new result) }
    ensures within { Within buf.old t buf.new result }
{
    let name = slot.name(source.bytes);
    let t = t.margin(buf);
    let t = result_type(source, slot, is_reader, is_fn, t, buf)?;
    option_allowed(slot)?;
    default_allowed(slot)?;
    let t = t.byte(buf, b'\n');
    let t = getter_code::code(source.root, name, slot, is_reader, is_fn, t, buf);
    Ok(declaration(source, name, slot, t, buf))
}

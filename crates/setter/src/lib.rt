// A slot's setter and initializer: `generate_setter` of codegen.rs, from the sheet's rows. Each type's text is written where it
// stands, and ends the setter where it is refused, in the Rust's order; then the default's refusal.
#![tactic(auto)]

ghost use Rattle.std.specs.Prelude.{◌≡◌, ◌++◌, List, ◌<◌, eqb, leb, drop};
ghost use Rattle.terms.specs.Kinds.{number_of};
ghost use Rattle.terms.specs.declared.kinds.Kind.TheVariants as kind;
ghost use Rattle.text.specs.Text.{WroteLines};
ghost use Rattle.text.specs.Bytes.{Str, either};
ghost use Rattle.row.specs.Rows.{rest_of, rows};
ghost use Rattle.tree.specs.Tree as tree;
ghost use Rattle.tree.specs.Read.{read_type};
ghost use Rattle.tree.specs.Reader.{On};
ghost use Rattle.nodes.specs.Index.{InSource, sheet_of};
ghost use Rattle.types.specs.Find.{kind_at};
ghost use Rattle.codegen_types.specs.Written.{Writes, Within};
ghost use Rattle.field.specs.Slot.{SlotIs, SlotField, SlotHere};
ghost use Rattle.codegen.specs.Profiles.{rule_of};
ghost use Rattle.codegen.specs.Setter.{list_reader_type, new_pointer, setter_request};
ghost use Rattle.setter.specs.Typed.{Types, input_type, set_end, init_start, init_end, size_argument, object_end, setter_for};

use codegen::Profile;
use codegen_types::{Leaf, Lifetime};
use field::Slot;
use nodes::Source;
use setter_code::Target;
use terms::{Kind, Refusal};
use text::Text;

// The setter of a Bool or a number, whose default may be refused before any text is written.
fn prim_setter(target: &Target, t: Text, buf: &mut [u8]) -> Result<Text, Refusal>
    ensures text { (root : Str) (ns : List tree.Node) (sl : tree.Slot) → SlotIs target.now.slot sl
        → (number_of target.now.slot.kind ≡ 0 → ⊥) → number_of target.now.slot.kind < 12
        → Writes (setter_for (sheet_of root ns) target.now sl t.level) buf.old t buf.new result }
    ensures within { Within buf.old t buf.new result }
{
    let mask = codegen::setter_mask(target.slot, target.profile)?;
    Ok(match target.slot.kind {
        Kind::Bool => target.boolean(mask, t, buf),
        _ => target.number(mask, t, buf),
    })
}

// The setter of a slot whose type has one row: Void to Data.
fn plain_setter(root: &[u8], target: &Target, t: Text, buf: &mut [u8]) -> Result<Text, Refusal>
    ensures text { (ns : List tree.Node) (sl : tree.Slot) → SlotIs target.now.slot sl → number_of target.now.slot.kind < 14
        → Writes (setter_for (sheet_of root.now ns) target.now sl t.level) buf.old t buf.new result }
    ensures within { Within buf.old t buf.new result }
{
    match target.slot.kind {
        Kind::Void => Ok(target.void(t, buf)),
        Kind::Text => Ok(target.text(root, t, buf)),
        Kind::Data => Ok(target.data(root, t, buf)),
        _ => prim_setter(target, t, buf),
    }
}

// What a setter takes where its type has several SetterInput impls, for the type at a position.
fn setter_input(source: &Source<'_>, at: usize, t: Text, buf: &mut [u8]) -> Result<Text, Refusal>
    ensures text { Types source.now at input_type buf.old t buf.new result }
    ensures within { Within buf.old t buf.new result }
{
    let t = t.bytes(buf, b"impl ");
    let t = t.bytes(buf, source.root);
    let t = t.bytes(buf, b"::traits::SetterInput<");
    let t = type_string::type_string(source, at, Leaf::Owned, t, buf)?;
    Ok(t.bytes(buf, b">"))
}

// A setter of a pointer, after its value's type.
fn set_end(root: &[u8], target: &Target, t: Text, buf: &mut [u8]) -> Text
    ensures { WroteLines buf.old t
        (set_end root.now target.now.tag target.now.slot.discriminant target.now.slot.offset) buf.new result }
{
    let t = setter_code::set_close(root, t, buf);
    let t = target.tag_line(t, buf);
    let t = t.inner_margin(buf);
    let t = target.set_pointer(root, t, buf);
    t.broken(buf, b"\n}\n")
}

// An initializer from its result's type up to its last line.
fn init_start(target: &Target, t: Text, buf: &mut [u8]) -> Text
    ensures { WroteLines buf.old t (init_start target.now.tag target.now.slot.discriminant) buf.new result }
{
    target.start(b" {\n", t, buf)
}

// An initializer of a parameter's type, after its result's type; `call` is what it calls on the new pointer.
fn new_end(root: &[u8], target: &Target, call: &[u8], t: Text, buf: &mut [u8]) -> Text
    ensures { WroteLines buf.old t
        (init_end target.now.tag target.now.slot.discriminant (new_pointer root.now target.now.slot.offset ++ call.now))
        buf.new result }
{
    let t = init_start(target, t, buf);
    let t = target.new_pointer(root, t, buf);
    let t = t.bytes(buf, call);
    t.broken(buf, b"\n}\n")
}

// The kind of the element of the list type at a position.
fn element_kind(s: &[u8], at: usize) -> Kind
    ensures { number_of result ≡ kind_at (rest_of (rows (drop at s.now))) }
{
    let row = row::next(s, at);
    types::kind(s, row.next)
}

// Whether an element of this kind has several SetterInput impls.
fn several_inputs(kind: Kind) -> bool
    ensures { result ≡ either (leb (number_of kind) 12) (eqb (number_of kind) 15) }
{
    kind.is_primitive() || matches!(kind, Kind::Text | Kind::Enum)
}

// What the setter of a list takes, for the list type at a position.
fn list_reader(source: &Source<'_>, at: usize, t: Text, buf: &mut [u8]) -> Result<Text, Refusal>
    ensures text { InSource source.now (λ sheet.
        On (read_type 16 (rows (drop at source.now.bytes.now))) (λ ty. (element : tree.Ty) → ty ≡ tree.list element
        → Writes (list_reader_type sheet element ty) buf.old t buf.new result)) }
    ensures within { Within buf.old t buf.new result }
{
    if several_inputs(element_kind(source.bytes, at)) {
        return setter_input(source, at, t, buf);
    }
    type_string::type_string(source, at, Leaf::Reader(Lifetime::Anonymous), t, buf)
}

// What an initializer passes as the size: its parameter, where it has one.
fn size_argument(sized: bool) -> &'static [u8]
    ensures { result.now ≡ size_argument sized }
{
    if sized { b"size" } else { b"0" }
}

// A list's or a struct's functions after the type of what is set: the setter's end, and the initializer of an object, with a size
// or not.
fn object_end(
    source: &Source<'_>,
    target: &Target,
    sized: bool,
    t: Text,
    buf: &mut [u8],
) -> Result<Text, Refusal>
    ensures text { Types source.now target.now.slot.typ (λ sheet ty. object_end target.now sized sheet ty t.level)
        buf.old t buf.new result }
    ensures within { Within buf.old t buf.new result }
{
    let t = set_end(source.root, target, t, buf);
    let t = target.init_open(sized, t, buf);
    let builder = Leaf::Builder(Lifetime::A);
    let init = type_string::type_string(source, target.slot.typ, builder, t, buf)?;
    let t = init_start(target, init, buf);
    let t = target.init_pointer(source.root, size_argument(sized), t, buf);
    Ok(t.broken(buf, b"\n}\n"))
}

// A list's setter and initializer. A struct's setter is these three lines too but for the type that is taken, which another
// function writes: one for both would choose there by a flag, and be no plainer.
fn list_setter(
    source: &Source<'_>,
    target: &Target,
    t: Text,
    buf: &mut [u8],
) -> Result<Text, Refusal>
    ensures text { InSource source.now (λ sheet.
        (f : SlotField) → SlotHere source.now.bytes.now target.now.slot f → target.now.slot.kind ≡ kind.List
        → Writes (setter_for sheet target.now f.slot t.level) buf.old t buf.new result) }
    ensures within { Within buf.old t buf.new result }
{
    let t = target.set_open(t, buf);
    let set = list_reader(source, target.slot.typ, t, buf)?;
    object_end(source, target, true, set, buf)
}

// An enum's setter.
fn enum_setter(
    source: &Source<'_>,
    target: &Target,
    t: Text,
    buf: &mut [u8],
) -> Result<Text, Refusal>
    ensures text { InSource source.now (λ sheet.
        (f : SlotField) → SlotHere source.now.bytes.now target.now.slot f → target.now.slot.kind ≡ kind.Enum
        → Writes (setter_for sheet target.now f.slot t.level) buf.old t buf.new result) }
    ensures within { Within buf.old t buf.new result }
{
    let t = target.set_open(t, buf);
    let t = type_parts::qualified_module(source, target.slot.id, t, buf)?;
    let mask = codegen::setter_mask(target.slot, target.profile)?;
    let t = target.start(b")  {\n", t, buf);
    let t = calls::set_data_field(b"u16", target.slot.offset, b"value as u16", mask, t, buf);
    Ok(t.broken(buf, b"\n}\n"))
}

// A struct's setter and initializer.
fn struct_setter(
    source: &Source<'_>,
    target: &Target,
    t: Text,
    buf: &mut [u8],
) -> Result<Text, Refusal>
    ensures text { InSource source.now (λ sheet.
        (f : SlotField) → SlotHere source.now.bytes.now target.now.slot f → target.now.slot.kind ≡ kind.Struct
        → Writes (setter_for sheet target.now f.slot t.level) buf.old t buf.new result) }
    ensures within { Within buf.old t buf.new result }
{
    let t = target.set_open(t, buf);
    let reader = Leaf::Reader(Lifetime::Anonymous);
    let set = type_string::type_string(source, target.slot.typ, reader, t, buf)?;
    object_end(source, target, false, set, buf)
}

// An interface's setter.
fn interface_setter(
    source: &Source<'_>,
    target: &Target,
    t: Text,
    buf: &mut [u8],
) -> Result<Text, Refusal>
    ensures text { InSource source.now (λ sheet.
        (f : SlotField) → SlotHere source.now.bytes.now target.now.slot f → target.now.slot.kind ≡ kind.Interface
        → Writes (setter_for sheet target.now f.slot t.level) buf.old t buf.new result) }
    ensures within { Within buf.old t buf.new result }
{
    let t = target.set_open(t, buf);
    let t = type_string::type_string(source, target.slot.typ, Leaf::Client, t, buf)?;
    let t = target.start(b")  {\n", t, buf);
    let t = t.bytes(buf, b"self.builder.reborrow().get_pointer_field(");
    let t = t.number(buf, target.slot.offset);
    Ok(t.broken(buf, b").set_capability(value.client.hook);\n}\n"))
}

// A parameter's setter and initializers. The last of its three types is the first again.
fn parameter_setter(
    source: &Source<'_>,
    target: &Target,
    t: Text,
    buf: &mut [u8],
) -> Result<Text, Refusal>
    ensures text { InSource source.now (λ sheet.
        (f : SlotField) → SlotHere source.now.bytes.now target.now.slot f → target.now.slot.kind ≡ kind.AnyPointer
        → (target.now.slot.id ≡ 0 → ⊥)
        → Writes (setter_for sheet target.now f.slot t.level) buf.old t buf.new result) }
    ensures within { Within buf.old t buf.new result }
{
    let root = source.root;
    let at = target.slot.typ;
    let builder = Leaf::Builder(Lifetime::A);
    let t = target.initn_open(t, buf);
    let initn = type_string::type_string(source, at, builder, t, buf)?;
    let t = new_end(root, target, b".initn_as(length)", initn, buf);
    let t = target.set_open(t, buf);
    let set = setter_input(source, at, t, buf)?;
    let t = set_end(root, target, set, buf);
    let t = target.init_open(false, t, buf);
    let init = type_string::type_string(source, at, builder, t, buf)?;
    Ok(new_end(root, target, b".init_as()", init, buf))
}

// The setter of a slot, by its kind. It stays a call: where it is written out in its caller, that becomes one, and the program
// takes up to 1.4 % more instructions (on examples/nodes.sheet 1,179,831 for 1,163,568).
#[inline(never)]
fn setter_of(source: &Source<'_>, target: &Target, t: Text, buf: &mut [u8]) -> Result<Text, Refusal>
    ensures text { InSource source.now (λ sheet.
        (f : SlotField) → SlotHere source.now.bytes.now target.now.slot f
        → Writes (setter_for sheet target.now f.slot t.level) buf.old t buf.new result) }
    ensures within { Within buf.old t buf.new result }
{
    match target.slot.kind {
        Kind::List => list_setter(source, target, t, buf),
        Kind::Enum => enum_setter(source, target, t, buf),
        Kind::Struct => struct_setter(source, target, t, buf),
        Kind::Interface => interface_setter(source, target, t, buf),
        Kind::AnyPointer => {
            if target.slot.id == 0 {
                return Ok(target.any_pointer(source.root, t, buf));
            }
            parameter_setter(source, target, t, buf)
        },
        _ => plain_setter(source.root, target, t, buf),
    }
}

// The text of a slot's setter, by the offset of its node's tag and the profile of its mask.
pub fn setter(
    source: &Source<'_>,
    slot: Slot,
    tag: u64,
    profile: Profile,
    t: Text,
    buf: &mut [u8],
) -> Result<Text, Refusal>
    ensures text { InSource source.now (λ sheet.
        (f : SlotField) → SlotHere source.now.bytes.now slot f
        → Writes (setter_request (rule_of profile) sheet tag f.name f.discriminant f.slot t.level) buf.old t buf.new result) }
    ensures within { Within buf.old t buf.new result }
{
    let name = names::camel_to_snake_case(slot.name(source.bytes));
    let target = Target {
        name,
        slot,
        tag,
        profile,
    };
    setter_of(source, &target, t, buf)
}

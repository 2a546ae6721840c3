// The code of a slot's getter: what `getter_text` of codegen.rs gives beside the result type and the default's declaration.
#![tactic(auto)]

ghost use Rattle.std.specs.Prelude.{◌≡◌};
ghost use Rattle.terms.specs.Kinds.{number_of};
ghost use Rattle.text.specs.Lines.{stringify};
ghost use Rattle.text.specs.Text.{Wrote, WroteLines};
ghost use Rattle.codegen.specs.Getter.{void, pointer_default, from_pointer, capability, untyped};
ghost use Rattle.codegen.specs.Getter.{is_fallible};
ghost use Rattle.getter_code.specs.Parts.{from_pointer_head, capability_head, any_pointer_head};
ghost use Rattle.getter_code.specs.Parts.{null_head, absent, some_end, type_by, fragment_by, code_by};

use field::Slot;
use terms::Kind;
use text::Text;

// The fragment of Void: a function has none.
fn void(is_fn: bool, t: Text, buf: &mut [u8]) -> Text
    ensures { Wrote buf.old t (void is_fn) buf.new result }
{
    if is_fn {
        return t;
    }
    t.bytes(buf, b"()")
}

// The default of a pointer: its constant, if it is explicit.
fn pointer_default(name: &[u8], explicit: u64, t: Text, buf: &mut [u8]) -> Text
    ensures { Wrote buf.old t (pointer_default explicit name.now) buf.new result }
{
    if explicit == 1 {
        let t = t.bytes(buf, b"::core::option::Option::Some(&_private::");
        let t = names::default_name(name, t, buf);
        return t.bytes(buf, b"[..])");
    }
    t.bytes(buf, b"::core::option::Option::None")
}

// The value of a pointer field up to the offset, behind the root. Each text that has two forms has its function, which chooses
// one: a function for all of them would take both forms and the flag, and be no more than an `if`.
fn from_pointer_head(is_reader: bool) -> &'static [u8]
    ensures { result.now ≡ from_pointer_head is_reader }
{
    if is_reader {
        b"::traits::FromPointerReader::get_from_pointer(&self.reader.get_pointer_field("
    } else {
        b"::traits::FromPointerBuilder::get_from_pointer(self.builder.get_pointer_field("
    }
}

// The value of a pointer field, with its default.
fn from_pointer(
    root: &[u8],
    name: &[u8],
    offset: u64,
    explicit: u64,
    is_reader: bool,
    t: Text,
    buf: &mut [u8],
) -> Text
    ensures { Wrote buf.old t
        (from_pointer root.now is_reader offset (pointer_default explicit name.now)) buf.new result }
{
    let t = t.bytes(buf, root);
    let t = t.bytes(buf, from_pointer_head(is_reader));
    let t = t.number(buf, offset);
    let t = t.bytes(buf, b"), ");
    let t = pointer_default(name, explicit, t, buf);
    t.bytes(buf, b")")
}

// A capability up to the offset.
fn capability_head(is_reader: bool) -> &'static [u8]
    ensures { result.now ≡ capability_head is_reader }
{
    if is_reader {
        b"match self.reader.get_pointer_field("
    } else {
        b"match self.builder.get_pointer_field("
    }
}

// The capability of an interface field.
fn capability(root: &[u8], offset: u64, is_reader: bool, t: Text, buf: &mut [u8]) -> Text
    ensures { Wrote buf.old t (capability root.now is_reader offset) buf.new result }
{
    let t = t.bytes(buf, capability_head(is_reader));
    let t = t.number(buf, offset);
    let t = t.bytes(
        buf,
        b").get_capability() { ::core::result::Result::Ok(c) => ::core::result::Result::Ok(",
    );
    let t = t.bytes(buf, root);
    t.bytes(
        buf,
        b"::capability::FromClientHook::new(c)), ::core::result::Result::Err(e) => ::core::result::Result::Err(e)}",
    )
}

// An untyped value up to the offset, behind the root.
fn any_pointer_head(is_reader: bool) -> &'static [u8]
    ensures { result.now ≡ any_pointer_head is_reader }
{
    if is_reader {
        b"::any_pointer::Reader::new(self.reader.get_pointer_field("
    } else {
        b"::any_pointer::Builder::new(self.builder.get_pointer_field("
    }
}

// The value of an AnyPointer field: of a parameter's type, or untyped.
fn untyped(
    root: &[u8],
    parameter: bool,
    offset: u64,
    is_reader: bool,
    t: Text,
    buf: &mut [u8],
) -> Text
    ensures { Wrote buf.old t (untyped root.now is_reader parameter offset) buf.new result }
{
    if parameter {
        return from_pointer(root, b"", offset, 0, is_reader, t, buf);
    }
    let t = t.bytes(buf, root);
    let t = t.bytes(buf, any_pointer_head(is_reader));
    let t = t.number(buf, offset);
    t.bytes(buf, b"))")
}

// getter_fragment of a slot, its default taken to be of its type.
fn fragment(
    root: &[u8],
    name: &[u8],
    slot: Slot,
    is_reader: bool,
    is_fn: bool,
    t: Text,
    buf: &mut [u8],
) -> Text
    ensures { Wrote buf.old t
        (fragment_by root.now name.now slot is_reader is_fn) buf.new result }
{
    let kind = slot.kind;
    let bits = slot.bits;
    match kind {
        Kind::Void => void(is_fn, t, buf),
        Kind::Bool => {
            let mask = codegen::getter_mask(kind, bits);
            calls::get_bool_field(slot.offset, mask, is_reader, t, buf)
        },
        Kind::Enum => {
            let mask = codegen::getter_mask(kind, bits);
            calls::get_enum_field(slot.offset, mask, is_reader, t, buf)
        },
        Kind::Interface => capability(root, slot.offset, is_reader, t, buf),
        Kind::AnyPointer => untyped(root, slot.id != 0, slot.offset, is_reader, t, buf),
        Kind::Text | Kind::Data | Kind::List | Kind::Struct | Kind::Unnamed(_) => {
            from_pointer(root, name, slot.offset, slot.explicit, is_reader, t, buf)
        }
        _ => codegen::get_number(kind, slot.offset, bits, is_reader, t, buf),
    }
}

// is_fallible, whether the result can be an error: for an enum, a parameter and every pointer but AnyPointer it can.
fn is_fallible(slot: Slot) -> bool
    ensures { result ≡ is_fallible (type_by (number_of slot.kind) slot.id) }
{
    match slot.kind {
        Kind::AnyPointer => slot.id != 0,
        kind => !kind.is_primitive(),
    }
}

// The test for a pointer that is null, up to the offset.
fn null_head(is_reader: bool) -> &'static [u8]
    ensures { result.now ≡ null_head is_reader }
{
    if is_reader {
        b"if self.reader.is_pointer_field_null("
    } else {
        b"if self.builder.is_pointer_field_null("
    }
}

// The line for a pointer that is null, and the start of the other.
fn absent(fallible: bool) -> &'static [u8]
    ensures { result.now ≡ absent fallible }
{
    if fallible {
        b") {\n    core::result::Result::Ok(core::option::Option::None)\n} else {\n    "
    } else {
        b") {\n    ::core::option::Option::None\n} else {\n    ::core::option::Option::Some("
    }
}

// What follows the fragment of an option.
fn some_end(fallible: bool) -> &'static [u8]
    ensures { result.now ≡ some_end fallible }
{
    if fallible {
        b".map(::core::option::Option::Some)\n}\n"
    } else {
        b")\n}\n"
    }
}

// The code of a slot, its default taken to be of its type: the fragment, or with an option the test and both answers.
pub fn code(
    root: &[u8],
    name: &[u8],
    slot: Slot,
    is_reader: bool,
    is_fn: bool,
    t: Text,
    buf: &mut [u8],
) -> Text
    ensures { WroteLines buf.old t
        (stringify (code_by root.now name.now slot is_reader is_fn)) buf.new result }
{
    let t = t.margin(buf);
    if slot.option == 0 {
        let t = fragment(root, name, slot, is_reader, is_fn, t, buf);
        return t.byte(buf, b'\n');
    }
    let fallible = is_fallible(slot);
    let t = t.bytes(buf, null_head(is_reader));
    let t = t.number(buf, slot.offset);
    let t = t.broken(buf, absent(fallible));
    let t = fragment(root, name, slot, is_reader, is_fn, t, buf);
    t.broken(buf, some_end(fallible))
}

// The setter and the initializer of a slot whose type's text needs no look into the sheet, and the parts that the others share:
// codegen.rs of capnpc, `generate_setter`.
#![tactic(auto)]

ghost use Rattle.std.specs.Prelude.{◌++◌, true, false};
ghost use Rattle.terms.specs.Kinds.{number_of};
ghost use Rattle.text.specs.Bytes.{Str, ascii};
ghost use Rattle.text.specs.Lines.{stringify};
ghost use Rattle.text.specs.Text.{Wrote, WroteLines};
ghost use Rattle.names.specs.Names.{name_of};
ghost use Rattle.calls.specs.Calls.{set_bool_field, set_data_field};
ghost use Rattle.calls.specs.Mask.{mask_text};
ghost use Rattle.codegen_types.specs.Primitive.{primitive_text};
ghost use Rattle.codegen.specs.Setter.{set_pointer, init_pointer, new_pointer, setter_input, pointer_field, reborrowed};
ghost use Rattle.codegen.specs.Setter.{setter_functions, setter_only, line_alone, text_parts, data_parts, pointer_parts};
ghost use Rattle.text.specs.Lines as lines;
ghost use Rattle.setter_code.specs.Parts.{tag_line, start, named, set_open, set_close, set_text, init_open, init_text};
ghost use Rattle.setter_code.specs.Parts.{initn_open};

use calls::Mask;
use codegen::Profile;
use field::Slot;
use names::Snake;
use text::Text;

// What a setter is written for: the field's name in snake case, its slot, the offset of its node's tag, and by which rule its
// mask is taken.
#[derive(Clone, Copy)]
pub struct Target {
    pub name: Snake,
    pub slot: Slot,
    pub tag: u64,
    pub profile: Profile,
}

// A setter that returns a result, from its value's type up to its lines.
pub fn set_close(root: &[u8], t: Text, buf: &mut [u8]) -> Text
    ensures { Wrote buf.old t (set_close root.now true) buf.new result }
{
    let t = t.bytes(buf, b") -> ");
    let t = t.bytes(buf, root);
    t.bytes(buf, b"::Result<()> {\n")
}

impl Target {
    // A function's head, from its first line on: the field's name between two texts. It is written out where it is called, as is
    // `start`, so that the length of each text is known there: as calls the two take 0.4 % more instructions (on
    // examples/nodes.sheet 1,178,823 for 1,173,935).
    #[inline(always)]
    fn named(&self, before: &[u8], after: &[u8], t: Text, buf: &mut [u8]) -> Text
        ensures { WroteLines buf.old t (named before.now (name_of self.now.name) after.now) buf.new result }
    {
        let t = t.margin(buf);
        let t = t.broken(buf, before);
        let t = self.name.write(t, buf);
        t.bytes(buf, after)
    }

    // The line that sets the tag, where the field has a discriminant.
    pub fn tag_line(&self, t: Text, buf: &mut [u8]) -> Text
        ensures { WroteLines buf.old t (tag_line self.now.tag self.now.slot.discriminant) buf.new result }
    {
        if self.slot.discriminant == codegen::NO_DISCRIMINANT {
            return t;
        }
        let t = t.inner_margin(buf);
        let t = calls::set_tag(self.tag, self.slot.discriminant, t, buf);
        t.bytes(buf, b"\n")
    }

    // The end of a function's head, the line that sets the tag, and the start of the next line.
    #[inline(always)]
    pub fn start(&self, head_end: &[u8], t: Text, buf: &mut [u8]) -> Text
        ensures { WroteLines buf.old t (start head_end.now self.now.tag self.now.slot.discriminant) buf.new result }
    {
        let t = t.bytes(buf, head_end);
        let t = self.tag_line(t, buf);
        t.inner_margin(buf)
    }

    // A setter up to its value's type.
    pub fn set_open(&self, t: Text, buf: &mut [u8]) -> Text
        ensures { WroteLines buf.old t (set_open (name_of self.now.name)) buf.new result }
    {
        self.named(b"#[inline]\npub fn set_", b"(&mut self, value: ", t, buf)
    }

    // An initializer up to its result's type; with a size or not.
    pub fn init_open(&self, sized: bool, t: Text, buf: &mut [u8]) -> Text
        ensures { WroteLines buf.old t (init_open (name_of self.now.name) sized) buf.new result }
    {
        let after: &[u8] = if sized {
            b"(self, size: u32) -> "
        } else {
            b"(self, ) -> "
        };
        self.named(b"#[inline]\npub fn init_", after, t, buf)
    }

    // The initializer of a list of a parameter's type, up to its result's type.
    pub fn initn_open(&self, t: Text, buf: &mut [u8]) -> Text
        ensures { WroteLines buf.old t (initn_open (name_of self.now.name)) buf.new result }
    {
        let after = b"(self, length: u32) -> ";
        self.named(b"#[inline]\npub fn initn_", after, t, buf)
    }

    // The call that sets the pointer to the value that is given.
    pub fn set_pointer(&self, root: &[u8], t: Text, buf: &mut [u8]) -> Text
        ensures { Wrote buf.old t (set_pointer root.now self.now.slot.offset) buf.new result }
    {
        let t = t.bytes(buf, root);
        let t = t.bytes(
            buf,
            b"::traits::SetterInput::set_pointer_builder(self.builder.reborrow().get_pointer_field(",
        );
        let t = t.number(buf, self.slot.offset);
        t.bytes(buf, b"), value, false)")
    }

    // The call that puts a new object behind the pointer: a list with as many elements as `size` says, or a struct, for which it
    // is 0.
    pub fn init_pointer(&self, root: &[u8], size: &[u8], t: Text, buf: &mut [u8]) -> Text
        ensures { Wrote buf.old t
            (init_pointer root.now self.now.slot.offset size.now) buf.new result }
    {
        let t = t.bytes(buf, root);
        let t = t.bytes(
            buf,
            b"::traits::FromPointerBuilder::init_pointer(self.builder.get_pointer_field(",
        );
        let t = t.number(buf, self.slot.offset);
        let t = t.bytes(buf, b"), ");
        let t = t.bytes(buf, size);
        t.bytes(buf, b")")
    }

    // The AnyPointer builder of the pointer, by which any object can be put there.
    pub fn new_pointer(&self, root: &[u8], t: Text, buf: &mut [u8]) -> Text
        ensures { Wrote buf.old t (new_pointer root.now self.now.slot.offset) buf.new result }
    {
        let t = t.bytes(buf, root);
        let t = t.bytes(
            buf,
            b"::any_pointer::Builder::new(self.builder.get_pointer_field(",
        );
        let t = t.number(buf, self.slot.offset);
        t.bytes(buf, b"))")
    }

    // Void: the value is not looked at.
    pub fn void(&self, t: Text, buf: &mut [u8]) -> Text
        ensures { (root : Str) → WroteLines buf.old t
            (stringify (setter_functions root self.now.tag (name_of self.now.name) self.now.slot.discriminant
            (setter_only (ascii "_value") lines.none (ascii "()")))) buf.new result }
    {
        let after = b"(&mut self, _value: ())  {\n";
        let t = self.named(b"#[inline]\npub fn set_", after, t, buf);
        let t = self.tag_line(t, buf);
        let t = t.margin(buf);
        t.bytes(buf, b"}\n")
    }

    // Bool, with its mask, if there is one.
    pub fn boolean(&self, mask: Option<Mask>, t: Text, buf: &mut [u8]) -> Text
        ensures { (root : Str) → WroteLines buf.old t
            (stringify (setter_functions root self.now.tag (name_of self.now.name) self.now.slot.discriminant
            (setter_only (ascii "value")
            (line_alone (set_bool_field self.now.slot.offset (ascii "value") (mask_text mask)))
            (ascii "bool")))) buf.new result }
    {
        let t = self.set_open(t, buf);
        let t = self.start(b"bool)  {\n", t, buf);
        let t = calls::set_bool_field(self.slot.offset, b"value", mask, t, buf);
        t.broken(buf, b"\n}\n")
    }

    // A number, with its mask, if there is one.
    pub fn number(&self, mask: Option<Mask>, t: Text, buf: &mut [u8]) -> Text
        ensures { (root : Str) → WroteLines buf.old t
            (stringify (setter_functions root self.now.tag (name_of self.now.name) self.now.slot.discriminant
            (setter_only (ascii "value")
            (line_alone (set_data_field (primitive_text (number_of self.now.slot.kind)) self.now.slot.offset (ascii "value")
            (mask_text mask)))
            (primitive_text (number_of self.now.slot.kind))))) buf.new result }
    {
        let t = self.set_open(t, buf);
        let t = codegen_types::type_name(self.slot.kind, t, buf);
        let t = self.start(b")  {\n", t, buf);
        let typ = codegen_types::primitive(self.slot.kind);
        let t = calls::set_data_field(typ, self.slot.offset, b"value", mask, t, buf);
        t.broken(buf, b"\n}\n")
    }

    // The setter of a Text.
    fn set_text(&self, root: &[u8], t: Text, buf: &mut [u8]) -> Text
        ensures { WroteLines buf.old t
            (set_text root.now (name_of self.now.name)
            (setter_input root.now (root.now ++ ascii "::text::Owned")) false
            (tag_line self.now.tag self.now.slot.discriminant)
            (set_pointer root.now self.now.slot.offset ++ ascii ".unwrap()")) buf.new result }
    {
        let t = self.set_open(t, buf);
        let t = t.bytes(buf, b"impl ");
        let t = t.bytes(buf, root);
        let t = t.bytes(buf, b"::traits::SetterInput<");
        let t = t.bytes(buf, root);
        let t = self.start(b"::text::Owned>)  {\n", t, buf);
        let t = self.set_pointer(root, t, buf);
        t.broken(buf, b".unwrap()\n}\n")
    }

    // The initializer of a Text or Data: its builder's type below the root, and the call that makes one of a size.
    fn init_sized(&self, root: &[u8], typ: &[u8], call: &[u8], t: Text, buf: &mut [u8]) -> Text
        ensures { WroteLines buf.old t
            (init_text (name_of self.now.name) true (root.now ++ typ.now)
            (tag_line self.now.tag self.now.slot.discriminant) (pointer_field self.now.slot.offset ++ call.now))
            buf.new result }
    {
        let t = self.init_open(true, t, buf);
        let t = t.bytes(buf, root);
        let t = t.bytes(buf, typ);
        let t = self.start(b" {\n", t, buf);
        let t = t.bytes(buf, b"self.builder.get_pointer_field(");
        let t = t.number(buf, self.slot.offset);
        let t = t.byte(buf, b')');
        let t = t.bytes(buf, call);
        t.broken(buf, b"\n}\n")
    }

    // Text.
    pub fn text(&self, root: &[u8], t: Text, buf: &mut [u8]) -> Text
        ensures { WroteLines buf.old t
            (stringify (setter_functions root.now self.now.tag (name_of self.now.name) self.now.slot.discriminant
            (text_parts root.now self.now.slot.offset))) buf.new result }
    {
        let t = self.set_text(root, t, buf);
        self.init_sized(root, b"::text::Builder<'a>", b".init_text(size)", t, buf)
    }

    // The setter of a Data: other than a Text's by the value's type and by the call that sets it.
    fn set_data(&self, root: &[u8], t: Text, buf: &mut [u8]) -> Text
        ensures { WroteLines buf.old t
            (set_text root.now (name_of self.now.name) (root.now ++ ascii "::data::Reader<'_>") false
            (tag_line self.now.tag self.now.slot.discriminant)
            (reborrowed self.now.slot.offset ++ ascii ".set_data(value);")) buf.new result }
    {
        let t = self.set_open(t, buf);
        let t = t.bytes(buf, root);
        let t = self.start(b"::data::Reader<'_>)  {\n", t, buf);
        let t = t.bytes(buf, b"self.builder.reborrow().get_pointer_field(");
        let t = t.number(buf, self.slot.offset);
        t.broken(buf, b").set_data(value);\n}\n")
    }

    // Data.
    pub fn data(&self, root: &[u8], t: Text, buf: &mut [u8]) -> Text
        ensures { WroteLines buf.old t
            (stringify (setter_functions root.now self.now.tag (name_of self.now.name) self.now.slot.discriminant
            (data_parts root.now self.now.slot.offset))) buf.new result }
    {
        let t = self.set_data(root, t, buf);
        self.init_sized(root, b"::data::Builder<'a>", b".init_data(size)", t, buf)
    }

    // AnyPointer that is no parameter: an initializer alone.
    pub fn any_pointer(&self, root: &[u8], t: Text, buf: &mut [u8]) -> Text
        ensures { WroteLines buf.old t
            (stringify (setter_functions root.now self.now.tag (name_of self.now.name) self.now.slot.discriminant
            (pointer_parts root.now self.now.slot.offset))) buf.new result }
    {
        let t = self.init_open(false, t, buf);
        let t = t.bytes(buf, root);
        let t = self.start(b"::any_pointer::Builder<'a> {\n", t, buf);
        let t = t.bytes(buf, b"let mut result = ");
        let t = self.new_pointer(root, t, buf);
        t.broken(buf, b";\n    result.clear();\n    result\n}\n")
    }
}

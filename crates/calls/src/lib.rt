// The calls on a record's sections, as the generated accessors write them: gets, sets, clears and tests. A call's offset counts
// bits, elements or pointers, as its name says; its type and its value are the texts that stand in it.
#![tactic(auto)]

ghost use Rattle.std.specs.Prelude.{◌≡◌};
ghost use Rattle.text.specs.Text.{Wrote};
ghost use Rattle.calls.specs.Calls.{get_bool_field, get_data_field, get_enum_field, set_bool_field, set_data_field, set_tag};
ghost use Rattle.calls.specs.Calls.{zero_bool, zero_data, zero_tag, clear_pointer, not_null, tag_test};
ghost use Rattle.calls.specs.Mask.{mask_text, last_argument};

use text::Text;

// What a call masks with: true, a signed number by its bits and the bit of its sign, or a number with its ending.
#[derive(Clone, Copy)]
pub enum Mask {
    True,
    Signed { half: u64, bits: u64 },
    Plain(u64),
    U32(u64),
    U64(u64),
}

// The mask as the last argument of its call, or nothing.
fn last_argument(mask: Option<Mask>, t: Text, buf: &mut [u8]) -> Text
    ensures { Wrote buf.old t (last_argument (mask_text mask)) buf.new result }
{
    let Some(mask) = mask else {
        return t;
    };
    let t = t.bytes(buf, b", ");
    match mask {
        Mask::True => t.bytes(buf, b"true"),
        Mask::Signed { half, bits } => t.signed(buf, half, bits),
        Mask::Plain(n) => t.number(buf, n),
        Mask::U32(n) => {
            let t = t.number(buf, n);
            t.bytes(buf, b"u32")
        }
        Mask::U64(n) => {
            let t = t.number(buf, n);
            t.bytes(buf, b"u64")
        }
    }
}

// The get of a Bool, with its mask.
pub fn get_bool_field(
    offset: u64,
    mask: Option<Mask>,
    is_reader: bool,
    t: Text,
    buf: &mut [u8],
) -> Text
    ensures { Wrote buf.old t (get_bool_field is_reader offset (mask_text mask)) buf.new result }
{
    let head: &[u8] = match (is_reader, mask.is_some()) {
        (true, true) => b"self.reader.get_bool_field_mask(",
        (true, false) => b"self.reader.get_bool_field(",
        (false, true) => b"self.builder.get_bool_field_mask(",
        (false, false) => b"self.builder.get_bool_field(",
    };
    let t = t.bytes(buf, head);
    let t = t.number(buf, offset);
    let t = last_argument(mask, t, buf);
    t.bytes(buf, b")")
}

// The get of a number of a type, with its mask.
pub fn get_data_field(
    typ: &[u8],
    offset: u64,
    mask: Option<Mask>,
    is_reader: bool,
    t: Text,
    buf: &mut [u8],
) -> Text
    ensures { Wrote buf.old t
        (get_data_field is_reader typ.now offset (mask_text mask)) buf.new result }
{
    let head: &[u8] = match (is_reader, mask.is_some()) {
        (true, true) => b"self.reader.get_data_field_mask::<",
        (true, false) => b"self.reader.get_data_field::<",
        (false, true) => b"self.builder.get_data_field_mask::<",
        (false, false) => b"self.builder.get_data_field::<",
    };
    let t = t.bytes(buf, head);
    let t = t.bytes(buf, typ);
    let t = t.bytes(buf, b">(");
    let t = t.number(buf, offset);
    let t = last_argument(mask, t, buf);
    t.bytes(buf, b")")
}

// The get of an enum: its number, turned into the enum.
pub fn get_enum_field(
    offset: u64,
    mask: Option<Mask>,
    is_reader: bool,
    t: Text,
    buf: &mut [u8],
) -> Text
    ensures { Wrote buf.old t (get_enum_field is_reader offset (mask_text mask)) buf.new result }
{
    let t = t.bytes(buf, b"::core::convert::TryFrom::try_from(");
    let t = get_data_field(b"u16", offset, mask, is_reader, t, buf);
    t.bytes(buf, b")")
}

// A setter's line that writes a Bool, with its mask.
pub fn set_bool_field(
    offset: u64,
    value: &[u8],
    mask: Option<Mask>,
    t: Text,
    buf: &mut [u8],
) -> Text
    ensures { Wrote buf.old t (set_bool_field offset value.now (mask_text mask)) buf.new result }
{
    let head: &[u8] = if mask.is_some() {
        b"self.builder.set_bool_field_mask("
    } else {
        b"self.builder.set_bool_field("
    };
    let t = t.bytes(buf, head);
    let t = t.number(buf, offset);
    let t = t.bytes(buf, b", ");
    let t = t.bytes(buf, value);
    let t = last_argument(mask, t, buf);
    t.bytes(buf, b");")
}

// A setter's line that writes a number of a type, or an enum's number, with its mask.
pub fn set_data_field(
    typ: &[u8],
    offset: u64,
    value: &[u8],
    mask: Option<Mask>,
    t: Text,
    buf: &mut [u8],
) -> Text
    ensures { Wrote buf.old t
        (set_data_field typ.now offset value.now (mask_text mask)) buf.new result }
{
    let head: &[u8] = if mask.is_some() {
        b"self.builder.set_data_field_mask::<"
    } else {
        b"self.builder.set_data_field::<"
    };
    let t = t.bytes(buf, head);
    let t = t.bytes(buf, typ);
    let t = t.bytes(buf, b">(");
    let t = t.number(buf, offset);
    let t = t.bytes(buf, b", ");
    let t = t.bytes(buf, value);
    let t = last_argument(mask, t, buf);
    t.bytes(buf, b");")
}

// A setter's line that writes the union's tag.
pub fn set_tag(offset: u64, discriminant: u64, t: Text, buf: &mut [u8]) -> Text
    ensures { Wrote buf.old t (set_tag offset discriminant) buf.new result }
{
    let t = t.bytes(buf, b"self.builder.set_data_field::<u16>(");
    let t = t.number(buf, offset);
    let t = t.bytes(buf, b", ");
    let t = t.number(buf, discriminant);
    t.bytes(buf, b");")
}

// The line that zeroes a Bool: its set to false.
pub fn zero_bool(offset: u64, t: Text, buf: &mut [u8]) -> Text
    ensures { Wrote buf.old t (zero_bool offset) buf.new result }
{
    set_bool_field(offset, b"false", None, t, buf)
}

// The line that zeroes a number or an enum, by its type. Its value is two texts, so that it is no `set_data_field` of one.
pub fn zero_data(typ: &[u8], offset: u64, t: Text, buf: &mut [u8]) -> Text
    ensures { Wrote buf.old t (zero_data typ.now offset) buf.new result }
{
    let t = t.bytes(buf, b"self.builder.set_data_field::<");
    let t = t.bytes(buf, typ);
    let t = t.bytes(buf, b">(");
    let t = t.number(buf, offset);
    let t = t.bytes(buf, b", 0");
    let t = t.bytes(buf, typ);
    t.bytes(buf, b");")
}

// The line that zeroes a union's tag.
pub fn zero_tag(offset: u64, t: Text, buf: &mut [u8]) -> Text
    ensures { Wrote buf.old t (zero_tag offset) buf.new result }
{
    set_tag(offset, 0, t, buf)
}

// The line that clears a pointer.
pub fn clear_pointer(offset: u64, t: Text, buf: &mut [u8]) -> Text
    ensures { Wrote buf.old t (clear_pointer offset) buf.new result }
{
    let t = t.bytes(buf, b"self.builder.reborrow().get_pointer_field(");
    let t = t.number(buf, offset);
    t.bytes(buf, b").clear();")
}

// A haser's test of its pointer: a text before the offset, and one behind it.
pub fn not_null(offset: u64, is_reader: bool, t: Text, buf: &mut [u8]) -> Text
    ensures { Wrote buf.old t (not_null is_reader offset) buf.new result }
{
    let texts: (&[u8], &[u8]) = if is_reader {
        (b"!self.reader.get_pointer_field(", b").is_null()")
    } else {
        (b"!self.builder.is_pointer_field_null(", b")")
    };
    let t = t.bytes(buf, texts.0);
    let t = t.number(buf, offset);
    t.bytes(buf, texts.1)
}

// A haser's line that answers false where the union has another member.
pub fn tag_test(offset: u64, discriminant: u64, is_reader: bool, t: Text, buf: &mut [u8]) -> Text
    ensures { Wrote buf.old t (tag_test is_reader offset discriminant) buf.new result }
{
    let head: &[u8] = if is_reader {
        b"if self.reader.get_data_field::<u16>("
    } else {
        b"if self.builder.get_data_field::<u16>("
    };
    let t = t.bytes(buf, head);
    let t = t.number(buf, offset);
    let t = t.bytes(buf, b") != ");
    let t = t.number(buf, discriminant);
    t.bytes(buf, b" { return false; }")
}

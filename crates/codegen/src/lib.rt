// The parts of accessors' texts that need no look into the sheet: codegen.rs of capnpc, its slot part.
#![tactic(auto)]

ghost use Rattle.std.specs.Prelude.{◌≡◌};
ghost use Rattle.terms.specs.Kinds.{number_of};
ghost use Rattle.text.specs.Text.{Wrote, WroteLines};
ghost use Rattle.calls.specs.Calls.{get_data_field, zero_data};
ghost use Rattle.calls.specs.Mask.{argument_text, mask_text};
ghost use Rattle.codegen.specs.Default.{value, unless, float_zero, prim_default, getter_mask};
ghost use Rattle.codegen.specs.Mask.{masked, mask_of};
ghost use Rattle.codegen.specs.Profiles.{explicit_mask, present_mask, with_ending, paired_mask, rule_of};
ghost use Rattle.codegen.specs.Haser.{haser_of};
ghost use Rattle.codegen.specs.TagLine.{tag_test_line};
ghost use Rattle.codegen_types.specs.Primitive.{primitive_text};
ghost use Rattle.codegen_types.specs.TypeString.{is_pointer_kind};

use calls::Mask;
use field::Slot;
use terms::{Kind, Refusal};
use text::Text;

// The discriminant of a field in no union: capnpc's `field::NO_DISCRIMINANT`.
pub const NO_DISCRIMINANT: u64 = 65535;

// By which rule the mask of a setter is taken: capnpc's own, or that of the slot's getter, which is request N9 of document 02.
#[derive(Clone, Copy)]
pub enum Profile {
    Present,
    Paired,
}

// The mask of a getter: the default's bits, looked at as a number, which is signed for Int8 to Int64. The kind and the bits are
// no pair: a getter asks with its type's kind, the present setter with its default's.
pub fn getter_mask(kind: Kind, bits: u64) -> Option<Mask>
    ensures { mask_text result ≡ getter_mask (value (number_of kind) bits) }
{
    if bits == 0 {
        return None;
    }
    Some(match kind {
        Kind::Bool => Mask::True,
        Kind::Int8 => Mask::Signed { half: 0x80, bits },
        Kind::Int16 => Mask::Signed { half: 0x8000, bits },
        Kind::Int32 => Mask::Signed {
            half: 0x8000_0000,
            bits,
        },
        Kind::Int64 => Mask::Signed {
            half: 0x8000_0000_0000_0000,
            bits,
        },
        _ => Mask::Plain(bits),
    })
}

// Whether a float is 0.0 or -0.0: its bits are 0, or its sign's bit alone.
fn is_float_zero(sign: u64, bits: u64) -> bool
    ensures { result ≡ float_zero sign bits }
{
    bits == 0 || bits == sign
}

// The present mask of a float's setter, if the default is not 0.0 or -0.0.
fn float_mask(sign: u64, bits: u64, mask: Mask) -> Option<Mask>
    ensures { mask_text result ≡ unless (float_zero sign bits) (argument_text mask) }
{
    if is_float_zero(sign, bits) {
        return None;
    }
    Some(mask)
}

// The present mask of a Bool's or a number's setter; the refusal of a default that is no primitive.
fn prim_default(kind: Kind, bits: u64) -> Result<Option<Mask>, Refusal>
    ensures { masked result ≡ prim_default (value (number_of kind) bits) }
{
    match kind {
        Kind::Void => Err(Refusal::SetterDefault),
        Kind::Float32 => Ok(float_mask(0x8000_0000, bits, Mask::U32(bits))),
        Kind::Float64 => Ok(float_mask(0x8000_0000_0000_0000, bits, Mask::U64(bits))),
        kind if kind.is_primitive() => Ok(getter_mask(kind, bits)),
        _ => Err(Refusal::SetterDefault),
    }
}

// The present mask of an enum's setter: its default, where that is explicit, which must then be an Enum.
fn explicit_mask(slot: Slot) -> Result<Option<Mask>, Refusal>
    ensures { masked result ≡ explicit_mask slot.explicit (value (number_of slot.default) slot.bits) }
{
    if slot.explicit == 0 {
        return Ok(None);
    }
    match slot.default {
        Kind::Enum => Ok(Some(Mask::Plain(slot.bits))),
        _ => Err(Refusal::EnumDefault),
    }
}

// The mask of a slot's present setter: an enum's by its flag.
fn present_mask(slot: Slot) -> Result<Option<Mask>, Refusal>
    ensures { masked result ≡ mask_of present_mask slot }
{
    match slot.kind {
        Kind::Enum => explicit_mask(slot),
        _ => prim_default(slot.default, slot.bits),
    }
}

// A getter's mask as a setter writes it: a float's bits have their ending.
fn ended_mask(kind: Kind, bits: u64) -> Option<Mask>
    ensures { mask_text result ≡ with_ending (number_of kind) (getter_mask (value (number_of kind) bits)) }
{
    let mask = getter_mask(kind, bits)?;
    Some(match kind {
        Kind::Float32 => Mask::U32(bits),
        Kind::Float64 => Mask::U64(bits),
        _ => mask,
    })
}

// The mask of a slot's paired setter: its getter's. A default that is not of the slot's type has the present one.
#[tactic(auto, unfolding(crate::specs::Profiles::paired_mask))]
fn paired_mask(slot: Slot) -> Result<Option<Mask>, Refusal>
    ensures { masked result ≡ mask_of paired_mask slot }
{
    if slot.kind == slot.default {
        return Ok(ended_mask(slot.kind, slot.bits));
    }
    present_mask(slot)
}

// The mask of a slot's setter by a profile, or its default's refusal.
pub fn setter_mask(slot: Slot, profile: Profile) -> Result<Option<Mask>, Refusal>
    ensures { masked result ≡ mask_of (rule_of profile) slot }
{
    match profile {
        Profile::Present => present_mask(slot),
        Profile::Paired => paired_mask(slot),
    }
}

// The get of a number, masked by its default.
pub fn get_number(
    kind: Kind,
    offset: u64,
    bits: u64,
    is_reader: bool,
    t: Text,
    buf: &mut [u8],
) -> Text
    ensures { Wrote buf.old t
        (get_data_field is_reader (primitive_text (number_of kind)) offset
        (getter_mask (value (number_of kind) bits))) buf.new result }
{
    let typ = codegen_types::primitive(kind);
    let mask = getter_mask(kind, bits);
    calls::get_data_field(typ, offset, mask, is_reader, t, buf)
}

// The line that zeroes a number.
pub fn zero_number(kind: Kind, offset: u64, t: Text, buf: &mut [u8]) -> Text
    ensures { Wrote buf.old t (zero_data (primitive_text (number_of kind)) offset) buf.new result }
{
    let typ = codegen_types::primitive(kind);
    calls::zero_data(typ, offset, t, buf)
}

// Whether a type of this kind is a pointer.
pub fn is_pointer(kind: Kind) -> bool
    ensures { result ≡ is_pointer_kind (number_of kind) }
{
    !kind.is_primitive() && kind != Kind::Enum
}

// A haser's line that tests the tag, where the field has a discriminant: a setter's writes another call.
fn tag_test_line(tag: u64, discriminant: u64, is_reader: bool, t: Text, buf: &mut [u8]) -> Text
    ensures { WroteLines buf.old t (tag_test_line is_reader tag discriminant) buf.new result }
{
    if discriminant == NO_DISCRIMINANT {
        return t;
    }
    let t = t.inner_margin(buf);
    let t = calls::tag_test(tag, discriminant, is_reader, t, buf);
    t.bytes(buf, b"\n")
}

// `generate_haser` of a slot, for the name and the tag's offset of its field.
pub fn haser(name: &[u8], slot: Slot, tag: u64, is_reader: bool, t: Text, buf: &mut [u8]) -> Text
    ensures { WroteLines buf.old t
        (haser_of tag name.now slot.discriminant (number_of slot.kind) slot.offset is_reader) buf.new result }
{
    if !is_pointer(slot.kind) {
        return t.no_lines(buf);
    }
    let t = t.margin(buf);
    let t = t.broken(buf, b"#[inline]\npub fn has_");
    let t = names::snake_name(name, t, buf);
    let t = t.bytes(buf, b"(&self) -> bool {\n");
    let t = tag_test_line(tag, slot.discriminant, is_reader, t, buf);
    let t = t.inner_margin(buf);
    let t = calls::not_null(slot.offset, is_reader, t, buf);
    t.broken(buf, b"\n}\n")
}

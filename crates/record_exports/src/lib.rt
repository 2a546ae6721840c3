// The static library's boundary for records, on numbers and byte slices; kitlubas_record.h beside src declares it for C and says
// what each function answers and leaves. A slice passes as pointer then length.
#![tactic(auto)]

ghost use Rattle.std.specs.Prelude.{◌≡◌, set};
ghost use Rattle.record.specs.Bits.{bit, section_bits, flags};
ghost use Rattle.record.specs.Offsets.{as_width};
ghost use Rattle.record.specs.Record.{tag_is, null_flag, clear_flag};
ghost use Rattle.record_exports.specs.Boundary.{gets_bool, put_bool, elements, pointer_at, get_of, put_of};
ghost use Rattle.record_exports.specs.Boundary.{Gave, SetLeft};

use record::{BitOffset, ElementOffset, PointerOffset, Width};

// Bools: got and set with a mask and without.
#[unsafe(no_mangle)]
pub extern "C" fn kitlubas_get_bool_mask(section: &[u8], offset: u32, mask: bool) -> bool
    ensures { bit result ≡ gets_bool offset (bit mask) section.now }
{
    record::get_bool_field_mask(section, BitOffset(offset), mask)
}

#[unsafe(no_mangle)]
pub extern "C" fn kitlubas_get_bool(section: &[u8], offset: u32) -> bool
    ensures { bit result ≡ gets_bool offset 0 section.now }
{
    record::get_bool_field(section, BitOffset(offset))
}

#[unsafe(no_mangle)]
pub extern "C" fn kitlubas_set_bool_mask(
    section: &mut [u8],
    offset: u32,
    value: bool,
    mask: bool,
) -> bool
    ensures { SetLeft (put_bool offset (bit value) (bit mask) section.old)
        (section_bits section.old) (section_bits section.new) result }
{
    record::set_bool_field_mask(section, BitOffset(offset), value, mask).is_ok()
}

#[unsafe(no_mangle)]
pub extern "C" fn kitlubas_set_bool(section: &mut [u8], offset: u32, value: bool) -> bool
    ensures { SetLeft (put_bool offset (bit value) 0 section.old)
        (section_bits section.old) (section_bits section.new) result }
{
    record::set_bool_field(section, BitOffset(offset), value).is_ok()
}

// Numbers and enums by their bits: got and set with a mask and without.
#[unsafe(no_mangle)]
pub extern "C" fn kitlubas_get_data_mask(
    section: &[u8],
    width: u32,
    offset: u32,
    mask: u64,
    value: &mut u64,
) -> bool
    ensures { Gave (get_of (as_width width) (elements offset) mask (section_bits section.now))
        value.old value.new result }
{
    let Ok(w) = Width::try_from(width) else {
        return false;
    };
    *value = record::get_data_field_mask(section, w, ElementOffset(offset), mask);
    true
}

#[unsafe(no_mangle)]
pub extern "C" fn kitlubas_get_data(
    section: &[u8],
    width: u32,
    offset: u32,
    value: &mut u64,
) -> bool
    ensures { Gave (get_of (as_width width) (elements offset) 0 (section_bits section.now))
        value.old value.new result }
{
    let Ok(w) = Width::try_from(width) else {
        return false;
    };
    *value = record::get_data_field(section, w, ElementOffset(offset));
    true
}

#[unsafe(no_mangle)]
pub extern "C" fn kitlubas_set_data_mask(
    section: &mut [u8],
    width: u32,
    offset: u32,
    value: u64,
    mask: u64,
) -> bool
    ensures { SetLeft (put_of (as_width width) (elements offset) value mask (section_bits section.old))
        (section_bits section.old) (section_bits section.new) result }
{
    let Ok(w) = Width::try_from(width) else {
        return false;
    };
    record::set_data_field_mask(section, w, ElementOffset(offset), value, mask).is_ok()
}

#[unsafe(no_mangle)]
pub extern "C" fn kitlubas_set_data(section: &mut [u8], width: u32, offset: u32, value: u64) -> bool
    ensures { SetLeft (put_of (as_width width) (elements offset) value 0 (section_bits section.old))
        (section_bits section.old) (section_bits section.new) result }
{
    let Ok(w) = Width::try_from(width) else {
        return false;
    };
    record::set_data_field(section, w, ElementOffset(offset), value).is_ok()
}

// Whether a union has the member with this number.
#[unsafe(no_mangle)]
pub extern "C" fn kitlubas_tag_is(section: &[u8], offset: u32, member: u16) -> bool
    ensures { result ≡ tag_is (elements offset) member (section_bits section.now) }
{
    record::tag_is(section, ElementOffset(offset), member)
}

// Whether a pointer is null.
#[unsafe(no_mangle)]
pub extern "C" fn kitlubas_is_pointer_null(pointers: &[u8], offset: u32) -> bool
    ensures { result ≡ null_flag (pointer_at offset) (flags pointers.now) }
{
    record::is_pointer_field_null(pointers, PointerOffset(offset))
}

// Makes a pointer null.
#[unsafe(no_mangle)]
pub extern "C" fn kitlubas_clear(pointers: &mut [u8], offset: u32) -> bool
    ensures answer { SetLeft (clear_flag (pointer_at offset) (flags pointers.old))
        (flags pointers.old) (flags pointers.new) result }
    ensures bytes { pointers.new ≡ set pointers.old offset 0 }
{
    record::clear(pointers, PointerOffset(offset)).is_ok()
}

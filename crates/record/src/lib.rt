// A record lent by its caller: a data section of bytes, and a byte for each pointer. The operations that document 01, "What a
// line does to a record", gives a meaning: plain and masked gets and sets, tests of a tag, null tests and clears. Gets and tests
// answer on sections of any length: they find zero bits where these are not wholly inside. Sets and clears write by index, since
// no contract says what a slice holds after a write through its `get_mut`.
#![tactic(auto)]

ghost use Rattle.std.specs.Prelude.{◌≡◌, ◌*◌, ◌/◌, ◌%◌, ◌^◌, ◌≤◌, ◌<◌, length};
ghost use Rattle.record.specs.Bits.{bit, with_bit, little, little_bytes, section_bits, flags};
ghost use Rattle.record.specs.Offsets.{bytes_of, measured, bit_address, element_address, pointer_address, bool_at, data_at};
ghost use Rattle.record.specs.Record.{get_bits, tag_is, null_flag};
ghost use Rattle.record.specs.Answers.{Put, Cleared};
ghost use Rattle.record.specs.Bytes.{BoolAtHolds, NumberAtHolds, SetBytesHolds, SameBytesHolds};
ghost use Rattle.record.specs.Past.{DefaultGetHolds, AbsentHolds};

// An offset of a Bool, in bits.
#[derive(Clone, Copy)]
pub struct BitOffset(pub u32);

// An offset of a number or an enum, in elements of its own width.
#[derive(Clone, Copy)]
pub struct ElementOffset(pub u32);

// An offset of a pointer, in pointers.
#[derive(Clone, Copy)]
pub struct PointerOffset(pub u32);

// Where a Bool stands: a byte's number, and one of its eight bits, lowest first.
#[derive(Clone, Copy)]
pub struct BitAddress {
    pub byte: usize,
    pub bit: u32,
}

// How many bytes a number or an enum takes.
#[derive(Clone, Copy, Debug, PartialEq, Eq)]
pub enum Width {
    One = 1,
    Two = 2,
    Four = 4,
    Eight = 8,
}

// A number of bytes that is no width.
#[derive(Clone, Copy, Debug, PartialEq, Eq)]
pub struct NoWidth(pub u32);

// Why a set or a clear is refused: it is not wholly inside its section. The record is as before.
#[derive(Clone, Copy, Debug, PartialEq, Eq)]
pub struct NoMeaning;

impl Width {
    // The width in bytes: a method, as a `From` would not say what the number counts.
    pub fn bytes(self) -> usize
        ensures { result ≡ bytes_of self }
    {
        self as usize
    }

    // The low bits of a word, as many as the width has.
    #[tactic(auto, using(crate::proofs::OperationLaws::low_ones))]
    fn low_bits(self, word: u64) -> u64
        ensures { result ≡ word % 2 ^ (bytes_of self * 8) }
    {
        word & (u64::MAX >> (64 - self.bytes() * 8))
    }
}

impl TryFrom<u32> for Width {
    type Error = NoWidth;

    ghost try_from_gives = { λ n r. r ≡ measured n };

    // The width of so many bytes.
    fn try_from(bytes: u32) -> Result<Width, NoWidth> {
        match bytes {
            1 => Ok(Width::One),
            2 => Ok(Width::Two),
            4 => Ok(Width::Four),
            8 => Ok(Width::Eight),
            _ => Err(NoWidth(bytes)),
        }
    }
}

// The byte and the bit of a Bool.
pub fn bit_address(o: BitOffset) -> BitAddress
    ensures { result ≡ bit_address o }
{
    BitAddress {
        byte: (o.0 / 8) as usize,
        bit: o.0 % 8,
    }
}

// The first byte of a number or an enum.
pub fn element_address(width: Width, o: ElementOffset) -> usize
    ensures { result ≡ element_address width o }
{
    o.0 as usize * width.bytes()
}

// The byte of a pointer, among those that say whether pointers are null.
pub fn pointer_address(o: PointerOffset) -> usize
    ensures { result ≡ pointer_address o }
{
    o.0 as usize
}

// ---- bits and bytes

// whether a bit of a byte is set, the lowest being bit 0
fn bit_of(b: u8, at: u32) -> bool
    requires { at < 8 }
    ensures { bit result ≡ b / 2 ^ at % 2 }
{
    (b >> at) & 1 == 1
}

// the byte with that bit set or cleared
#[tactic(auto, using(crate::proofs::OperationLaws::bit_put))]
fn with_bit(b: u8, at: u32, on: bool) -> u8
    requires { at < 8 }
    ensures { result ≡ with_bit b at (bit on) }
{
    (b & !(1 << at)) | (u8::from(on) << at)
}

// the number that the bytes of a width are, little-endian. Each width has its arm: a copy into a word is a call of `memcpy`,
// which takes longer for a byte or two, and which whoever links the library would have to bring
fn load(bytes: &[u8]) -> u64
    requires { (w : Width) × (length bytes.now ≡ bytes_of w) }
    ensures { result ≡ little bytes.now }
{
    match *bytes {
        [a] => u64::from(a),
        [a, b] => u64::from(u16::from_le_bytes([a, b])),
        [a, b, c, d] => u64::from(u32::from_le_bytes([a, b, c, d])),
        [a, b, c, d, e, f, g, h] => u64::from_le_bytes([a, b, c, d, e, f, g, h]),
        _ => 0,
    }
}

// fills the bytes with the low ones of a number, little-endian, one by one for the same reason
fn store(bytes: &mut [u8], word: u64)
    ensures { bytes.new ≡ little_bytes (length bytes.old) word }
{
    let mut left = word;
    for byte in bytes.iter_mut() {
        *byte = (left % 256) as u8;
        left /= 256;
    }
}

// ---- Bools

// The bit there, exclusive or with the mask.
#[tactic(auto, using(crate::proofs::OperationLaws::bool_got, crate::proofs::OperationLaws::bool_not_got))]
pub fn get_bool_field_mask(section: &[u8], o: BitOffset, mask: bool) -> bool
    ensures { bit result ≡ get_bits (bool_at o) (bit mask) (section_bits section.now) }
{
    let a = bit_address(o);
    match section.get(a.byte) {
        Some(byte) => bit_of(*byte, a.bit) ^ mask,
        None => mask,
    }
}

// The bit there.
pub fn get_bool_field(section: &[u8], o: BitOffset) -> bool
    ensures { bit result ≡ get_bits (bool_at o) 0 (section_bits section.now) }
{
    get_bool_field_mask(section, o, false)
}

// Writes the value, exclusive or with the mask.
pub fn set_bool_field_mask(
    section: &mut [u8],
    o: BitOffset,
    value: bool,
    mask: bool,
) -> Result<(), NoMeaning>
    ensures { Put (bool_at o) (bit value) (bit mask) section.old section.new result }
{
    let a = bit_address(o);
    if a.byte >= section.len() {
        return Err(NoMeaning);
    }
    section[a.byte] = with_bit(section[a.byte], a.bit, value ^ mask);
    Ok(())
}

// Writes the value as it is.
pub fn set_bool_field(section: &mut [u8], o: BitOffset, value: bool) -> Result<(), NoMeaning>
    ensures { Put (bool_at o) (bit value) 0 section.old section.new result }
{
    set_bool_field_mask(section, o, value, false)
}

// ---- numbers and enums, by their bits

// The bits there as a number, exclusive or with the mask's low bits, as many as the width has.
#[tactic(auto, using(crate::proofs::OperationLaws::data_got, crate::proofs::OperationLaws::data_not_got))]
pub fn get_data_field_mask(section: &[u8], width: Width, o: ElementOffset, mask: u64) -> u64
    ensures { result ≡ get_bits (data_at width o) mask (section_bits section.now) }
{
    let at = element_address(width, o);
    match section.get(at..at + width.bytes()) {
        Some(bytes) => load(bytes) ^ width.low_bits(mask),
        None => width.low_bits(mask),
    }
}

// The bits there as a number.
pub fn get_data_field(section: &[u8], width: Width, o: ElementOffset) -> u64
    ensures { result ≡ get_bits (data_at width o) 0 (section_bits section.now) }
{
    get_data_field_mask(section, width, o, 0)
}

// Writes the value's low bits, as many as the width has, exclusive or with the mask.
pub fn set_data_field_mask(
    section: &mut [u8],
    width: Width,
    o: ElementOffset,
    value: u64,
    mask: u64,
) -> Result<(), NoMeaning>
    ensures { Put (data_at width o) value mask section.old section.new result }
{
    let at = element_address(width, o);
    let end = at + width.bytes();
    if end > section.len() {
        return Err(NoMeaning);
    }
    store(&mut section[at..end], value ^ mask);
    Ok(())
}

// Writes the value's low bits as they are.
pub fn set_data_field(
    section: &mut [u8],
    width: Width,
    o: ElementOffset,
    value: u64,
) -> Result<(), NoMeaning>
    ensures { Put (data_at width o) value 0 section.old section.new result }
{
    set_data_field_mask(section, width, o, value, 0)
}

// whether the 16 bits at o are the number of a union's member
pub fn tag_is(section: &[u8], o: ElementOffset, member: u16) -> bool
    ensures { result ≡ tag_is o member (section_bits section.now) }
{
    get_data_field(section, Width::Two, o) == u64::from(member)
}

// ---- pointers

// Whether a pointer is null: its byte is 0, or past the pointers.
#[tactic(auto, using(crate::proofs::OperationLaws::null_told))]
pub fn is_pointer_field_null(pointers: &[u8], o: PointerOffset) -> bool
    ensures { result ≡ null_flag o (flags pointers.now) }
{
    pointers
        .get(pointer_address(o))
        .is_none_or(|&byte| byte == 0)
}

// Makes a pointer null.
pub fn clear(pointers: &mut [u8], o: PointerOffset) -> Result<(), NoMeaning>
    ensures { Cleared o pointers.old pointers.new result }
{
    let at = pointer_address(o);
    if at >= pointers.len() {
        return Err(NoMeaning);
    }
    pointers[at] = 0;
    Ok(())
}

// Makes it a promise of this crate which bytes the bits of a record are: a Bool's, a number's, and those that a set changes; and
// what is found where a record ends before a slot.
pub fn claims()
    ensures bytes { BoolAtHolds × NumberAtHolds × SetBytesHolds × SameBytesHolds }
    ensures past { DefaultGetHolds × AbsentHolds }
{}

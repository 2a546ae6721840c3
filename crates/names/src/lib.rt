// Names in generated code: a field's name in snake case, its default's constant and a module's name.
#![tactic(auto)]

pub mod keywords;

ghost use Rattle.std.specs.Prelude.{◌≡◌, true, map, ◌+◌, ◌<◌, min, eqb, length, drop, get_or};
ghost use Rattle.text.specs.Text.{Wrote};
ghost use Rattle.names.specs.Keywords.{is_keyword};
ghost use Rattle.names.specs.Names.{is_ascii, is_uppercase, to_ascii_lowercase, to_ascii_uppercase, taken};
ghost use Rattle.names.specs.Names.{snake_byte, snake_from};
ghost use Rattle.names.specs.Names.{camel_to_snake_case, default_name, module_name, FieldNamesTaken, Snaked, name_of};

use crate::keywords::is_keyword;
use terms::limits;
use text::Text;

// The second byte of the last capital with an accent, U+00DE.
const LAST_CAPITAL: u8 = 0x9e;

// A snake name, held whole: its bytes, then zeros. An array with its length, as nothing here stands on a heap.
#[derive(Clone, Copy)]
pub struct Snake {
    bytes: [u8; 128],
    len: usize,
}

// Whether a capital begins at `i`: A to Z, or a letter from U+00C0 to U+00DE.
fn is_uppercase(name: &[u8], i: usize) -> bool
    requires { i < length name.now }
    ensures { result ≡ is_uppercase (get_or name.now i 0) (drop (i + 1) name.now) }
{
    name[i].is_ascii_uppercase() || column::letter_at(name, i) && name[i + 1] <= LAST_CAPITAL
}

// Whether a name is taken: at most 64 bytes, of ASCII and letters from U+00C0 to U+00FF.
pub fn takes(name: &[u8]) -> bool
    ensures { result ≡ taken name.now }
{
    name.len() <= limits::NAME_BYTES
        && column::are_chars(
            name,
            |b| -> bool
                ensures { result ≡ is_ascii b }
            { b.is_ascii() },
        )
}

// All bytes of a name, in lower case, with an underscore where a capital begins that is not the first char.
fn snake_bytes(name: &[u8], t: Text, buf: &mut [u8]) -> Text
    ensures { Wrote buf.old t (snake_from true name.now) buf.new result }
{
    let mut t = t;
    for (i, b) in name.iter().enumerate() {
        if i > 0 && is_uppercase(name, i) {
            t = t.byte(buf, b'_');
        }
        t = t.byte(buf, b.to_ascii_lowercase());
    }
    t
}

// The snake name of a name; the empty one for a name that is not taken.
pub fn camel_to_snake_case(name: &[u8]) -> Snake
    ensures { Snaked name.now result }
{
    let mut bytes = [0u8; 128];
    if !takes(name) {
        return Snake { bytes, len: 0 };
    }
    let t = snake_bytes(name, Text::at(0), &mut bytes);
    Snake {
        bytes,
        len: t.fill(),
    }
}

impl Snake {
    // the name
    fn name(&self) -> &[u8]
        ensures { result.now ≡ name_of self.now }
    {
        &self.bytes[..self.len.min(128)]
    }

    // the name, written
    pub fn write(self, t: Text, buf: &mut [u8]) -> Text
        ensures { Wrote buf.old t (name_of self) buf.new result }
    {
        t.bytes(buf, self.name())
    }

    // the name, written in capitals
    fn write_capitals(self, t: Text, buf: &mut [u8]) -> Text
        ensures { Wrote buf.old t (map to_ascii_uppercase (name_of self)) buf.new result }
    {
        let mut t = t;
        for b in self.name() {
            t = t.byte(buf, b.to_ascii_uppercase());
        }
        t
    }
}

// A name in snake case.
pub fn snake_name(name: &[u8], t: Text, buf: &mut [u8]) -> Text
    ensures { Wrote buf.old t (camel_to_snake_case name.now) buf.new result }
{
    let snake = camel_to_snake_case(name);
    snake.write(t, buf)
}

// The name of the constant that holds a field's default.
pub fn default_name(name: &[u8], t: Text, buf: &mut [u8]) -> Text
    ensures { Wrote buf.old t (default_name name.now) buf.new result }
{
    let snake = camel_to_snake_case(name);
    let t = t.bytes(buf, b"DEFAULT_");
    snake.write_capitals(t, buf)
}

// A module's name: a keyword gets an underscore at its end.
pub fn module_name(name: &[u8], t: Text, buf: &mut [u8]) -> Text
    ensures { Wrote buf.old t (module_name name.now) buf.new result }
{
    let snake = camel_to_snake_case(name);
    let snake = snake.name();
    let t = t.bytes(buf, snake);
    if is_keyword(snake) {
        t.byte(buf, b'_')
    } else {
        t
    }
}

// Makes it a promise of this crate that the name of a field is taken.
pub fn claims()
    ensures { FieldNamesTaken }
{}

// The columns of a sheet's line: a number, right-justified in 21 columns, and a text after one space. What a number is stands in
// `trimmed` and `unpadded`; `common` and `known` tell most numbers sooner, and no other.
#![tactic(auto)]

ghost use Rattle.std.specs.Prelude.{◌≡◌, ◌+◌, ◌-◌, ltb, length, take, drop, get_or, ℕ, Bool, true, false, None, Some};
ghost use Rattle.std.specs.List.{list_all};
ghost use Rattle.std.specs.Option.{MatchOption};
ghost use Rattle.text.specs.Bytes.{Str, cond, both};
ghost use Rattle.column.specs.Number.{trimmed, digit, digits, unpadded, number, column_of, most};
ghost use Rattle.column.specs.Texts.{is_word, is_graphic, is_graphic_text, ends_in};
ghost use Rattle.column.specs.Texts.{is_lead, is_accented, are_chars, may_be_name, is_name, NameTo, is_field_name};

use terms::limits;

// A letter from U+00C0 to U+00FF in UTF-8: its first byte, the least and the greatest second one, and two that make signs.
const LEAD: u8 = 0xc3;

const FIRST_ACCENTED: u8 = 0x80;

const LAST_ACCENTED: u8 = 0xbf;

const MULTIPLICATION_SIGN: u8 = 0x97;

const DIVISION_SIGN: u8 = 0xb7;

// What stands before the last five columns of a short number.
const SPACES: [u8; 16] = *b"                ";

// As many digits as fit 64 bits whatever they are.
const DIGITS_THAT_FIT: usize = 19;

// The bytes after the spaces in front: by fours, and the last few singly.
#[tactic(auto, unfolding(crate::specs::Number::trimmed))]
fn trimmed(t: &[u8]) -> &[u8]
    ensures { result.now ≡ trimmed t.now }
{
    let mut rest = past_fours(t);
    while let [b' ', tail @ ..] = rest {
        rest = tail;
    }
    rest
}

// The bytes after fours of spaces. With all of them passed over singly, admission of a sheet of groups takes 1.04 times as many
// instructions.
fn past_fours(t: &[u8]) -> &[u8]
    ensures { trimmed t.now ≡ trimmed result.now }
{
    let mut rest = t;
    while rest.first_chunk::<4>() == Some(b"    ") {
        rest = &rest[4..];
    }
    rest
}

// The number that a digit makes; none for another byte, of which the difference is above 9, since below 0 it goes around.
fn digit(b: u8) -> Option<u64>
    ensures { result ≡ digit b (Some (b - 48)) }
{
    let n = u64::from(b).wrapping_sub(48);
    if 9 < n {
        return None;
    }
    Some(n)
}

// The number of which the digits before these make `head`, where it fits 64 bits.
#[tactic(auto, unfolding(crate::specs::Number::digits))]
fn more_digits(t: &[u8], head: u64) -> Option<u64>
    ensures { result ≡ digits head t.now }
{
    let mut v = head;
    for &b in t {
        let n = digit(b)?;
        v = v.checked_mul(10)?.checked_add(n)?;
    }
    Some(v)
}

// The number that digits make, where it fits 64 bits: the first 19 do, and those after them are tested. With each of them tested,
// admission of a sheet of words takes 1.5 times as many instructions, and of one of groups 1.2 times.
fn digits(t: &[u8]) -> Option<u64>
    ensures { result ≡ digits 0 t.now }
{
    let (head, tail) = t.split_at(DIGITS_THAT_FIT.min(t.len()));
    let mut v: u64 = 0;
    for &b in head {
        v = v * 10 + digit(b)?;
    }
    more_digits(tail, v)
}

// A number without spaces: 0 alone, or digits of which the first is not 0.
#[tactic(auto, unfolding(crate::specs::Number::unpadded))]
fn unpadded(t: &[u8]) -> Option<u64>
    ensures { result ≡ unpadded t.now }
{
    match t {
        [] => None,
        [b'0'] => Some(0),
        [b'0', ..] => None,
        _ => digits(t),
    }
}

// The number of 21 columns, where it is one that most have: a single digit, or 65535, which says of a field that it has no
// discriminant. It is told by sixteen bytes, four and one; any other is none here, and read digit by digit. Without this,
// admission of an ordinary sheet of 64 KB takes 1.08 times as many instructions, and of one of groups 1.13 times.
fn common(t: &[u8]) -> Option<u64>
    ensures { (n : ℕ) → result ≡ Some n → number t.now ≡ Some n }
{
    let (front, rest) = t.split_first_chunk::<16>()?;
    let (four, last) = rest.split_first_chunk::<4>()?;
    let &[b] = last else {
        return None;
    };
    if *front == SPACES && four == b"    " {
        return digit(b);
    }
    if *front == SPACES && four == b"6553" && b == b'5' {
        return Some(65535);
    }
    None
}

// A number behind spaces.
fn number(t: &[u8]) -> Option<u64>
    ensures { result ≡ number t.now }
{
    match common(t) {
        Some(n) => Some(n),
        None => unpadded(trimmed(t)),
    }
}

// The number in the 21 columns from `a` on, where they are there whole.
fn number_at(t: &[u8], a: usize) -> Option<u64>
    ensures { result ≡ cond (ltb (length t.now) (a + 21)) None (number (take 21 (drop a t.now))) }
{
    if t.len() < 21 || t.len() - 21 < a {
        return None;
    }
    number(&t[a..a + 21])
}

// The same where it lies from `least` to `most`. Written out at each call, so that bounds that are known need no test: with a
// call, admission of an ordinary sheet of 64 KB takes 1.07 times as many instructions.
#[inline(always)]
#[tactic(auto, unfolding(crate::specs::Number::column_of))]
pub fn column(t: &[u8], a: usize, least: u64, most: u64) -> Option<u64>
    ensures { result ≡ column_of t.now a least most }
{
    let v = number_at(t, a)?;
    if v < least || most < v {
        return None;
    }
    Some(v)
}

// The number in the 21 columns from `a` on, where they are known to have one: by its last byte, where a space stands before that,
// or by its last two, where one stands before them. Of other columns nothing is said.
#[tactic(auto, using(crate::proofs::PaddedLaws::known_parts), unfolding(crate::specs::Number::column_of))]
pub fn known(t: &[u8], a: usize) -> u64
    ensures { (n : ℕ) → column_of t.now a 0 (most 64) ≡ Some n → result ≡ n }
{
    if t.len() < 21 || t.len() - 21 < a {
        return 0;
    }
    if t[a + 19] == b' ' {
        return u64::from(t[a + 20]) % 16;
    }
    if t[a + 18] == b' ' {
        return u64::from(t[a + 19]) % 16 * 10 + u64::from(t[a + 20]) % 16;
    }
    column(t, a, 0, u64::MAX).unwrap_or(0)
}

// An ASCII letter, an underscore or a digit. In this order a lower-case letter, as most are, takes nine instructions of a loop;
// with `is_ascii_alphanumeric` it takes twelve.
#[tactic(auto, unfolding(crate::specs::Texts::is_word))]
fn is_word(b: u8) -> bool
    ensures { result ≡ is_word b }
{
    if b'a' <= b {
        return b <= b'z';
    }
    if b < b'A' {
        return b.is_ascii_digit();
    }
    b <= b'Z' || b == b'_'
}

// The second byte of a letter from U+00C0 to U+00FF.
fn is_accented(b: u8) -> bool
    ensures { result ≡ is_accented b }
{
    FIRST_ACCENTED <= b && b <= LAST_ACCENTED && b != MULTIPLICATION_SIGN && b != DIVISION_SIGN
}

// Whether a letter from U+00C0 to U+00FF stands at `i`, whole.
pub fn letter_at(t: &[u8], i: usize) -> bool
    ensures { result ≡ both (is_lead (get_or t.now i 0)) (is_accented (get_or t.now (i + 1) 0)) }
{
    i < t.len() && t[i] == LEAD && 1 < t.len() - i && is_accented(t[i + 1])
}

// Whether a text is made of chars that pass a test, letters from U+00C0 to U+00FF among them; the test takes no first byte of
// such a letter. A char is one byte or two, so that no `for` counts them; with what is left of the text in place of a place,
// admission of a sheet whose fields' names have 64 letters takes 1.06 times as many instructions.
pub fn are_chars<F: Fn(u8) -> bool>(t: &[u8], ok: F) -> bool
    requires { F.IsAlwaysCallable ok }
    ensures { (test : ℕ → Bool) → ((b : _) (r : Bool) → F.post ok b r → r ≡ test b)
        → ((b : ℕ) → test b ≡ true → is_lead b ≡ false) → result ≡ are_chars test false t.now }
{
    let mut i = 0;
    while i < t.len() {
        if ok(t[i]) {
            i += 1;
        } else if letter_at(t, i) {
            i += 2;
        } else {
            return false;
        }
    }
    true
}

// Whether a text may be a name: 1 to 64 bytes, not digit first.
fn may_be_name(t: &[u8]) -> bool
    ensures { result ≡ may_be_name t.now }
{
    !t.is_empty() && t.len() <= limits::NAME_BYTES && !t[0].is_ascii_digit()
}

// Whether each byte is a letter, an underscore or a digit.
fn all_word(t: &[u8]) -> bool
    ensures { result ≡ list_all is_word t.now }
{
    t.iter().all(|&b| is_word(b))
}

// A name: ASCII letters, digits or underscores.
#[tactic(auto, using(crate::proofs::Laws::all_same), unfolding(crate::specs::Texts::is_name))]
fn is_name(t: &[u8]) -> bool
    ensures { result ≡ is_name t.now }
{
    may_be_name(t) && all_word(t)
}

// Where the name that stands after one space at `a` ends, if byte 10 follows it. By `position` in what follows the space, each
// lower-case letter takes eleven instructions in place of nine. It stays a call: where it is written out in its caller, admission
// of a sheet of groups takes 1.02 times as many instructions.
#[inline(never)]
pub fn name_end(t: &[u8], a: usize) -> Option<usize>
    ensures { MatchOption result ((e : ℕ) → NameTo t.now a e → ⊥) (NameTo t.now a) }
{
    if t.len() <= a || t[a] != b' ' {
        return None;
    }
    for e in a + 1..t.len() {
        let b = t[e];
        if !is_word(b) {
            if b != b'\n' || !may_be_name(&t[a + 1..e]) {
                return None;
            }
            return Some(e);
        }
    }
    None
}

// A field's name.
#[tactic(auto, unfolding(crate::specs::Texts::is_field_name))]
fn is_field_name(t: &[u8]) -> bool
    ensures { result ≡ is_field_name t.now }
{
    may_be_name(t) && are_chars(t, is_word)
}

// Whether each byte is graphic.
#[tactic(auto, unfolding(crate::specs::Texts::is_graphic))]
fn all_graphic(t: &[u8]) -> bool
    ensures { result ≡ list_all is_graphic t.now }
{
    t.iter().all(|b| b.is_ascii_graphic())
}

// 1 to `most` graphic bytes.
#[tactic(auto, using(crate::proofs::Laws::all_same), unfolding(crate::specs::Texts::is_graphic_text))]
fn is_graphic_text(t: &[u8], most: usize) -> bool
    ensures { result ≡ is_graphic_text most t.now }
{
    !t.is_empty() && t.len() <= most && all_graphic(t)
}

// Whether the line ends in a space at `a` and a text that passes a test.
#[tactic(auto, unfolding(crate::specs::Texts::ends_in))]
fn ends_in<F: Fn(&[u8]) -> bool>(t: &[u8], a: usize, ok: F) -> bool
    requires { F.IsAlwaysCallable ok }
    ensures { (test : Str → Bool) → ((x : _) (r : Bool) → F.post ok x r → r ≡ test x.now) → result ≡ ends_in test t.now a }
{
    a < t.len() && t[a] == b' ' && ok(&t[a + 1..])
}

// Whether the line ends in a space at `a` and a name.
pub fn ends_in_name(t: &[u8], a: usize) -> bool
    ensures { result ≡ ends_in is_name t.now a }
{
    ends_in(t, a, is_name)
}

// Whether the line ends in a space at `a` and a field's name.
pub fn ends_in_field_name(t: &[u8], a: usize) -> bool
    ensures { result ≡ ends_in is_field_name t.now a }
{
    ends_in(t, a, is_field_name)
}

// Whether the line ends in a space at `a` and 1 to `most` graphic bytes.
pub fn ends_in_graphic(t: &[u8], a: usize, most: usize) -> bool
    ensures { result ≡ ends_in (is_graphic_text most) t.now a }
{
    ends_in(t, a, |x| is_graphic_text(x, most))
}

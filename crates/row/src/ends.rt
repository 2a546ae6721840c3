// Where a row ends: the search for byte 10, by words of eight bytes.
ghost use Rattle.std.specs.Prelude.{◌≡◌, ◌+◌, ◌/◌, ◌≤◌, take, drop, length};
ghost use Rattle.std.specs.Int.Count.{count_trailing_zeros};
ghost use Rattle.row.specs.Rows.{row_len};
ghost use Rattle.row.specs.Newline.{newline_from, FirstAtOrAfter};
ghost use Rattle.row.specs.Eights.{word_of, newline_bits, words_said};

// Byte 10 in each of eight places, the seven low bits of each, and the highest bit of each.
const TENS: u64 = 0x0a0a_0a0a_0a0a_0a0a;

const LOW: u64 = 0x7f7f_7f7f_7f7f_7f7f;

const HIGH: u64 = 0x8080_8080_8080_8080;

// The eight bytes from `i` on as one number, the first lowest: one load. With `first_chunk` of the rest the search by words takes
// 1.12 to 1.22 times as many instructions, and where every line has two bytes more than that by single bytes.
#[tactic(auto, using(crate::proofs::WordLaws::word_eight))]
fn eight_bytes(s: &[u8], i: usize) -> u64
    requires { i + 8 ≤ length s.now }
    ensures { result ≡ word_of (take 8 (drop i s.now)) }
{
    u64::from_le_bytes([
        s[i],
        s[i + 1],
        s[i + 2],
        s[i + 3],
        s[i + 4],
        s[i + 5],
        s[i + 6],
        s[i + 7],
    ])
}

// The highest bit of each byte 10 of a word. The seven low bits of a byte, exclusive or those of 10, plus 127, reach the highest
// bit where they are not 0, and go no further; a byte whose own highest bit is set is another too.
fn newline_bits(w: u64) -> u64
    ensures { result ≡ newline_bits 8 w }
{
    let others = ((w & LOW) ^ TENS) + LOW;
    ((others | w) & HIGH) ^ HIGH
}

// How many bytes of a word stand before its first byte 10, by the word's bits. The first four places are told by a test each, so
// that behind a short line the next search need not wait for a count of zeros: by the count alone it takes 1.46, 1.26 and 1.16
// times as long where each row has two, three or four bytes, and longer than by single bytes; where lengths vary it takes less.
fn before_first(bits: u64) -> usize
    ensures { result ≡ count_trailing_zeros 64 bits / 8 }
{
    if bits % 0x100 != 0 {
        return 0;
    }
    if bits % 0x1_0000 != 0 {
        return 1;
    }
    if bits % 0x100_0000 != 0 {
        return 2;
    }
    if bits % 0x1_0000_0000 != 0 {
        return 3;
    }
    (bits.trailing_zeros() / 8) as usize
}

// The search by words, while eight bytes remain: where the first byte 10 stands, or from where on it is left to seek. Where none
// stands it takes 0.65 of the instructions of a search by single bytes (`bench/run ends`). By a `for` over `as_chunks`, which
// needs no place, it takes 1.31 times those where each row has two bytes, and bench/run allows no more than once.
#[tactic(auto, using(crate::proofs::NewlineLaws::past_eight))]
fn by_words(s: &[u8], from: usize) -> Result<usize, usize>
    ensures { words_said s.now result ≡ newline_from s.now from }
{
    if s.len() < 8 {
        return Err(from);
    }
    let last = s.len() - 8;
    let mut i = from;
    while i <= last {
        let bits = newline_bits(eight_bytes(s, i));
        if bits != 0 {
            return Ok(i + before_first(bits));
        }
        i += 8;
    }
    Err(i)
}

// The search byte by byte.
pub fn singly(s: &[u8], from: usize) -> Option<usize>
    ensures { result ≡ newline_from s.now from }
{
    let rest = s.get(from..)?;
    let i = rest.iter().position(|&b| b == b'\n')?;
    Some(from + i)
}

// The first byte 10 at or after `from`: by words while eight bytes remain, and the last few singly.
#[tactic(auto, using(crate::proofs::NewlineLaws::found_first))]
pub fn find_newline(s: &[u8], from: usize) -> Option<usize>
    ensures is { result ≡ newline_from s.now from }
    ensures first { FirstAtOrAfter s.now from result }
{
    match by_words(s, from) {
        Ok(i) => Some(i),
        Err(i) => singly(s, i),
    }
}

// The same search where a line may end at `from`: that byte is looked at first, and mostly it is byte 10.
pub fn newline_at(s: &[u8], from: usize) -> Option<usize>
    ensures { result ≡ newline_from s.now from }
{
    if from < s.len() && s[from] == b'\n' {
        return Some(from);
    }
    find_newline(s, from)
}

// The position after the first byte 10 at or after `from`, or the end where there is none.
#[tactic(auto, using(crate::proofs::NewlineLaws::ends_found, crate::proofs::NewlineLaws::ends_none))]
pub fn row_end(s: &[u8], from: usize) -> usize
    ensures { result ≡ from + row_len (drop from s.now) }
{
    if s.len() <= from {
        return from;
    }
    match find_newline(s, from) {
        Some(i) => i + 1,
        None => s.len(),
    }
}

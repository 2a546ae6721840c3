// Both searches for byte 10, for bench/ alone: as it is, by words, and as it was, by eight comparisons. Each answers the
// position of the first byte 10 at or after `from`, or 18446744073709551615 where there is none.
#![tactic(auto)]

ghost use Rattle.std.specs.Prelude.{◌≡◌, ◌+◌, ◌≤◌, length};
ghost use Rattle.row.specs.Newline.{newline_from};
ghost use Rattle.bench_ends.specs.Searches.{Passes, answered};

// Whether none of the eight bytes from `i` on is byte 10.
#[tactic(auto, using(crate::proofs::Laws::passes))]
fn goes_on(s: &[u8], i: usize) -> bool
    requires { i + 8 ≤ length s.now }
    ensures { Passes s.now i result }
{
    s[i] != b'\n'
        && s[i + 1] != b'\n'
        && s[i + 2] != b'\n'
        && s[i + 3] != b'\n'
        && s[i + 4] != b'\n'
        && s[i + 5] != b'\n'
        && s[i + 6] != b'\n'
        && s[i + 7] != b'\n'
}

// Past eights of bytes in which there is no byte 10. It counts its place by hand, as the search that it is measured for did.
#[tactic(auto, using(crate::proofs::Laws::passed))]
fn past_eights(s: &[u8], from: usize) -> usize
    ensures { newline_from s.now result ≡ newline_from s.now from }
{
    if s.len() <= from {
        return from;
    }
    let mut i = from;
    while 8 <= s.len() - i {
        if !goes_on(s, i) {
            return i;
        }
        i += 8;
    }
    i
}

// The first byte 10 at or after `from`, as it was sought: by eights, and the last few singly.
fn find_by_bytes(s: &[u8], from: usize) -> Option<usize>
    ensures { result ≡ newline_from s.now from }
{
    row::singly(s, past_eights(s, from))
}

#[unsafe(no_mangle)]
pub extern "C" fn bench_newline_by_words(s: &[u8], from: usize) -> usize
    ensures { result ≡ answered (newline_from s.now from) }
{
    row::find_newline(s, from).unwrap_or(usize::MAX)
}

#[unsafe(no_mangle)]
pub extern "C" fn bench_newline_by_bytes(s: &[u8], from: usize) -> usize
    ensures { result ≡ answered (newline_from s.now from) }
{
    find_by_bytes(s, from).unwrap_or(usize::MAX)
}

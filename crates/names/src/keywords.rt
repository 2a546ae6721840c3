// Rust's keywords.
ghost use Rattle.std.specs.Prelude.{◌≡◌, length};
ghost use Rattle.std.specs.List.{list_any};
ghost use Rattle.std.specs.Str.{bytes_eq};
ghost use Rattle.names.specs.Keywords.{is_keyword};

// Whether a name is one of the words of its length. It is compared as an array, whose length is known, with all of them, so that
// the compiler writes the search out without a loop.
fn one_of<const N: usize>(name: &[u8], words: &[[u8; N]]) -> bool
    requires { length name.now ≡ N }
    ensures { result ≡ list_any (λ w. bytes_eq w name.now) words.now }
{
    let Some(whole) = name.first_chunk::<N>() else {
        return false;
    };
    let mut found = false;
    for word in words {
        found |= word == whole;
    }
    found
}

// Whether a name is one of `RUST_KEYWORDS`: it is compared with those of its own length.
pub fn is_keyword(name: &[u8]) -> bool
    ensures { result ≡ is_keyword name.now }
{
    match name.len() {
        2 => one_of(name, &[*b"as", *b"be", *b"do", *b"fn", *b"if", *b"in"]),
        3 => one_of(
            name,
            &[
                *b"box", *b"for", *b"let", *b"mod", *b"mut", *b"pub", *b"ref", *b"use",
            ],
        ),
        4 => one_of(
            name,
            &[
                *b"else", *b"enum", *b"impl", *b"loop", *b"move", *b"once", *b"priv", *b"proc",
                *b"pure", *b"self", *b"true", *b"type",
            ],
        ),
        5 => one_of(
            name,
            &[
                *b"break", *b"const", *b"crate", *b"false", *b"final", *b"macro", *b"match",
                *b"super", *b"trait", *b"where", *b"while", *b"yield",
            ],
        ),
        6 => one_of(
            name,
            &[
                *b"become", *b"extern", *b"return", *b"sizeof", *b"static", *b"struct", *b"typeof",
                *b"unsafe",
            ],
        ),
        7 => one_of(name, &[*b"alignof", *b"unsized", *b"virtual"]),
        8 => one_of(
            name,
            &[*b"abstract", *b"continue", *b"offsetof", *b"override"],
        ),
        _ => false,
    }
}

// Rows of a type that are known to be good: passed over by letter and length, and read no further than that takes.
ghost use Rattle.std.specs.Prelude.{◌≡◌, ℕ, ◌+◌, ◌≤◌, drop, length};
ghost use Rattle.row.specs.Rows.{rows};
ghost use Rattle.row.specs.Line.{Typ, line_at};
ghost use Rattle.row.specs.Part.{owed, PartAt};

use crate::Owing;
use terms::Kind;

// How many types or scopes belong to a T row. It is taken as 86 bytes, in which its columns need no test.
fn type_owed(s: &[u8], at: usize) -> u64
    requires { at + 86 ≤ length s.now }
    ensures { (k a b c : ℕ) → line_at (rows (drop at s.now)) ≡ Typ k a b c → result ≡ owed (Typ k a b c) }
{
    let row = &s[at..at + 86];
    match Kind::from(column::known(row, 1)) {
        Kind::List => 1,
        Kind::Enum | Kind::Struct | Kind::Interface => column::known(row, 43),
        _ => 0,
    }
}

// What belongs to the T, S or U row at a position. An S row has bindings only where it binds, so that their number is enough.
// Each arm has its own length and tests it: with a `match` for the length, one test and a `match` for what is owed, `accessors`
// takes 1.16 times as many instructions for a nest of scopes that bind.
#[tactic(auto, using(crate::proofs::PartLaws::parts))]
pub fn part(s: &[u8], at: usize) -> Owing
    ensures { PartAt s.now at result }
{
    let end = s.len();
    if end <= at {
        return Owing { owed: 0, next: at };
    }
    let left = end - at;
    match s[at] {
        b'T' => {
            if left < 86 {
                return Owing { owed: 0, next: end };
            }
            Owing {
                owed: type_owed(s, at),
                next: at + 86,
            }
        }
        b'S' => {
            if left < 65 {
                return Owing { owed: 0, next: end };
            }
            Owing {
                owed: column::known(&s[at..at + 65], 43),
                next: at + 65,
            }
        }
        _ => {
            if left < 2 {
                return Owing { owed: 0, next: end };
            }
            Owing {
                owed: 0,
                next: at + 2,
            }
        }
    }
}

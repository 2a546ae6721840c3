// Walks over the parts of a sheet: a type with its brand, a slot's default and words. Each gives the position after the part,
// or the row that is refused.
#![tactic(auto)]

ghost use Rattle.std.specs.Prelude.{◌≡◌, ℕ, drop, length};
ghost use Rattle.terms.specs.Kinds.{number_of};
ghost use Rattle.row.specs.Rows.{rows};
ghost use Rattle.tree.specs.Tree.{end, stop};
ghost use Rattle.tree.specs.Reader.{map_r, times};
ghost use Rattle.tree.specs.Read.{read_type, read_scope, read_binding, read_words_up_to, read_words, has_words, read_slot};
ghost use Rattle.tree.specs.Walked.{passed, walked, counted, end_at, wrong_at};

use row::{BadLine, Line};
use terms::{Kind, Refusal};

// A row that is refused: why, the column, and where it stands.
#[derive(Clone, Copy)]
pub struct RefusedRow {
    pub refusal: Refusal,
    pub column: usize,
    pub at: usize,
}

// W rows that stand one after the other: how many, and where the row after them stands. No struct over any type serves for this
// and `row::Got`, as the field's name says what is counted.
#[derive(Clone, Copy)]
pub struct Counted {
    pub count: u64,
    pub next: usize,
}

// Where a line with a letter may stand and this one stands: a bad line with that letter is refused by its fault; at any other the
// walk ends.
pub fn end_at(line: Result<Line, BadLine>, letter: u8, at: usize) -> Result<usize, RefusedRow>
    ensures { result ≡ end_at letter line at }
{
    match line {
        Err(bad) if bad.letter == letter => Err(RefusedRow {
            refusal: bad.refusal,
            column: bad.column,
            at,
        }),
        _ => Ok(at),
    }
}

// Where a line with a letter must stand and this one stands: a bad line with that letter is refused by its fault, any other as
// one that may not stand there.
pub fn wrong_at(line: Result<Line, BadLine>, letter: u8, at: usize) -> RefusedRow
    ensures { result ≡ wrong_at letter line at }
{
    match end_at(line, letter, at) {
        Ok(_) => RefusedRow {
            refusal: Refusal::BadLine,
            column: 1,
            at,
        },
        Err(refused) => refused,
    }
}

// One type with so many levels left: a T row, and what belongs to it.
#[cycle(binding_binds_scope_scopes_typ)]
fn typ(s: &[u8], at: usize, left: usize) -> Result<usize, RefusedRow>
    ensures { walked s.now result ≡ passed (read_type left (rows (drop at s.now))) }
{
    let row = row::next(s, at);
    let Ok(
        Line::Typ {
            kind,
            a: _,
            b,
            c: _,
        },
    ) = row.line
    else {
        return Err(wrong_at(row.line, b'T', at));
    };
    if left == 0 {
        return Err(RefusedRow {
            refusal: Refusal::TooDeep,
            column: 1,
            at,
        });
    }
    match kind {
        Kind::List => typ(s, row.next, left - 1),
        Kind::Enum | Kind::Struct | Kind::Interface => scopes(s, row.next, b, left - 1),
        _ => Ok(row.next),
    }
}

// So many scopes, whose bindings have so many levels left.
#[cycle(binding_binds_scope_scopes_typ)]
fn scopes(s: &[u8], from: usize, count: u64, left: usize) -> Result<usize, RefusedRow>
    ensures { walked s.now result
        ≡ passed (times (read_scope (read_type left)) end count (rows (drop from s.now))) }
{
    let mut at = from;
    for _ in 0..count {
        at = scope(s, at, left)?;
    }
    Ok(at)
}

// One scope: an S row and its bindings.
#[cycle(binding_binds_scope_scopes_typ)]
fn scope(s: &[u8], at: usize, left: usize) -> Result<usize, RefusedRow>
    ensures { walked s.now result ≡ passed (read_scope (read_type left) (rows (drop at s.now))) }
{
    let row = row::next(s, at);
    let Ok(Line::Scope { bindings, .. }) = row.line else {
        return Err(wrong_at(row.line, b'S', at));
    };
    let Some(count) = bindings else {
        return Ok(row.next);
    };
    binds(s, row.next, count, left)
}

// So many bindings, whose types have so many levels left: in each turn the U rows that stand there, or one binding. A turn may
// pass over many rows, so the loop counts what is left.
#[cycle(binding_binds_scope_scopes_typ)]
fn binds(s: &[u8], from: usize, count: u64, left: usize) -> Result<usize, RefusedRow>
    ensures { walked s.now result
        ≡ passed (times (read_binding (read_type left)) stop count (rows (drop from s.now))) }
{
    let mut at = from;
    let mut n = count;
    while 0 < n {
        let u = row::unbound_run(s, at, n);
        if 0 < u {
            at += 2 * (u as usize);
            n -= u;
            continue;
        }
        at = binding(s, at, left)?;
        n -= 1;
    }
    Ok(at)
}

// One binding: a U row, or a type.
#[cycle(binding_binds_scope_scopes_typ)]
fn binding(s: &[u8], at: usize, left: usize) -> Result<usize, RefusedRow>
    ensures { walked s.now result ≡ passed (read_binding (read_type left) (rows (drop at s.now))) }
{
    let row = row::next(s, at);
    let Ok(Line::Unbound) = row.line else {
        let at = end_at(row.line, b'U', at)?;
        return typ(s, at, left);
    };
    Ok(row.next)
}

// The W rows that stand there, up to so many.
pub fn words_up_to(s: &[u8], from: usize, most: u64) -> Result<Counted, RefusedRow>
    ensures { counted s.now result
        ≡ map_r length (read_words_up_to most) (rows (drop from s.now)) }
{
    let mut at = from;
    for count in 0..most {
        let Some(next) = row::past_word(s, at) else {
            let row = row::next(s, at);
            let next = end_at(row.line, b'W', at)?;
            return Ok(Counted { count, next });
        };
        at = next;
    }
    Ok(Counted {
        count: most,
        next: at,
    })
}

// Whether W rows belong to a slot, by its explicit flag and the kind of its V row.
pub fn has_words(explicit: u64, kind: Kind) -> bool
    ensures { result ≡ has_words explicit (number_of kind) }
{
    if explicit != 1 {
        return false;
    }
    matches!(kind, Kind::Text | Kind::Data | Kind::List | Kind::Struct)
}

// The W rows of a slot: 1 to 255 where they belong, else none.
fn words(s: &[u8], at: usize, has: bool) -> Result<usize, RefusedRow>
    ensures { walked s.now result ≡ passed (read_words has (rows (drop at s.now))) }
{
    if !has {
        return Ok(at);
    }
    let words = words_up_to(s, at, 255)?;
    if words.count == 0 {
        return Err(RefusedRow {
            refusal: Refusal::BadLine,
            column: 1,
            at,
        });
    }
    Ok(words.next)
}

// What belongs to an F row with this explicit flag: a type, a V row and its words.
pub fn slot(s: &[u8], at: usize, explicit: u64) -> Result<usize, RefusedRow>
    ensures { (o p : ℕ) → walked s.now result
        ≡ passed (read_slot o explicit p (rows (drop at s.now))) }
{
    let end = typ(s, at, 16)?;
    let row = row::next(s, end);
    let Ok(Line::Value { kind, .. }) = row.line else {
        return Err(wrong_at(row.line, b'V', end));
    };
    words(s, row.next, has_words(explicit, kind))
}

// Where things stand in a sheet, by position: what follows a type or a scope, the chain of a node's parents, and the scopes of a
// brand that count. Positions past the end, or of other rows, have an answer too.
#![tactic(auto)]

ghost use Rattle.std.specs.Prelude.{◌≡◌, ◌≤◌, drop};
ghost use Rattle.text.specs.Bytes.{Str};
ghost use Rattle.terms.specs.Kinds.{number_of};
ghost use Rattle.row.specs.Rows.{rows};
ghost use Rattle.row.specs.Line.{line_said};
ghost use Rattle.types.specs.Find.{type_row, TypeRowAt, kind_at, Past, step_of, ChainOf, LastScopes, Noted};

use nodes::{Entry, Source};
use row::{BadLine, Line};
use terms::{Kind, Refusal};

// What a T row says of a type: its numbers, and where what belongs to it begins.
#[derive(Clone, Copy)]
pub struct TypeRow {
    pub kind: Kind,
    pub a: u64,
    pub b: u64,
    pub c: u64,
    pub next: usize,
}

// What a line says as a T row, with where the next row begins. Another line is a Void's, and its numbers are 0.
pub fn as_type(line: Result<Line, BadLine>, next: usize) -> TypeRow
    ensures { result ≡ type_row (line_said line) next }
{
    let Ok(Line::Typ { kind, a, b, c }) = line else {
        return TypeRow {
            kind: Kind::Void,
            a: 0,
            b: 0,
            c: 0,
            next,
        };
    };
    TypeRow {
        kind,
        a,
        b,
        c,
        next,
    }
}

// The T row at a position.
pub fn type_row(s: &[u8], at: usize) -> TypeRow
    ensures { TypeRowAt s.now at result }
{
    let got = row::next(s, at);
    as_type(got.line, got.next)
}

// The kind of the type at a position; another row counts as a Void.
pub fn kind(s: &[u8], at: usize) -> Kind
    ensures { number_of result ≡ kind_at (rows (drop at s.now)) }
{
    let got = row::next(s, at);
    let Ok(Line::Typ { kind, .. }) = got.line else {
        return Kind::Void;
    };
    kind
}

// The position after so many types, scopes or bindings, whose rows are known to be good: they are passed over by their length,
// and a run of U rows at once.
pub fn past(s: &[u8], from: usize, count: u64) -> usize
    ensures further { from ≤ result }
    ensures rows { Past (rows (drop from s.now)) count (rows (drop result s.now)) }
{
    let mut at = from;
    let mut n = count;
    // What is left falls by a row and a whole run behind it, and grows by what the row owes, so that no range counts the turns.
    while 0 < n && at < s.len() {
        let part = row::part(s, at);
        let Some(owed) = part.owed.checked_add(n - 1) else {
            return s.len();
        };
        let run = row::unbound_run(s, part.next, owed);
        n = owed - run;
        at = part.next + 2 * run as usize;
    }
    at
}

// The chain of a node's parents, innermost first: the ids of its nodes, where their P rows begin, how many P rows they have,
// where these end, and the refusal at its end. There is no heap, so how many nodes there are stands beside the arrays. Each array
// is its own, since the ids go to `climb` and `scopes` as a slice, and the positions to the definition of a chain (`before`) as a
// list. The refusal stands beside the nodes since those met before it count too.
#[derive(Clone, Copy)]
pub struct Links {
    pub ids: [u64; 16],
    pub params: [usize; 16],
    pub counts: [u64; 16],
    pub ends: [usize; 16],
    pub count: usize,
    pub refusal: Option<Refusal>,
}

// The node with an id, for a chain that has these ids. It is too deep where they are 16, or where it is one of them, since then
// the chain has no end.
fn climb(source: &Source<'_>, ids: &[u64], id: u64) -> Result<Entry, Refusal>
    ensures { result ≡ step_of source.now.index.now ids.now id }
{
    if 16 <= ids.len() || ids.contains(&id) {
        return Err(Refusal::TooDeep);
    }
    source.find(id).ok_or(Refusal::NoNode)
}

// The chain of parents from a node on. It takes the source, since `find` is a method of it. It stays a call, so that its own copy
// of the links is off the stack where the brands of a brand are written.
#[inline(never)]
pub fn chain(source: &Source<'_>, id: u64) -> Links
    ensures { (s : Str) → ChainOf s source.now.index.now id result }
{
    let mut links = Links {
        ids: [0; 16],
        params: [0; 16],
        counts: [0; 16],
        ends: [0; 16],
        count: 0,
        refusal: None,
    };
    let mut current = id;
    // The next node is what the one before names as its scope.
    loop {
        match climb(source, &links.ids[..links.count], current) {
            Ok(node) => {
                links.ids[links.count] = current;
                links.params[links.count] = node.params;
                links.counts[links.count] = node.count;
                links.ends[links.count] = node.fields;
                links.count += 1;
                if node.parent == 0 {
                    return links;
                }
                current = node.parent;
            }
            Err(refusal) => {
                links.refusal = Some(refusal);
                return links;
            }
        }
    }
}

// Notes a position at the place of each of at most 16 ids that is this one.
fn note(ids: &[u64], places: &mut [usize; 16], id: u64, at: usize)
    ensures { Noted ids.now id at places.old places.new }
{
    let first = &ids[..ids.len().min(places.len())];
    for (k, &noted) in first.iter().enumerate() {
        if id == noted {
            places[k] = at;
        }
    }
}

// The positions of the last of so many scopes with each of at most 16 ids; the sheet's end where there is none, since no S row
// stands there, which whoever reads one tests: an Option would be a second test. What belongs to a scope is passed over.
pub fn scopes(s: &[u8], from: usize, count: u64, ids: &[u64]) -> [usize; 16]
    ensures { LastScopes s.now from count ids.now result }
{
    let mut places = [s.len(); 16];
    let mut at = from;
    for k in 0..count {
        let got = row::next(s, at);
        let Ok(Line::Scope { id, bindings }) = got.line else {
            return places;
        };
        note(ids, &mut places, id, at);
        if k + 1 == count {
            return places;
        }
        at = past(s, got.next, bindings.unwrap_or(0));
    }
    places
}

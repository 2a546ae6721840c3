// A sheet, read once: admitted, with the index of its nodes, or refused at its first bad line.
#![tactic(auto)]

ghost use Rattle.std.specs.Prelude.{◌≡◌, [], ◌-◌, ◌%◌, ◌^◌, ◌≤◌, ◌<◌, length, drop, take, set, MatchResult};
ghost use Rattle.row.specs.Rows.{rows, size};
ghost use Rattle.tree.specs.Read.{among, read_params, read_node, read_nodes, admitted};
ghost use Rattle.nodes.specs.Index.{index_size};
ghost use Rattle.sheet.specs.Admission.{answer_numbers, refusal_in, IndexOf};
ghost use Rattle.sheet.specs.Steps.{Room, with_id, groups_after, MarkRoom, with_mark, next_mark, RefusedAs};
ghost use Rattle.sheet.specs.Steps.{ParamsRead, Turned, FieldsRead, Ready, Begun, members_here, NodeRead, NodesRead, SheetRead};

use nodes::Entry;
use row::Line;
use std::marker::Model;
use terms::{Refusal, limits};
use tree::RefusedRow;

// The greatest size of a sheet in bytes.
const MOST_BYTES: usize = 65536;

// A refusal of a sheet: why, and its line and column, 0 where it names none.
#[derive(Clone, Copy)]
pub struct Refused {
    pub refusal: Refusal,
    pub line: usize,
    pub column: usize,
}

// The P rows of a node: where the row after them stands, how many they are, and the place of the next mark.
#[derive(Clone, Copy)]
struct ParamsRun {
    next: usize,
    count: u64,
    marks: usize,
}

// How many nodes were read, and the place of the next mark.
#[derive(Clone, Copy)]
struct Held {
    nodes: usize,
    marks: usize,
}

// A node: its id, where the row after it stands, and the place of the next mark.
#[derive(Clone, Copy)]
struct NodeRun {
    id: u64,
    next: usize,
    marks: usize,
}

// The ids of the groups that were read: the first `count` of `ids`, each with its flag, at its remainder by 2048. A clause sees
// how many more there is room for, and these ids. The flags are lent, as an array here is copied once more, which makes
// admission of a sheet of 1,024 bytes take 1.25 times as many instructions; and lent as a slice, as the borrow checker does not
// cover an element of an array behind a `&mut` of `&self`.
#[derive(Drop)]
struct Groups<'a> {
    ids: &'a mut [u64],
    flags: &'a mut [u8],
    count: usize,
}

impl<'a> Model for Groups<'a> {
    ghost use Rattle.std.specs.Prelude.{◌≡◌, List, ℕ, ◌-◌, ◌≤◌, length, take};
    ghost use Rattle.sheet.specs.Steps.{Flagged};

    ghost Value = { ℕ × List ℕ };

    ghost view = { λ g. (length g.ids.now - g.count, take g.count g.ids.now) };

    ghost invariant = { λ g. (g.count ≤ length g.ids.now)
        × (length g.flags.now ≡ 2048)
        × Flagged g.flags.now (take g.count g.ids.now) };
}

impl Groups<'_> {
    // Whether an id is one of them. Where its flag is 0 it is not, and no search is made.
    fn has(&self, id: u64) -> bool
        ensures { result ≡ among id self.now.1 }
    {
        self.flags[(id % 2048) as usize] != 0 && seen(&self.ids[..self.count], id)
    }

    // Puts an id after them, with its flag.
    fn put(&mut self, id: u64)
        requires { 0 < self.old.0 }
        ensures { self.new ≡ with_id self.old id }
    {
        self.ids[self.count] = id;
        flag(self.flags, id);
        self.count += 1;
    }
}

// Sets the flag of a group id, and no other.
fn flag(flags: &mut [u8], id: u64)
    requires { length flags.old ≡ 2048 }
    ensures { flags.new ≡ set flags.old (id % 2048) 1 }
{
    flags[(id % 2048) as usize] = 1;
}

// Whether an id is one of some. They are searched 32 at a time, which the compiler writes out without a loop: of a sheet of
// 1,420 groups with random ids, admission takes 1.15 times as many instructions with `nodes::among` over all of them, and 1.88
// times as many with `contains`; where all have one flag, 1.24 and 2.44 times as many.
fn seen(ids: &[u64], id: u64) -> bool
    ensures { result ≡ among id ids.now }
{
    let (parts, rest) = ids.as_chunks::<32>();
    parts.iter().any(|part| nodes::among(part, id)) || nodes::among(rest, id)
}

// Puts the mark of the P row with a number, from 0, that stands at a position: each 16th row of a node but the first has one.
// It answers with the place of the next mark.
fn mark(index: &mut [u64], place: usize, number: u64, at: usize) -> usize
    requires { place < 2 ^ 64 - 1 }
    ensures { (index.new ≡ with_mark index.old place number at) × (result ≡ next_mark place number) }
{
    if 0 < number && number % nodes::MARK_EVERY == 0 {
        nodes::store(index, place, at as u64);
        return place + 1;
    }
    place
}

// The P rows that stand there. Their marks are put from a place of the index on.
fn params(s: &[u8], index: &mut [u64], from: usize, marks: usize) -> Result<ParamsRun, RefusedRow>
    requires { MarkRoom (length s.now) marks (size (rows (drop from s.now))) }
    ensures { MatchResult result
        (ParamsRead s.now (rows (drop from s.now)) marks index.old index.new)
        (RefusedAs s.now (read_params (rows (drop from s.now)))) }
{
    let mut at = from;
    let mut count: u64 = 0;
    let mut place = marks;
    // A row says itself where the next one begins, so no range counts them.
    while let Some(next) = row::past_parameter(s, at) {
        place = mark(index, place, count, at);
        at = next;
        count += 1;
    }
    let row = row::next(s, at);
    let next = tree::end_at(row.line, b'P', at)?;
    Ok(ParamsRun {
        next,
        count,
        marks: place,
    })
}

// Where the row after one field stands, or none where no F or G row stands: after an F row with what belongs to it, or after a
// G row, whose id is put after the others. A bad F or G row is refused by its fault.
fn field(s: &[u8], at: usize, groups: &mut Groups<'_>) -> Result<Option<usize>, RefusedRow>
    requires { Room groups.old.0 (rows (drop at s.now)) }
    ensures { MatchResult result
        (Turned s.now (rows (drop at s.now)) groups.old.1 groups.new)
        (RefusedAs s.now (groups_after groups.old.1 (rows (drop at s.now)))) }
{
    let row = row::next(s, at);
    match row.line {
        Ok(Line::Field { explicit, .. }) => {
            let next = tree::slot(s, row.next, explicit)?;
            Ok(Some(next))
        }
        Ok(Line::Group { id, .. }) => {
            if groups.has(id) {
                return Err(RefusedRow {
                    refusal: Refusal::SecondId,
                    column: 2,
                    at,
                });
            }
            groups.put(id);
            Ok(Some(row.next))
        }
        line => {
            let end = tree::end_at(line, b'F', at)?;
            tree::end_at(line, b'G', end)?;
            Ok(None)
        }
    }
}

// Where the row after the fields of a node stands: F rows with what belongs to them, and G rows, whose ids are put after those
// of all G rows before. A G row has 44 bytes or more, so that there is room for all of them where there is room for one in each
// 44 bytes.
fn fields(s: &[u8], from: usize, groups: &mut Groups<'_>) -> Result<usize, RefusedRow>
    requires { Room groups.old.0 (rows (drop from s.now)) }
    ensures { MatchResult result
        (FieldsRead s.now (rows (drop from s.now)) groups.old.1 groups.new)
        (RefusedAs s.now (groups_after groups.old.1 (rows (drop from s.now)))) }
{
    let mut at = from;
    // A field says itself where the next one begins, so no range counts them.
    while let Some(next) = field(s, at, groups)? {
        at = next;
    }
    Ok(at)
}

// What belongs to an N row, whose numbers `node` has: its P rows, its F and G rows. Its entry, with the count of the P rows and
// the position of the fields, is put after those of the nodes before.
fn members(
    s: &[u8],
    index: &mut [u64],
    groups: &mut Groups<'_>,
    held: Held,
    node: Entry,
) -> Result<NodeRun, RefusedRow>
    requires { Ready s.now node.params groups.old.0 held × Begun s.now held node }
    ensures { MatchResult result
        (NodeRead s.now held groups.old.1 index.old (members_here s.now node groups.old.1) groups.new index.new)
        (RefusedAs s.now (members_here s.now node groups.old.1)) }
{
    let listed = params(s, index, node.params, held.marks)?;
    let next = fields(s, listed.next, groups)?;
    let entry = Entry {
        count: listed.count,
        fields: listed.next,
        ..node
    };
    nodes::put(index, 1 + 12 * held.nodes, entry);
    Ok(NodeRun {
        id: node.id,
        next,
        marks: listed.marks,
    })
}

// One node: an N row whose id is none of the first `held.nodes` of `ids`, and what belongs to it.
fn node(
    s: &[u8],
    index: &mut [u64],
    at: usize,
    ids: &[u64; limits::NODES],
    groups: &mut Groups<'_>,
    held: Held,
) -> Result<NodeRun, RefusedRow>
    requires { Ready s.now at groups.old.0 held }
    ensures { MatchResult result
        (NodeRead s.now held groups.old.1 index.old
        (read_node (take held.nodes ids.now) groups.old.1 (rows (drop at s.now))) groups.new index.new)
        (RefusedAs s.now (read_node (take held.nodes ids.now) groups.old.1 (rows (drop at s.now)))) }
{
    let row = row::next(s, at);
    let Ok(
        Line::Node {
            id,
            parent,
            scope,
            is_struct,
            generic,
            tag_count,
            tag_offset,
        },
    ) = row.line
    else {
        return Err(tree::wrong_at(row.line, b'N', at));
    };
    if seen(&ids[..held.nodes], id) {
        return Err(RefusedRow {
            refusal: Refusal::SecondId,
            column: 2,
            at,
        });
    }
    let node = Entry {
        id,
        parent,
        scope,
        is_struct,
        generic,
        tag_count,
        tag_offset,
        at,
        params: row.next,
        count: 0,
        marks: held.marks,
        fields: 0,
    };
    members(s, index, groups, held, node)
}

// Nodes up to the end of the sheet, 1 to 64 of them, with room for the ids of their groups. Their entries, marks and count are
// put into the index.
fn nodes(s: &[u8], index: &mut [u64], from: usize, groups: &mut [u64]) -> Result<(), RefusedRow>
    requires { Room (length groups.old) (rows (drop from s.now)) × (size (rows (drop from s.now)) ≤ 65536) }
    ensures { NodesRead s.now result index.new (read_nodes 64 [] [] (rows (drop from s.now))) }
{
    let mut ids = [0u64; limits::NODES];
    let mut flags = [0u8; 2048];
    let mut groups = Groups {
        ids: groups,
        flags: &mut flags,
        count: 0,
    };
    let mut marks = nodes::first_mark(s.len());
    let mut at = from;
    for count in 0..limits::NODES {
        let held = Held {
            nodes: count,
            marks,
        };
        let one = node(s, index, at, &ids, &mut groups, held)?;
        ids[count] = one.id;
        if s.len() <= one.next {
            nodes::store(index, 0, count as u64 + 1);
            return Ok(());
        }
        marks = one.marks;
        at = one.next;
    }
    Err(RefusedRow {
        refusal: Refusal::BadLine,
        column: 1,
        at,
    })
}

// The nodes of a sheet, with room for N group ids.
fn nodes_with<const N: usize>(s: &[u8], index: &mut [u64], from: usize) -> Result<(), RefusedRow>
    requires { (N < 2 ^ 60) × Room N (rows (drop from s.now)) × (size (rows (drop from s.now)) ≤ 65536) }
    ensures { NodesRead s.now result index.new (read_nodes 64 [] [] (rows (drop from s.now))) }
{
    let mut groups = [0u64; N];
    nodes(s, index, from, &mut groups)
}

// The nodes from a position on. In a sheet of at most 8,192 bytes, clearing the room that a longer one needs would take longer
// than reading it.
fn all_nodes(s: &[u8], index: &mut [u64], from: usize) -> Result<(), RefusedRow>
    requires { length s.now ≤ 65536 }
    ensures { NodesRead s.now result index.new (read_nodes 64 [] [] (rows (drop from s.now))) }
{
    if s.len() <= 8192 {
        return nodes_with::<186>(s, index, from);
    }
    nodes_with::<1489>(s, index, from)
}

// One R row, then the nodes.
fn read(s: &[u8], index: &mut [u64]) -> Result<(), RefusedRow>
    requires { length s.now ≤ 65536 }
    ensures { SheetRead s.now result index.new }
{
    let row = row::next(s, 0);
    let Ok(Line::Root) = row.line else {
        return Err(tree::wrong_at(row.line, b'R', 0));
    };
    all_nodes(s, index, row.next)
}

// Whether a sheet is admitted: one R row, then the nodes. Their index is put into `index`, if there is room for that of a sheet
// of this length; `nodes::INDEX_SIZE` numbers are room enough for any sheet.
pub fn admit(s: &[u8], index: &mut [u64]) -> Result<(), Refused>
    ensures answer { answer_numbers result ≡ refusal_in (admitted s.now) }
    ensures index { index_size (length s.now) ≤ length index.old
        → IndexOf s.now (admitted s.now) index.new }
{
    if MOST_BYTES < s.len() {
        return Err(Refused {
            refusal: Refusal::SheetTooLong,
            line: 0,
            column: 0,
        });
    }
    read(s, index).map_err(|refused| Refused {
        refusal: refused.refusal,
        line: row::line_number(s, refused.at),
        column: refused.column,
    })
}

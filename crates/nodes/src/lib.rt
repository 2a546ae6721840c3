// The index of a sheet's nodes: one flat slice of numbers that the caller lends. Admission fills it, and every request finds
// its nodes there: what their N rows say, and where their P rows and fields begin.
#![tactic(auto)]

ghost use Rattle.std.specs.Prelude.{◌≡◌, List, ℕ, ◌+◌, ◌≤◌, length, drop, set};
ghost use Rattle.std.specs.List.{list_any};
ghost use Rattle.row.specs.Rows.{rows};
ghost use Rattle.row.specs.Span.{text_between};
ghost use Rattle.tree.specs.Tree.{Node};
ghost use Rattle.nodes.specs.Index.{first_mark, index_size, entry_at, numbers_of, with_entry, lookup, entry_with, rows_after};
ghost use Rattle.nodes.specs.Index.{EntryIs, NameAt, rows_there, parameter_rows, IsSource};

use terms::limits;

// How many numbers are room enough for the index of any sheet: its count, 64 entries of 12, and 1,024 marks.
pub const INDEX_SIZE: usize = 1793;

// Every 16th P row of a node but the first has a mark in the index, its position.
pub const MARK_EVERY: u64 = 16;

// The fewest bytes of so many P rows, each of which has 4 or more.
const MARK_BYTES: usize = 4 * MARK_EVERY as usize;

// How many numbers an entry has in the index.
const ENTRY_SIZE: usize = 12;

// The fewest bytes of a node's N row.
const NODE_BYTES: usize = 151;

// The most bytes of a sheet that are read.
const SHEET_BYTES: usize = 65536;

// What the index holds of a node: the numbers of its N row, where that row stands, where its P rows begin, how many they are,
// where in the index their marks begin, and where its fields begin. Its flags are numbers, as the index and C hold them.
#[derive(Clone, Copy)]
pub struct Entry {
    pub id: u64,
    pub parent: u64,
    pub scope: u64,
    pub is_struct: u64,
    pub generic: u64,
    pub tag_count: u64,
    pub tag_offset: u64,
    pub at: usize,
    pub params: usize,
    pub count: u64,
    pub marks: usize,
    pub fields: usize,
}

// A sheet whose nodes have an index: its root, its bytes, and the index.
#[derive(Clone, Copy)]
pub struct Source<'a> {
    pub root: &'a [u8],
    pub bytes: &'a [u8],
    pub index: &'a [u64],
}

// Where the marks begin in the index of a sheet of so many bytes: after the count and an entry for each node it may have.
pub fn first_mark(size: usize) -> usize
    ensures { result ≡ first_mark size }
{
    1 + ENTRY_SIZE * limits::NODES.min(size / NODE_BYTES)
}

// How many numbers the index of a sheet of so many bytes has: from the place of the first mark on one for each 64 bytes.
pub fn index_size(size: usize) -> usize
    ensures { result ≡ index_size size }
{
    first_mark(size) + SHEET_BYTES.min(size) / MARK_BYTES
}

impl Entry {
    // The entry with these numbers. As of a slot's, no `From`, which would be public.
    fn from_numbers(numbers: &[u64; ENTRY_SIZE]) -> Entry
        ensures { result ≡ entry_at numbers.now 0 }
    {
        let [
            id,
            parent,
            scope,
            is_struct,
            generic,
            tag_count,
            tag_offset,
            at,
            params,
            count,
            marks,
            fields,
        ] = *numbers;
        Entry {
            id,
            parent,
            scope,
            is_struct,
            generic,
            tag_count,
            tag_offset,
            at: at as usize,
            params: params as usize,
            count,
            marks: marks as usize,
            fields: fields as usize,
        }
    }

    // Its numbers, in the order of the index.
    fn numbers(self) -> [u64; ENTRY_SIZE]
        ensures { result ≡ numbers_of self }
    {
        [
            self.id,
            self.parent,
            self.scope,
            self.is_struct,
            self.generic,
            self.tag_count,
            self.tag_offset,
            self.at as u64,
            self.params as u64,
            self.count,
            self.marks as u64,
            self.fields as u64,
        ]
    }
}

// Whether an item is one of these. All are compared, without a branch, so that the compiler compares several at once and writes a
// search of 32 out without a loop. With `contains`, admission of a sheet of groups of one mark takes 2.2 times as many
// instructions. Of numbers it says what the `among` of tree's Read does, by `among-any` of this crate's Laws.
pub fn among<T: Copy + PartialEq>(items: &[T], item: T) -> bool
    ensures { result ≡ list_any (λ other. T.eq other item) items.now }
{
    let mut found = false;
    for &other in items {
        found |= other == item;
    }
    found
}

// Puts a number at a place of the index, if it has such a place.
pub fn store(index: &mut [u64], place: usize, number: u64)
    ensures { index.new ≡ set index.old place number }
{
    if place < index.len() {
        index[place] = number;
    }
}

// Puts an entry's numbers from a place of the index on, if they fit there.
pub fn put(index: &mut [u64], place: usize, entry: Entry)
    ensures { index.new ≡ with_entry index.old place entry }
{
    if ENTRY_SIZE <= index.len() && place <= index.len() - ENTRY_SIZE {
        index[place..place + ENTRY_SIZE].copy_from_slice(&entry.numbers());
    }
}

// The position so many rows further on.
fn skip(s: &[u8], from: usize, count: u64) -> usize
    ensures { rows (drop result s.now) ≡ rows_after count (rows (drop from s.now)) }
{
    let mut at = from;
    for _ in 0..count {
        at = row::row_end(s, at);
    }
    at
}

// The node with an id, by the index alone: the sheet's root is not sought for it.
pub fn find(index: &[u64], id: u64) -> Option<Entry>
    ensures { result ≡ lookup index.now id }
{
    let (&count, mut entries) = index.split_first()?;
    for _ in 0..count {
        let (numbers, rest) = entries.split_first_chunk::<ENTRY_SIZE>()?;
        if numbers[0] == id {
            return Some(Entry::from_numbers(numbers));
        }
        entries = rest;
    }
    None
}

// The node with a number, from 0, in the sheet's order, by the index alone. There are at most 64.
pub fn nth(index: &[u64], k: usize) -> Option<Entry>
    ensures { result ≡ entry_with index.now k }
{
    let (&count, entries) = index.split_first()?;
    if count.min(limits::NODES as u64) <= k as u64 {
        return None;
    }
    let numbers = entries.get(ENTRY_SIZE * k..)?.first_chunk::<ENTRY_SIZE>()?;
    Some(Entry::from_numbers(numbers))
}

impl<'a> Source<'a> {
    // A sheet by its bytes and its index: its root is the text of its first row.
    pub fn new(bytes: &'a [u8], index: &'a [u64]) -> Source<'a>
        ensures { IsSource bytes.now index.now result }
    {
        Source {
            root: row::text(bytes, 0),
            bytes,
            index,
        }
    }

    // The node with an id.
    pub fn find(&self, id: u64) -> Option<Entry>
        ensures { result ≡ lookup self.now.index.now id }
    {
        find(self.index, id)
    }

    // The node with a number, from 0, in the sheet's order. There are at most 64.
    pub fn nth(&self, k: usize) -> Option<Entry>
        ensures { result ≡ entry_with self.now.index.now k }
    {
        nth(self.index, k)
    }

    // The module of a node: the sheet's own bytes.
    pub fn module(&self, node: Entry) -> &'a [u8]
        ensures text { (index : List ℕ) (n : Node) → EntryIs self.now.bytes.now index node n → result.now ≡ n.the_mod }
        ensures is { result.now ≡ text_between self.now.bytes.now node.at node.params }
    {
        row::text_before(self.bytes, node.at, node.params)
    }

    // The position of the P row of a node's parameter with this number, from 0. It is sought from the last mark before it.
    pub fn parameter(&self, node: Entry, k: u64) -> Option<usize>
        ensures name { (n : Node) → EntryIs self.now.bytes.now self.now.index.now node n
            → NameAt self.now.bytes.now result k n.params }
        ensures is { rows_there self.now.bytes.now result ≡ parameter_rows self.now.bytes.now self.now.index.now node k }
    {
        if node.count <= k {
            return None;
        }
        if k < MARK_EVERY {
            return Some(skip(self.bytes, node.params, k));
        }
        let marks = self.index.get(node.marks..)?;
        let &mark = marks.get((k / MARK_EVERY) as usize - 1)?;
        Some(skip(self.bytes, mark as usize, k % MARK_EVERY))
    }
}

// The verdicts of a sheet as a text, in one walk over its fields: the lines of disagreeing slots go into one buffer and those of
// the others into another, so that the report is the first buffer's text and then the second's.
ghost use Rattle.std.specs.Prelude.{◌≡◌, [], ◌∷◌};
ghost use Rattle.text.specs.Text.{state_at, Wrote};
ghost use Rattle.terms.specs.Refusals.{number};
ghost use Rattle.tree.specs.Tree.{Node};
ghost use Rattle.tree.specs.Read.{admitted};
ghost use Rattle.nodes.specs.Index.{EntryIs, InSource};
ghost use Rattle.requests.specs.Told.{OfField};
ghost use Rattle.verdict.specs.Report.{disagrees, verdict_text, judged, node_judged, all_judged, tally};
ghost use Rattle.verdict.specs.Report.{refusal_text, first_part, second_part};
ghost use Rattle.verdict.specs.Listing.{Listing, Sorts, none_sorted};

use crate::{Verdict, verdict_of};
use field::Field;
use nodes::{Entry, Source};
use requests::Located;
use sheet::Refused;
use terms::limits;
use text::Text;

// Slots that were listed: where their lines end in the buffer, and how many they are. The count stops at the largest usize, as
// that of bytes does.
#[derive(Clone, Copy)]
struct Listed {
    text: Text,
    count: usize,
}

// The disagreeing slots so far, and the others.
#[derive(Clone, Copy)]
struct Sorted {
    disagreeing: Listed,
    others: Listed,
}

// Where the two parts of a report end, each in its buffer.
#[derive(Clone, Copy)]
pub struct Report {
    pub first: Text,
    pub second: Text,
}

impl Verdict {
    // Whether setter and getters are generated, and a value is not read as it was written.
    fn disagrees(self) -> bool
        ensures { result ≡ disagrees self }
    {
        match self {
            Verdict::SignFlipped | Verdict::CombinedWithDefault => true,
            Verdict::Agree | Verdict::NotBothGenerated => false,
        }
    }

    // What a line says.
    fn words(self) -> &'static [u8]
        ensures { result.now ≡ verdict_text self }
    {
        match self {
            Verdict::Agree => b"agree",
            Verdict::SignFlipped => b"sign flipped",
            Verdict::CombinedWithDefault => b"combined with the default",
            Verdict::NotBothGenerated => b"not both generated",
        }
    }
}

impl Listed {
    // A further slot, by the id of its node and its name.
    fn slot(self, id: u64, name: &[u8], verdict: Verdict, buf: &mut [u8]) -> Listed
        ensures { Listing (record { node = id; name = name.now; verdict = verdict } ∷ []) buf.old self buf.new result }
    {
        let t = self.text.bytes(buf, b"node ");
        let t = t.number(buf, id);
        let t = t.bytes(buf, b" ");
        let t = t.bytes(buf, name);
        let t = t.bytes(buf, b": ");
        let t = t.bytes(buf, verdict.words());
        let t = t.bytes(buf, b"\n");
        Listed {
            text: t,
            count: self.count.saturating_add(1),
        }
    }
}

// A field that was read, listed if it has a verdict.
fn list_field(
    source: &Source<'_>,
    node: Entry,
    field: Field,
    sorted: Sorted,
    first: &mut [u8],
    second: &mut [u8],
) -> Sorted
    ensures { OfField source.now node.tag_offset field (λ sheet at. at.0.id ≡ node.id
        → Sorts (judged sheet at.0 at.1) first.old second.old sorted first.new second.new result) }
{
    let located = Located {
        tag: node.tag_offset,
        field,
    };
    let (Some(verdict), Field::Slot(slot)) = (verdict_of(source, &located), field) else {
        return sorted;
    };
    let name = slot.name(source.bytes);
    if verdict.disagrees() {
        return Sorted {
            disagreeing: sorted.disagreeing.slot(node.id, name, verdict, first),
            ..sorted
        };
    }
    Sorted {
        others: sorted.others.slot(node.id, name, verdict, second),
        ..sorted
    }
}

// The fields of a node.
fn list_node(
    source: &Source<'_>,
    node: Entry,
    sorted: Sorted,
    first: &mut [u8],
    second: &mut [u8],
) -> Sorted
    ensures { InSource source.now (λ sheet. (n : Node)
        → EntryIs source.now.bytes.now source.now.index.now node n
        → Sorts (node_judged sheet n) first.old second.old sorted first.new second.new result) }
{
    let mut sorted = sorted;
    let mut at = node.fields;
    // A field says itself where the next one begins, so no range counts them.
    while let Some(field) = field::read(source.bytes, at) {
        sorted = list_field(source, node, field, sorted, first, second);
        at = field.next();
    }
    sorted
}

// The fields of all nodes.
fn list_sheet(source: &Source<'_>, first: &mut [u8], second: &mut [u8]) -> Sorted
    ensures { InSource source.now (λ sheet.
        Sorts (all_judged sheet) first.old second.old none_sorted first.new second.new result) }
{
    let none = Listed {
        text: Text::at(0),
        count: 0,
    };
    let mut sorted = Sorted {
        disagreeing: none,
        others: none,
    };
    for k in 0..limits::NODES {
        let Some(node) = source.nth(k) else {
            return sorted;
        };
        sorted = list_node(source, node, sorted, first, second);
    }
    sorted
}

// How many slots there are, and how many of them disagree.
fn tally(slots: usize, disagree: usize, t: Text, buf: &mut [u8]) -> Text
    ensures { Wrote buf.old t (tally slots disagree) buf.new result }
{
    let t = t.number(buf, slots as u64);
    let t = t.bytes(buf, b" slots, ");
    let t = t.number(buf, disagree as u64);
    t.bytes(buf, b" disagree\n")
}

// What is said of a refused sheet.
fn refusal(refused: Refused, buf: &mut [u8]) -> Text
    ensures { Wrote buf.old (state_at 0)
        (refusal_text (number refused.refusal) refused.line refused.column) buf.new result }
{
    let t = Text::at(0).bytes(buf, b"refused ");
    let t = t.number(buf, refused.refusal.number());
    let t = t.bytes(buf, b" line ");
    let t = t.number(buf, refused.line as u64);
    let t = t.bytes(buf, b" column ");
    let t = t.number(buf, refused.column as u64);
    t.bytes(buf, b"\n")
}

// The report of a sheet: its first part from the start of one buffer on, and its second from the start of the other. Bytes past
// the end of a buffer are counted and not written.
pub fn write_report(s: &[u8], first: &mut [u8], second: &mut [u8]) -> Report
    ensures first { Wrote first.old (state_at 0) (first_part (admitted s.now)) first.new result.first }
    ensures second { Wrote second.old (state_at 0) (second_part (admitted s.now)) second.new result.second }
{
    let mut index = [0u64; nodes::INDEX_SIZE];
    if let Err(refused) = sheet::admit(s, &mut index) {
        return Report {
            first: Text::at(0),
            second: refusal(refused, second),
        };
    }
    let sorted = list_sheet(&Source::new(s, &index), first, second);
    let Sorted {
        disagreeing,
        others,
    } = sorted;
    let slots = disagreeing.count.saturating_add(others.count);
    Report {
        first: disagreeing.text,
        second: tally(slots, disagreeing.count, others.text, second),
    }
}

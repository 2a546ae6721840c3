// What demand 3 says of a slot's present setter and getters: whether a value that the setter writes is the value that the getters
// read.
#![tactic(auto)]

mod report;

ghost use Rattle.std.specs.Prelude.{◌≡◌};
ghost use Rattle.terms.specs.Kinds.{number_of};
ghost use Rattle.requests.specs.Told.{OfField};
ghost use Rattle.verdict.specs.Verdict.{is_generated, has_bits, masks_verdict, verdict_of};
ghost use Rattle.verdict.specs.Told.{VerdictTold};

use field::{Field, Slot};
use nodes::Source;
pub use report::{Report, write_report};
use requests::{Accessor, Located};
use terms::{Kind, Refusal};

// The bits of -0.0, as a Float32 and as a Float64: the sign alone.
const NEGATIVE_ZERO_32: u64 = 0x8000_0000;

const NEGATIVE_ZERO_64: u64 = 0x8000_0000_0000_0000;

// What becomes of a value that is set and then read: it is read as it was; a default of -0.0 flips its sign; an enum's default
// other than 0 without its flag is combined with it; or setter or getters are refused.
#[derive(Clone, Copy)]
pub enum Verdict {
    Agree,
    SignFlipped,
    CombinedWithDefault,
    NotBothGenerated,
}

// Whether a slot of this kind has bits: a Bool, a number or an enum.
fn has_bits(kind: Kind) -> bool
    ensures { result ≡ has_bits (number_of kind) }
{
    match kind {
        Kind::Void => false,
        Kind::Enum => true,
        _ => kind.is_primitive(),
    }
}

// Whether an accessor of a field that was read is generated: nothing is written.
fn is_generated(source: &Source<'_>, located: &Located, accessor: Accessor) -> bool
    ensures { OfField source.now located.now.tag located.now.field
        (λ sheet at. result ≡ is_generated sheet at accessor) }
{
    requests::measure(source, located, accessor, 0).is_ok()
}

// Setter and getters of a slot where they are generated: the present setter's mask is none for -0.0, and none for an enum's
// default without its flag, while the getters mask with any default whose bits are not all zero.
#[tactic(auto, unfolding(crate::specs::Verdict::masks_verdict))]
fn masks_verdict(slot: Slot) -> Verdict
    ensures { result ≡ masks_verdict (number_of slot.kind) slot.explicit slot.bits }
{
    match slot.kind {
        Kind::Float32 if slot.bits == NEGATIVE_ZERO_32 => Verdict::SignFlipped,
        Kind::Float64 if slot.bits == NEGATIVE_ZERO_64 => Verdict::SignFlipped,
        Kind::Enum if slot.explicit == 0 && slot.bits != 0 => Verdict::CombinedWithDefault,
        _ => Verdict::Agree,
    }
}

// The verdict of a field that was read; none of a group, nor of a slot without bits. The getters of a slot with bits are
// generated or refused alike, so that one of them is measured.
pub fn verdict_of(source: &Source<'_>, located: &Located) -> Option<Verdict>
    ensures { OfField source.now located.now.tag located.now.field
        (λ sheet at. result ≡ verdict_of sheet at) }
{
    let Field::Slot(slot) = located.field else {
        return None;
    };
    if !has_bits(slot.kind) {
        return None;
    }
    let getter = Accessor::Getter {
        is_reader: true,
        is_fn: false,
    };
    if !is_generated(source, located, Accessor::Setter) || !is_generated(source, located, getter) {
        return Some(Verdict::NotBothGenerated);
    }
    Some(masks_verdict(slot))
}

// The verdict of a field that was read, in the node with a number, from 0; 15 where there is no such node, no field or no verdict
// of it. There are at most 64 nodes.
pub fn verdict_in(
    source: &Source<'_>,
    node: usize,
    field: Option<Field>,
) -> Result<Verdict, Refusal>
    ensures { VerdictTold source.now node field result }
{
    let (Some(entry), Some(field)) = (source.nth(node), field) else {
        return Err(Refusal::NotThere);
    };
    let located = Located {
        tag: entry.tag_offset,
        field,
    };
    verdict_of(source, &located).ok_or(Refusal::NotThere)
}

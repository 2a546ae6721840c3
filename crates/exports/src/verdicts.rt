// The boundary's answer to the question of demand 3: whether a slot's present setter and its getters agree.

ghost use Rattle.std.specs.Prelude.{◌≡◌};
ghost use Rattle.exports.specs.Boundary.{VerdictNumbered, verdict_number};

use nodes::Source;
use verdict::Verdict;

// A verdict's number.
fn number(verdict: Verdict) -> u64
    ensures { result ≡ verdict_number verdict }
{
    match verdict {
        Verdict::Agree => 0,
        Verdict::SignFlipped => 1,
        Verdict::CombinedWithDefault => 2,
        Verdict::NotBothGenerated => 3,
    }
}

// Whether the present setter and the getters of a field agree, by the field's numbers, as `kitlubas_field` puts them, and its
// node's number, from 0. 0, and `verdict` becomes 0 where they agree, 1 where the sign is flipped, 2 where the value is combined
// with the default, 3 where not both are generated. 15 where there is no such node, no field, or no slot with bits, and
// `verdict` becomes 0, which is then no verdict. There are at most 64 nodes.
pub fn kitlubas_verdict(
    s: &[u8],
    index: &[u64],
    node: usize,
    field: &[u64],
    verdict: &mut u64,
) -> u64
    ensures { VerdictNumbered s.now index.now node field.now result verdict.new }
{
    let source = Source::new(s, index);
    match verdict::verdict_in(&source, node, field::get(field)) {
        Ok(v) => {
            *verdict = number(v);
            0
        }
        Err(refusal) => {
            *verdict = 0;
            refusal.number()
        }
    }
}

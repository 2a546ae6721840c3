// What zeroing texts do to a record, from the bytes that are answered. The definitions stand in specs/ and the laws in proofs/;
// there is nothing to run.
#![tactic(auto)]

ghost use Rattle.agreement_zeroing.specs.Zeroing.{ZeroingHolds};

// Makes the claim a promise of this crate: after a group's zeroing each slot with bits inside it reads as its default, each
// pointer slot tests absent, and what no line touches stays.
pub fn claims()
    ensures { ZeroingHolds }
{}

// What the paired setter of request N9 does to a record, from the bytes that are answered, and that a verdict is what demand 3
// says. The definitions stand in specs/ and the laws in proofs/; there is nothing to run.
#![tactic(auto)]

ghost use Rattle.agreement_paired.specs.Paired.{PairedGivenHolds, PairedSetHolds, PairedMeansHolds, PairedSetGetHolds};
ghost use Rattle.agreement_paired.specs.Paired.{SameTextHolds, OtherTextHolds, SameRefusalHolds};
ghost use Rattle.agreement_paired.specs.Verdicts.{VerdictReadsHolds, DisagreeHolds, BothHolds, NoVerdictHolds};

// Makes the claims a promise of this crate: that the paired setter is generated where a getter is, and that the getter reads the
// value that it was given; where its text is the present setter's, and that it is another's in the three cases; that a verdict is
// what demand 3 says.
pub fn claims()
    ensures paired { PairedGivenHolds × PairedSetHolds × PairedMeansHolds × PairedSetGetHolds }
    ensures texts { SameTextHolds × OtherTextHolds × SameRefusalHolds }
    ensures verdicts { VerdictReadsHolds × DisagreeHolds × BothHolds × NoVerdictHolds }
{}

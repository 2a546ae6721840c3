// Demand 3 from the answered bytes of the public entry: what the texts of one slot's accessors do to a record. The statements
// stand in specs/ and the laws in proofs/; there is nothing to run.
#![tactic(auto)]

ghost use Rattle.agreement.specs.Claims.{AnsweredHolds, RanHolds, GetHolds, DefaultHolds, OwnDefaultHolds, SetHolds};
ghost use Rattle.agreement.specs.Claims.{SetMeansHolds, NoMeaningHolds, SetGetHolds, VoidHolds, VoidMeansHolds};
ghost use Rattle.agreement.specs.Claims.{VoidSetHolds, HaserHolds, TagPastHolds, HaserPastHolds, NoHaserHolds};

// Makes the claims a promise of this crate: that the bytes which a caller holds are the request's text; a getter alone, past the
// end of a record too; a setter alone, and one after the other; the Void setter; hasers.
pub fn claims()
    ensures answered { AnsweredHolds × RanHolds }
    ensures slots { GetHolds × DefaultHolds × OwnDefaultHolds × SetHolds × SetMeansHolds × NoMeaningHolds
        × SetGetHolds }
    ensures voids { VoidHolds × VoidMeansHolds × VoidSetHolds }
    ensures hasers { HaserHolds × TagPastHolds × HaserPastHolds × NoHaserHolds }
{}

// What accessor texts do to a record. The definitions stand in specs/ and the laws in proofs/; there is nothing to run.
#![tactic(auto)]

ghost use Rattle.meaning.specs.Claims.{TextGetHolds, TextSetHolds, SetterMeansHolds, SetterLeavesHolds, TextVoidHolds};
ghost use Rattle.meaning.specs.Claims.{TextSetGetHolds, ExpectedHolds, TextVoidSetHolds, TextHaserHolds, TextZeroingHolds};

// Makes the claims a promise of this crate: a getter alone; a setter alone, where it has a meaning and what it leaves, that of a
// Void slot too; set and get, what is expected of the masks; hasers; zeroing.
pub fn claims()
    ensures { TextGetHolds × TextSetHolds × SetterMeansHolds × SetterLeavesHolds × TextVoidHolds
        × TextSetGetHolds × ExpectedHolds × TextVoidSetHolds × TextHaserHolds × TextZeroingHolds }
{}

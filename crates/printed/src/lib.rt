// What the reader and the printer of sheets promise each other.
#![tactic(auto)]

ghost use Rattle.printed.specs.Claims.{ReadsPrinted, PrintsRead};

// Makes the two laws a promise of this crate.
pub fn claims()
    ensures { ReadsPrinted × PrintsRead }
{}

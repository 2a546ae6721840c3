// The refusals of documents 01 and 02 by name, each with its number.
ghost use Rattle.std.specs.Prelude.{◌≡◌};
ghost use Rattle.terms.specs.Refusals.{number};

// Why a sheet, a request or a buffer is refused: 1 to 4, 16 and 17 are of a sheet's lines, 4 to 15 of a request, 21 and 22 of the
// buffer, 36 of the level of indentation.
#[derive(Clone, Copy)]
pub enum Refusal {
    SheetTooLong = 1,
    BadLine = 2,
    SecondId = 3,
    TooDeep = 4,
    NoNode = 5,
    ListOfAnyPointer = 6,
    ParameterLeaf = 7,
    BindingsDiffer = 8,
    OptionMisplaced = 9,
    GetterDefault = 10,
    SetterDefault = 11,
    EnumDefault = 12,
    ParameterIndex = 13,
    NoStruct = 14,
    NotThere = 15,
    BadNumber = 16,
    BadText = 17,
    FillPastEnd = 21,
    NoRoom = 22,
    LevelTooHigh = 36,
}

impl Refusal {
    // The refusal's number: a method, as a `From` would not say of what number it is.
    pub fn number(self) -> u64
        ensures { result ≡ number self }
    {
        self as u64
    }
}

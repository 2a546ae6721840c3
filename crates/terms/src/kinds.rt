// The kinds of a type, and of a default, with their numbers in T and V lines; and every other number, so that a number that a
// caller holds is a kind and comes back as it was.
ghost use Rattle.std.specs.Prelude.{◌≡◌, ◌≤◌};

// What a type, or a default, is. The order of the kinds is that of their numbers.
#[derive(Clone, Copy, PartialEq, Eq, PartialOrd, Ord)]
pub enum Kind {
    Void,
    Bool,
    Int8,
    Int16,
    Int32,
    Int64,
    Uint8,
    Uint16,
    Uint32,
    Uint64,
    Float32,
    Float64,
    Text,
    Data,
    List,
    Enum,
    Struct,
    Interface,
    AnyPointer,
    // A number that document 01 gives to no kind. No sheet has one.
    Unnamed(Unnamed),
}

// A number past the last kind's.
#[derive(Clone, Copy, PartialEq, Eq, PartialOrd, Ord)]
pub struct Unnamed {
    number: u64,
    pub ghost past: { 19 ≤ number },
}

impl Kind {
    ghost use Rattle.terms.specs.Kinds.{number_of, is_primitive};

    // The kind's number: a method, as a `From` would not say of what number it is.
    pub fn number(self) -> u64
        ensures { result ≡ number_of self }
    {
        match self {
            Kind::Void => 0,
            Kind::Bool => 1,
            Kind::Int8 => 2,
            Kind::Int16 => 3,
            Kind::Int32 => 4,
            Kind::Int64 => 5,
            Kind::Uint8 => 6,
            Kind::Uint16 => 7,
            Kind::Uint32 => 8,
            Kind::Uint64 => 9,
            Kind::Float32 => 10,
            Kind::Float64 => 11,
            Kind::Text => 12,
            Kind::Data => 13,
            Kind::List => 14,
            Kind::Enum => 15,
            Kind::Struct => 16,
            Kind::Interface => 17,
            Kind::AnyPointer => 18,
            Kind::Unnamed(unnamed) => unnamed.number,
        }
    }

    // Whether it is Void, a Bool or a number.
    pub fn is_primitive(self) -> bool
        ensures { result ≡ is_primitive (number_of self) }
    {
        self <= Kind::Float64
    }
}

impl From<u64> for Kind {
    ghost use Rattle.terms.specs.Kinds.{kind_numbered};

    ghost from_gives = { λ number kind. kind ≡ kind_numbered number };

    // The kind with a number.
    #[tactic(auto, unfolding(crate::specs::Kinds::kind_numbered))]
    fn from(number: u64) -> Kind {
        match number {
            0 => Kind::Void,
            1 => Kind::Bool,
            2 => Kind::Int8,
            3 => Kind::Int16,
            4 => Kind::Int32,
            5 => Kind::Int64,
            6 => Kind::Uint8,
            7 => Kind::Uint16,
            8 => Kind::Uint32,
            9 => Kind::Uint64,
            10 => Kind::Float32,
            11 => Kind::Float64,
            12 => Kind::Text,
            13 => Kind::Data,
            14 => Kind::List,
            15 => Kind::Enum,
            16 => Kind::Struct,
            17 => Kind::Interface,
            18 => Kind::AnyPointer,
            19.. => Kind::Unnamed(Unnamed { number }),
        }
    }
}

// `Leaf` of codegen_types.rs of capnpc and the texts that depend on it alone, and the names of the primitive types. The
// definitions of `type_string` and `do_branding` stand in specs/; the code that meets them is in the crates type_parts and
// type_string.
#![tactic(auto)]

ghost use Rattle.std.specs.Prelude.{◌++◌, ◌≡◌};
ghost use Rattle.terms.specs.Kinds.{number_of};
ghost use Rattle.text.specs.Bytes.{ascii};
ghost use Rattle.text.specs.Text.{Wrote};
ghost use Rattle.codegen_types.specs.Leaf.{bare_name, display, lifetime_comma, leaf_or_number};
ghost use Rattle.codegen_types.specs.TypeString.{element_leaf};
ghost use Rattle.codegen_types.specs.Primitive.{primitive_text};

use terms::Kind;
use text::Text;

// The lifetimes that are asked for: 'a and '_.
#[derive(Clone, Copy)]
pub enum Lifetime {
    A,
    Anonymous,
}

// What a type's text is asked for.
#[derive(Clone, Copy)]
pub enum Leaf {
    Reader(Lifetime),
    Builder(Lifetime),
    Owned,
    Client,
    Server,
    ServerDispatch,
    Pipeline,
    GetType,
}

// A number that no leaf has.
#[derive(Clone, Copy, Debug, PartialEq, Eq)]
pub struct NoLeaf(pub u64);

// A leaf's text, and what a list writes of it up to its element.
#[derive(Clone, Copy)]
struct Texts {
    display: &'static [u8],
    list: &'static [u8],
}

impl Leaf {
    // The texts of a leaf, each of them one constant, so that one call writes it.
    fn texts(self) -> Texts
        ensures display { result.display.now ≡ display self }
        ensures list { result.list.now ≡ bare_name self ++ ascii "<" ++ lifetime_comma self }
    {
        let (display, list): (&[u8], &[u8]) = match self {
            Leaf::Reader(Lifetime::A) => (b"Reader<'a>", b"Reader<'a,"),
            Leaf::Reader(Lifetime::Anonymous) => (b"Reader<'_>", b"Reader<'_,"),
            Leaf::Builder(Lifetime::A) => (b"Builder<'a>", b"Builder<'a,"),
            Leaf::Builder(Lifetime::Anonymous) => (b"Builder<'_>", b"Builder<'_,"),
            Leaf::Owned => (b"Owned", b"Owned<"),
            Leaf::Client => (b"Client", b"Client<"),
            Leaf::Server => (b"Server", b"Server<"),
            Leaf::ServerDispatch => (b"ServerDispatch", b"ServerDispatch<"),
            Leaf::Pipeline => (b"Pipeline", b"Pipeline<"),
            Leaf::GetType => (b"get_type", b"get_type<"),
        };
        Texts { display, list }
    }

    // Display for Leaf. It is none of std's, as the text goes into a lent buffer at a fill count.
    pub fn display(self, t: Text, buf: &mut [u8]) -> Text
        ensures { Wrote buf.old t (display self) buf.new result }
    {
        t.bytes(buf, self.texts().display)
    }

    // What a list writes of its leaf, up to its element: the bare name, `<` and the lifetime with its comma.
    pub fn list_leaf(self, t: Text, buf: &mut [u8]) -> Text
        ensures { Wrote buf.old t (bare_name self ++ ascii "<" ++ lifetime_comma self) buf.new result }
    {
        t.bytes(buf, self.texts().list)
    }
}

// The leaf with document 01's number: 0 to 3 are Reader and Builder, first with 'a, then with '_; 4 to 9 have no lifetime.
impl TryFrom<u64> for Leaf {
    type Error = NoLeaf;

    ghost try_from_gives = { λ number r. r ≡ leaf_or_number number };

    #[tactic(auto, unfolding(crate::specs::Leaf::leaf_of, nodes::specs::Index::nth))]
    fn try_from(number: u64) -> Result<Leaf, NoLeaf> {
        match number {
            0 => Ok(Leaf::Reader(Lifetime::A)),
            1 => Ok(Leaf::Builder(Lifetime::A)),
            2 => Ok(Leaf::Reader(Lifetime::Anonymous)),
            3 => Ok(Leaf::Builder(Lifetime::Anonymous)),
            4 => Ok(Leaf::Owned),
            5 => Ok(Leaf::Client),
            6 => Ok(Leaf::Server),
            7 => Ok(Leaf::ServerDispatch),
            8 => Ok(Leaf::Pipeline),
            9 => Ok(Leaf::GetType),
            _ => Err(NoLeaf(number)),
        }
    }
}

// The leaf that a list asks of an element of this kind.
pub fn element_leaf(kind: Kind) -> Leaf
    ensures { result ≡ element_leaf (number_of kind) }
{
    match kind {
        Kind::Interface => Leaf::Client,
        _ => Leaf::Owned,
    }
}

// The text of the type of this kind: Void to Float64; any other kind has none.
pub fn primitive(kind: Kind) -> &'static [u8]
    ensures { result.now ≡ primitive_text (number_of kind) }
{
    match kind {
        Kind::Void => b"()",
        Kind::Bool => b"bool",
        Kind::Int8 => b"i8",
        Kind::Int16 => b"i16",
        Kind::Int32 => b"i32",
        Kind::Int64 => b"i64",
        Kind::Uint8 => b"u8",
        Kind::Uint16 => b"u16",
        Kind::Uint32 => b"u32",
        Kind::Uint64 => b"u64",
        Kind::Float32 => b"f32",
        Kind::Float64 => b"f64",
        _ => b"",
    }
}

// The text of a primitive type.
pub fn type_name(kind: Kind, t: Text, buf: &mut [u8]) -> Text
    ensures { Wrote buf.old t (primitive_text (number_of kind)) buf.new result }
{
    t.bytes(buf, primitive(kind))
}

// The parts of a type's text that lie outside the cycle of `type_string` and `do_branding`.
#![tactic(auto)]

ghost use Rattle.std.specs.Prelude.{◌≡◌, ◌++◌, ◌+◌, ◌-◌, ◌*◌, min, length, drop, replicate};
ghost use Rattle.terms.specs.Kinds.{number_of};
ghost use Rattle.text.specs.Bytes.{Str, ascii};
ghost use Rattle.text.specs.Text.{Wrote, WroteSome};
ghost use Rattle.row.specs.Rows.{rows};
ghost use Rattle.tree.specs.Tree.{parameter};
ghost use Rattle.nodes.specs.Index.{names_of, ForAll, InSource};
ghost use Rattle.codegen_types.specs.Written.{Writes, Within};
ghost use Rattle.codegen_types.specs.Leaf.{display, bare_name, lifetime_comma};
ghost use Rattle.codegen_types.specs.TypeString.{plain_string, list_module};
ghost use Rattle.codegen_types.specs.TypeString.{any_owned, parameter_string, get_qualified_module, type_string};
ghost use Rattle.types.specs.Find.{ParamsAt};
ghost use Rattle.type_parts.specs.Parts.{Listed, Opened, closer};

use codegen_types::{Leaf, Lifetime};
use nodes::Source;
use terms::{Kind, Refusal};
use text::Text;

// The arguments of a brand while they are written: the text so far, and the byte before the next one, `<` or a comma.
#[derive(Clone, Copy)]
pub struct Arguments {
    pub text: Text,
    pub sep: u8,
}

// How many bytes stand behind the root in the text of a parameter that is not bound.
const ANY_OWNED_BYTES: usize = 20;

// The root, a path below it, and the leaf's display.
pub fn displayed(root: &[u8], path: &[u8], leaf: Leaf, t: Text, buf: &mut [u8]) -> Text
    ensures { Wrote buf.old t (root.now ++ path.now ++ display leaf) buf.new result }
{
    let t = t.bytes(buf, root);
    let t = t.bytes(buf, path);
    leaf.display(t, buf)
}

// A type of one row that is no pointer to a node: Void to Data; any other kind has no text here.
pub fn plain(root: &[u8], kind: Kind, leaf: Leaf, t: Text, buf: &mut [u8]) -> Text
    ensures { Wrote buf.old t (plain_string root.now leaf (number_of kind)) buf.new result }
{
    let path: &[u8] = match kind {
        Kind::Text => b"::text::",
        Kind::Data => b"::data::",
        _ => return codegen_types::type_name(kind, t, buf),
    };
    displayed(root, path, leaf, t, buf)
}

// The list module for an element of this kind, with its colons.
fn list_module(kind: Kind, t: Text, buf: &mut [u8]) -> Text
    ensures { Wrote buf.old t (ascii "::" ++ list_module (number_of kind) ++ ascii "::") buf.new result }
{
    let module: &[u8] = match kind {
        Kind::List => b"::list_list::",
        Kind::Enum => b"::enum_list::",
        Kind::Struct => b"::struct_list::",
        Kind::Interface => b"::capability_list::",
        _ => b"::primitive_list::",
    };
    t.bytes(buf, module)
}

// A list's text up to its element's.
pub fn list_head(root: &[u8], kind: Kind, leaf: Leaf, t: Text, buf: &mut [u8]) -> Text
    ensures { Wrote buf.old t (root.now ++ ascii "::" ++ list_module (number_of kind) ++ ascii "::" ++ bare_name
        leaf ++ ascii "<" ++ lifetime_comma leaf) buf.new result }
{
    let t = t.bytes(buf, root);
    let t = list_module(kind, t, buf);
    leaf.list_leaf(t, buf)
}

// A parameter that is not bound.
pub fn any_owned(root: &[u8], t: Text, buf: &mut [u8]) -> Text
    ensures { Wrote buf.old t (any_owned root.now) buf.new result }
{
    let t = t.bytes(buf, root);
    t.bytes(buf, b"::any_pointer::Owned")
}

// An associated type of a parameter, as `<T as ::capnp::traits::Owned>::Reader<'a>`.
fn projected(root: &[u8], name: &[u8], tail: &[u8], t: Text, buf: &mut [u8]) -> Text
    ensures { Wrote buf.old t (ascii "<" ++ name.now ++ ascii " as " ++ root.now ++ tail.now) buf.new result }
{
    let t = t.byte(buf, b'<');
    let t = t.bytes(buf, name);
    let t = t.bytes(buf, b" as ");
    let t = t.bytes(buf, root);
    t.bytes(buf, tail)
}

// A parameter's text by its name: 7 under Client, Server, ServerDispatch and GetType.
#[tactic(auto, unfolding(codegen_types::specs::TypeString::parameter_string))]
fn parameter_text(
    root: &[u8],
    name: &[u8],
    leaf: Leaf,
    t: Text,
    buf: &mut [u8],
) -> Result<Text, Refusal>
    ensures text { Writes (parameter_string root.now leaf name.now) buf.old t buf.new result }
    ensures within { Within buf.old t buf.new result }
{
    let tail: &[u8] = match leaf {
        Leaf::Reader(Lifetime::A) => b"::traits::Owned>::Reader<'a>",
        Leaf::Reader(Lifetime::Anonymous) => b"::traits::Owned>::Reader<'_>",
        Leaf::Builder(Lifetime::A) => b"::traits::Owned>::Builder<'a>",
        Leaf::Builder(Lifetime::Anonymous) => b"::traits::Owned>::Builder<'_>",
        Leaf::Pipeline => b"::traits::Pipelined>::Pipeline",
        Leaf::Owned => return Ok(t.bytes(buf, name)),
        Leaf::Client | Leaf::Server | Leaf::ServerDispatch | Leaf::GetType => {
            return Err(Refusal::ParameterLeaf);
        }
    };
    Ok(projected(root, name, tail, t, buf))
}

// An AnyPointer that is the parameter with a number of a node: 5 where the node is not there, 13 where it has no such parameter.
pub fn parameter(
    source: &Source<'_>,
    id: u64,
    k: u64,
    leaf: Leaf,
    t: Text,
    buf: &mut [u8],
) -> Result<Text, Refusal>
    ensures text { InSource source.now
        (λ sheet. Writes (type_string (parameter id k) sheet leaf) buf.old t buf.new result) }
    ensures within { Within buf.old t buf.new result }
{
    let node = source.find(id).ok_or(Refusal::NoNode)?;
    let place = source.parameter(node, k).ok_or(Refusal::ParameterIndex)?;
    let name = row::text(source.bytes, place);
    parameter_text(source.root, name, leaf, t, buf)
}

// The module of a node: 5 where the node is not there.
pub fn qualified_module(
    source: &Source<'_>,
    id: u64,
    t: Text,
    buf: &mut [u8],
) -> Result<Text, Refusal>
    ensures text { (root : Str) → ForAll root source.now.bytes.now source.now.index.now
        (λ sheet. Writes (get_qualified_module sheet id) buf.old t buf.new result) }
    ensures within { Within buf.old t buf.new result }
{
    let node = source.find(id).ok_or(Refusal::NoNode)?;
    Ok(t.bytes(buf, source.module(node)))
}

// How many bytes the names of so many P rows have, each with `<` or a comma before it: two a row fewer than the rows, which
// have a letter, a space and byte 10 beside a name. Where the rows end is known, so none of them is looked at.
fn names_size(s: &[u8], from: usize, count: u64, end: usize) -> usize
    ensures { result ≡ min end (length s.now) - from - 2 * count }
{
    let bytes = end.min(s.len()).saturating_sub(from);
    bytes.saturating_sub((count as usize).saturating_mul(2))
}

// The own names of a node's parameters, whose P rows stand between two positions. Past the end of the buffer the names that are
// left are counted at once. Whatever the positions and the count are, some text is written.
pub fn inherited(
    s: &[u8],
    from: usize,
    count: u64,
    end: usize,
    first: Arguments,
    buf: &mut [u8],
) -> Arguments
    ensures text { ParamsAt s.now from count end → Listed buf.old first (names_of (rows (drop from s.now))) buf.new result }
    ensures within { WroteSome buf.old first.text buf.new result.text }
{
    let mut at = from;
    let mut p = first;
    for done in 0..count {
        if buf.len() <= p.text.fill() {
            let t = p.text.past(names_size(s, at, count - done, end));
            return Arguments { text: t, sep: b',' };
        }
        let g = row::next(s, at);
        let name = row::text_before(s, at, g.next);
        let t = p.text.byte(buf, p.sep);
        let t = t.bytes(buf, name);
        p = Arguments { text: t, sep: b',' };
        at = g.next;
    }
    p
}

// So many parameters that are not bound. Past the end of the buffer all that are left have one size and are not looked at.
pub fn unbound(root: &[u8], count: u64, first: Arguments, buf: &mut [u8]) -> Arguments
    ensures { Listed buf.old first (replicate count (any_owned root.now)) buf.new result }
{
    let mut p = first;
    for done in 0..count {
        if buf.len() <= p.text.fill() {
            let each = 1 + root.len() + ANY_OWNED_BYTES;
            let t = p.text.past(each.saturating_mul((count - done) as usize));
            return Arguments { text: t, sep: b',' };
        }
        let t = p.text.byte(buf, p.sep);
        let t = any_owned(root, t, buf);
        p = Arguments { text: t, sep: b',' };
    }
    p
}

// A brand's text between its module and its arguments, with the leaf's own argument.
pub fn opening(leaf: Leaf, t: Text, buf: &mut [u8]) -> Arguments
    ensures { Opened buf.old t leaf buf.new result }
{
    let (text, sep): (&[u8], u8) = match leaf {
        Leaf::Reader(Lifetime::A) => (b"::Reader<'a", b','),
        Leaf::Reader(Lifetime::Anonymous) => (b"::Reader<'_", b','),
        Leaf::Builder(Lifetime::A) => (b"::Builder<'a", b','),
        Leaf::Builder(Lifetime::Anonymous) => (b"::Builder<'_", b','),
        Leaf::Owned => (b"::Owned", b'<'),
        Leaf::Client => (b"::Client", b'<'),
        Leaf::Server => (b"::Server", b'<'),
        Leaf::ServerDispatch => (b"::ServerDispatch::<_T", b','),
        Leaf::Pipeline => (b"::Pipeline", b'<'),
        Leaf::GetType => (b"::get_type::", b'<'),
    };
    Arguments {
        text: t.bytes(buf, text),
        sep,
    }
}

// The end of a brand's arguments.
#[tactic(auto, unfolding(text::specs::Text::put, text::specs::Text::adv))]
pub fn close(p: Arguments, buf: &mut [u8]) -> Text
    ensures { Wrote buf.old p.text (closer p.sep) buf.new result }
{
    if p.sep == b',' {
        return p.text.byte(buf, b'>');
    }
    p.text
}

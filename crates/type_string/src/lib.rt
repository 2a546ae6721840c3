// `type_string` and `do_branding` of codegen_types.rs: each calls the other, and the levels of a type that are left fall at
// each call. A text is written and its refusal found in one walk: what is written of a text that is refused counts for nothing.
// Over an empty buffer the same writers measure.
#![tactic(auto)]

ghost use Rattle.std.specs.Prelude.{◌≡◌, ◌-◌, ◌<◌, drop};
ghost use Rattle.text.specs.Bytes.{cond};
ghost use Rattle.row.specs.Rows.{rows};
ghost use Rattle.tree.specs.Reader.{On};
ghost use Rattle.tree.specs.Read.{read_type};
ghost use Rattle.nodes.specs.Index.{InSource};
ghost use Rattle.codegen_types.specs.TypeString.{type_string};
ghost use Rattle.codegen_types.specs.Written.{Writes, Within};
ghost use Rattle.type_parts.specs.Parts.{WithinArguments};
ghost use Rattle.type_string.specs.Told.{TypeTold, ListTold, BrandTold, ChainTold, OwnTold, BindsTold, BindTold};

use codegen_types::Leaf;
use nodes::Source;
use row::Line;
use terms::{Kind, Refusal};
use text::Text;
use type_parts::Arguments;
use types::TypeRow;

// A brand: its node's id, and where its scopes begin and how many they are.
#[derive(Clone, Copy)]
struct Brand {
    id: u64,
    scopes: usize,
    count: u64,
}

// A node of a brand's chain: where its P rows begin, how many they are, where they end, and where its scope stands; the sheet's
// end, as `types::scopes` gives it, where it has none.
#[derive(Clone, Copy)]
struct Own {
    params: usize,
    count: u64,
    end: usize,
    scope: usize,
}

// The text of the type at a position.
pub fn type_string(
    source: &Source<'_>,
    at: usize,
    leaf: Leaf,
    t: Text,
    buf: &mut [u8],
) -> Result<Text, Refusal>
    ensures text { InSource source.now (λ sheet.
        On (read_type 16 (rows (drop at source.now.bytes.now)))
        (λ ty. Writes (type_string ty sheet leaf) buf.old t buf.new result)) }
    ensures within { Within buf.old t buf.new result }
{
    let row = types::type_row(source.bytes, at);
    write_type(source, row, 15, leaf, t, buf)
}

// The text of a type whose row was read, with so many levels left below it.
#[cycle(do_branding_write_binding_write_binds_write_chain_write_list_write_own_write_type)]
fn write_type(
    source: &Source<'_>,
    row: TypeRow,
    left: usize,
    leaf: Leaf,
    t: Text,
    buf: &mut [u8],
) -> Result<Text, Refusal>
    ensures text { TypeTold source.now row left leaf buf.old t buf.new result }
    ensures within { Within buf.old t buf.new result }
{
    match row.kind {
        Kind::List => write_list(source, row.next, left, leaf, t, buf),
        Kind::Enum => type_parts::qualified_module(source, row.a, t, buf),
        Kind::Struct | Kind::Interface => {
            let brand = Brand {
                id: row.a,
                scopes: row.next,
                count: row.b,
            };
            do_branding(source, brand, left, leaf, t, buf)
        }
        Kind::AnyPointer | Kind::Unnamed(_) => {
            if row.a == 0 {
                let path = b"::any_pointer::";
                return Ok(type_parts::displayed(source.root, path, leaf, t, buf));
            }
            type_parts::parameter(source, row.b, row.c, leaf, t, buf)
        }
        _ => Ok(type_parts::plain(source.root, row.kind, leaf, t, buf)),
    }
}

// The text of a list whose element's type is at a position: 6 where that is an AnyPointer.
#[cycle(do_branding_write_binding_write_binds_write_chain_write_list_write_own_write_type)]
fn write_list(
    source: &Source<'_>,
    at: usize,
    left: usize,
    leaf: Leaf,
    t: Text,
    buf: &mut [u8],
) -> Result<Text, Refusal>
    ensures text { ListTold source.now at left leaf buf.old t buf.new result }
    ensures within { Within buf.old t buf.new result }
{
    if left == 0 {
        return Ok(t);
    }
    let row = types::type_row(source.bytes, at);
    match row.kind {
        Kind::Text => Ok(type_parts::displayed(source.root, b"::text_list::", leaf, t, buf)),
        Kind::Data => Ok(type_parts::displayed(source.root, b"::data_list::", leaf, t, buf)),
        Kind::AnyPointer | Kind::Unnamed(_) => Err(Refusal::ListOfAnyPointer),
        _ => {
            let t = type_parts::list_head(source.root, row.kind, leaf, t, buf);
            let element = codegen_types::element_leaf(row.kind);
            let t = write_type(source, row, left - 1, element, t, buf)?;
            Ok(t.byte(buf, b'>'))
        }
    }
}

// The text of a node's type with a brand: its module, the leaf, and the arguments in angle brackets.
#[cycle(do_branding_write_binding_write_binds_write_chain_write_list_write_own_write_type)]
fn do_branding(
    source: &Source<'_>,
    brand: Brand,
    left: usize,
    leaf: Leaf,
    t: Text,
    buf: &mut [u8],
) -> Result<Text, Refusal>
    ensures text { BrandTold source.now brand left leaf buf.old t buf.new result }
    ensures within { Within buf.old t buf.new result }
{
    let t = type_parts::qualified_module(source, brand.id, t, buf)?;
    let p = type_parts::opening(leaf, t, buf);
    let q = write_chain(source, brand, left, p, buf)?;
    Ok(type_parts::close(q, buf))
}

// The place in a chain of the node whose turn comes after so many others: the outermost node is written first, and where nothing
// is written the innermost comes first. A range and the same one reversed have two types, so a flag says which it is.
fn turn(inward: bool, done: usize, count: usize) -> usize
    requires { done < count }
    ensures is { result ≡ cond inward done (count - 1 - done) }
    ensures within { result < count }
{
    if inward { done } else { count - 1 - done }
}

// The arguments of a node after those of its parents. The Rust meets the innermost node's refusal first, and the chain's own
// last: after a refusal only those further in still matter. Over an empty buffer, where the order of texts does not show, the
// nodes are taken in the Rust's order, so that the first refusal ends the walk.
#[cycle(do_branding_write_binding_write_binds_write_chain_write_list_write_own_write_type)]
fn write_chain(
    source: &Source<'_>,
    brand: Brand,
    left: usize,
    first: Arguments,
    buf: &mut [u8],
) -> Result<Arguments, Refusal>
    ensures text { ChainTold source.now brand left buf.old first buf.new result }
    ensures within { WithinArguments buf.old first buf.new result }
{
    let chain = types::chain(source, brand.id);
    let count = chain.count;
    let scopes = types::scopes(source.bytes, brand.scopes, brand.count, &chain.ids[..count]);
    let inward = buf.is_empty();
    let mut p = first;
    let mut met = chain.refusal;
    for done in 0..count {
        let k = turn(inward, done, count);
        let own = Own {
            params: chain.params[k],
            count: chain.counts[k],
            end: chain.ends[k],
            scope: scopes[k],
        };
        match write_own(source, own, left, p, buf) {
            Ok(q) => p = q,
            Err(refusal) => {
                if inward {
                    return Err(refusal);
                }
                met = Some(refusal);
            }
        }
    }
    match met {
        Some(refusal) => Err(refusal),
        None => Ok(p),
    }
}

// The arguments of one node: those that its scope binds, its own parameters' names, or for each parameter one that is not bound.
// 8 where there are more or fewer bindings than parameters.
#[cycle(do_branding_write_binding_write_binds_write_chain_write_list_write_own_write_type)]
fn write_own(
    source: &Source<'_>,
    own: Own,
    left: usize,
    p: Arguments,
    buf: &mut [u8],
) -> Result<Arguments, Refusal>
    ensures text { OwnTold source.now own left buf.old p buf.new result }
    ensures within { WithinArguments buf.old p buf.new result }
{
    let g = row::next(source.bytes, own.scope);
    let Ok(Line::Scope { id: _, bindings }) = g.line else {
        return Ok(type_parts::unbound(source.root, own.count, p, buf));
    };
    let Some(count) = bindings else {
        return Ok(type_parts::inherited(source.bytes, own.params, own.count, own.end, p, buf));
    };
    if count != own.count {
        return Err(Refusal::BindingsDiffer);
    }
    write_binds(source, g.next, count, left, p, buf)
}

// So many bindings, up to the first that is refused. The last of them need not be passed over.
#[cycle(do_branding_write_binding_write_binds_write_chain_write_list_write_own_write_type)]
fn write_binds(
    source: &Source<'_>,
    from: usize,
    count: u64,
    left: usize,
    first: Arguments,
    buf: &mut [u8],
) -> Result<Arguments, Refusal>
    ensures text { BindsTold source.now from count left buf.old first buf.new result }
    ensures within { WithinArguments buf.old first buf.new result }
{
    let mut at = from;
    let mut p = first;
    for passed in 0..count {
        let t = p.text.byte(buf, p.sep);
        let t = write_binding(source, at, left, t, buf)?;
        p = Arguments { text: t, sep: b',' };
        if passed + 1 == count {
            return Ok(p);
        }
        at = types::past(source.bytes, at, 1);
    }
    Ok(p)
}

// One binding: a U row, or a type.
#[cycle(do_branding_write_binding_write_binds_write_chain_write_list_write_own_write_type)]
fn write_binding(
    source: &Source<'_>,
    at: usize,
    left: usize,
    t: Text,
    buf: &mut [u8],
) -> Result<Text, Refusal>
    ensures text { BindTold source.now at left buf.old t buf.new result }
    ensures within { Within buf.old t buf.new result }
{
    let g = row::next(source.bytes, at);
    match g.line {
        Ok(Line::Unbound) => Ok(type_parts::any_owned(source.root, t, buf)),
        _ => {
            if left == 0 {
                return Ok(t);
            }
            let row = types::as_type(g.line, g.next);
            write_type(source, row, left - 1, Leaf::Owned, t, buf)
        }
    }
}

// The static library for C, Rust and the comparison with capnpc: each function of crate `exports` under its name and with its
// promises, by C's calling convention. kitlubas.h in that crate declares them.
#![tactic(auto)]

ghost use Rattle.tree.specs.Read.{admitted};
ghost use Rattle.names.specs.Names.{camel_to_snake_case, default_name, module_name};
ghost use Rattle.text.specs.Decimal.{decimal};
ghost use Rattle.text.specs.Lines.{Line, BlankLine, Branch, none, to_lines, stringify, ended};
ghost use Rattle.exports.specs.Boundary.{Fills, FillsName, Signed, Told, Asked, ask, accessor_numbered, request_of};
ghost use Rattle.exports.specs.Boundary.{OverIndex, AskedWithin, TextTold, NodeTold, EntryTold, FirstTold, FirstPut, ValueRead};
ghost use Rattle.exports.specs.Boundary.{VerdictNumbered};
ghost use Rattle.std.specs.Prelude.{◌≡◌, ◌-◌, ◌+◌, ◌≤◌, length};
ghost use Rattle.nodes.specs.Index.{index_size, entry_with};
ghost use Rattle.sheet.specs.Admission.{IndexOf};
ghost use Rattle.exports.specs.Pad.{PadTold};

#[unsafe(no_mangle)]
pub extern "C" fn kitlubas_number(at: usize, buf: &mut [u8], n: u64) -> usize
    ensures { Fills buf.old at (decimal n) buf.new result }
{
    exports::kitlubas_number(at, buf, n)
}

#[unsafe(no_mangle)]
pub extern "C" fn kitlubas_signed(at: usize, buf: &mut [u8], width: u32, n: u64) -> usize
    ensures { Signed buf.old at width n buf.new result }
{
    exports::kitlubas_signed(at, buf, width, n)
}

#[unsafe(no_mangle)]
pub extern "C" fn kitlubas_line(at: usize, buf: &mut [u8], indent: usize, line: &[u8]) -> usize
    ensures { Fills buf.old at (ended (to_lines (Line line.now) indent)) buf.new result }
{
    exports::kitlubas_line(at, buf, indent, line)
}

#[unsafe(no_mangle)]
pub extern "C" fn kitlubas_blank_line(at: usize, buf: &mut [u8]) -> usize
    ensures { Fills buf.old at (ended (to_lines BlankLine 0)) buf.new result }
{
    exports::kitlubas_blank_line(at, buf)
}

#[unsafe(no_mangle)]
pub extern "C" fn kitlubas_no_lines(at: usize, buf: &mut [u8]) -> usize
    ensures { Fills buf.old at (stringify (Branch none) 0) buf.new result }
{
    exports::kitlubas_no_lines(at, buf)
}

#[unsafe(no_mangle)]
pub extern "C" fn kitlubas_snake(at: usize, buf: &mut [u8], name: &[u8]) -> usize
    ensures { FillsName buf.old at camel_to_snake_case name.now buf.new result }
{
    exports::kitlubas_snake(at, buf, name)
}

#[unsafe(no_mangle)]
pub extern "C" fn kitlubas_default_name(at: usize, buf: &mut [u8], name: &[u8]) -> usize
    ensures { FillsName buf.old at default_name name.now buf.new result }
{
    exports::kitlubas_default_name(at, buf, name)
}

#[unsafe(no_mangle)]
pub extern "C" fn kitlubas_module_name(at: usize, buf: &mut [u8], name: &[u8]) -> usize
    ensures { FillsName buf.old at module_name name.now buf.new result }
{
    exports::kitlubas_module_name(at, buf, name)
}

#[unsafe(no_mangle)]
pub extern "C" fn kitlubas_admit(s: &[u8], line: &mut usize, column: &mut usize) -> u64
    ensures { Told (admitted s.now) result line.new column.new }
{
    exports::kitlubas_admit(s, line, column)
}

#[unsafe(no_mangle)]
pub extern "C" fn kitlubas_answer(
    s: &[u8],
    id: u64,
    place: u64,
    request: u64,
    leaf: u64,
    level: usize,
    fill: &mut usize,
    line: &mut usize,
    column: &mut usize,
    buf: &mut [u8],
) -> u64
    ensures { Asked buf.old fill.old
        (ask (admitted s.now) id (request_of request place leaf) level)
        buf.new fill.new result line.new column.new }
{
    exports::kitlubas_answer(s, id, place, request, leaf, level, fill, line, column, buf)
}

#[unsafe(no_mangle)]
pub extern "C" fn kitlubas_index_size(size: usize) -> usize
    ensures { result ≡ index_size size }
{
    exports::kitlubas_index_size(size)
}

#[unsafe(no_mangle)]
pub extern "C" fn kitlubas_index(
    s: &[u8],
    index: &mut [u64],
    line: &mut usize,
    column: &mut usize,
) -> u64
    ensures told { Told (admitted s.now) result line.new column.new }
    ensures index { index_size (length s.now) ≤ length index.old
        → IndexOf s.now (admitted s.now) index.new }
{
    exports::kitlubas_index(s, index, line, column)
}

#[unsafe(no_mangle)]
pub extern "C" fn kitlubas_answer_in(
    s: &[u8],
    index: &[u64],
    id: u64,
    place: u64,
    request: u64,
    leaf: u64,
    level: usize,
    fill: &mut usize,
    line: &mut usize,
    column: &mut usize,
    buf: &mut [u8],
) -> u64
    ensures asked { OverIndex s.now index.now (λ sheet. Asked buf.old fill.old
        (ask sheet id (request_of request place leaf) level) buf.new fill.new result line.new
        column.new) }
    ensures within { AskedWithin buf.old fill.old buf.new fill.new result }
{
    exports::kitlubas_answer_in(
        s, index, id, place, request, leaf, level, fill, line, column, buf,
    )
}

#[unsafe(no_mangle)]
pub extern "C" fn kitlubas_text(
    s: &[u8],
    index: &[u64],
    node: usize,
    field: &[u64],
    request: u64,
    leaf: u64,
    level: usize,
    size: &mut usize,
    buf: &mut [u8],
) -> u64
    ensures told { TextTold s.now index.now node field.now
        (accessor_numbered request leaf) level buf.old buf.new result size.new }
    ensures within { result ≡ 0 → size.new ≤ length buf.old }
{
    exports::kitlubas_text(s, index, node, field, request, leaf, level, size, buf)
}

#[unsafe(no_mangle)]
pub extern "C" fn kitlubas_verdict(
    s: &[u8],
    index: &[u64],
    node: usize,
    field: &[u64],
    verdict: &mut u64,
) -> u64
    ensures { VerdictNumbered s.now index.now node field.now result verdict.new }
{
    exports::kitlubas_verdict(s, index, node, field, verdict)
}

#[unsafe(no_mangle)]
pub extern "C" fn kitlubas_node(
    s: &[u8],
    index: &[u64],
    number: usize,
    id: &mut u64,
    at: &mut usize,
    size: &mut usize,
    first: &mut usize,
) -> u64
    ensures node { NodeTold s.now index.now number result id.new
        at.new size.new first.new }
    ensures within { at.new + size.new ≤ length s.now }
    ensures entry { EntryTold s.now (entry_with index.now number) result id.new
        at.new size.new first.new }
{
    exports::kitlubas_node(s, index, number, id, at, size, first)
}

#[unsafe(no_mangle)]
pub extern "C" fn kitlubas_field(
    s: &[u8],
    from: usize,
    field: &mut [u64],
    kind: &mut u64,
    at: &mut usize,
    size: &mut usize,
    next: &mut usize,
) -> u64
    ensures told { FirstTold s.now from result kind.new at.new size.new
        next.new }
    ensures within { at.new + size.new ≤ length s.now }
    ensures put { FirstPut s.now from field.old field.new }
    ensures value { ValueRead s.now from field.old field.new result kind.new
        at.new size.new next.new }
{
    exports::kitlubas_field(s, from, field, kind, at, size, next)
}

#[unsafe(no_mangle)]
pub extern "C" fn kitlubas_pad(s: &[u8], fill: &mut usize, buf: &mut [u8]) -> u64
    ensures { PadTold s.now buf.old fill.old buf.new fill.new result }
{
    exports::kitlubas_pad(s, fill, buf)
}

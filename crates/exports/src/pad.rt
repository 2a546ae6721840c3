// Sheets that are written by hand.
ghost use Rattle.exports.specs.Pad.{PadTold};

use terms::Refusal;
use text::Text;

// The sheet that a text says, put into the buffer at `fill`: 0 with `fill` moved past it, or 21 or 22 with nothing changed. It
// is measured over an empty buffer first.
pub fn kitlubas_pad(s: &[u8], fill: &mut usize, buf: &mut [u8]) -> u64
    ensures { PadTold s.now buf.old fill.old buf.new fill.new result }
{
    let start = Text::at(*fill);
    if buf.len() < start.fill() {
        return Refusal::FillPastEnd.number();
    }
    let mut empty = [0u8; 0];
    let measured = padding::pad(s, start, &mut empty);
    if buf.len() < measured.fill() {
        return Refusal::NoRoom.number();
    }
    let end = padding::pad(s, start, buf);
    *fill = end.fill();
    0
}

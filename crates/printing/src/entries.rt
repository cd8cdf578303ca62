// The printed lines of a list of calls, one after the other.
ghost use Rattle.std.specs.Prelude.{◌≡◌, ◌+◌, ◌≤◌, length, leb};
ghost use Rattle.pen.specs.Chain.{Wrote};
ghost use Rattle.printing.specs.Indexed.{Indexed, entries_of};

use crate::call::{line_at, put_text, text_length};

// Do the lines of these calls fit into so many bytes?
pub fn entries_fit(
    text: &[u8],
    units: &[u16],
    outputs: &[u16],
    inputs: &[u16],
    calls: &[u8],
    room: usize,
) -> bool
    requires { Indexed text.now units.now outputs.now inputs.now }
    ensures { result ≡ leb (length (entries_of text.now 0 calls.now)) room }
{
    let mut left = room;
    let mut i = 0;
    while i < calls.len() {
        let line = line_at(units, outputs, inputs, calls[i] as usize);
        let n = text_length(text, line, i);
        if left < n {
            return false;
        }
        left -= n;
        i += 1;
    }
    true
}

// Puts the lines of these calls, and answers the place behind them.
pub fn put_entries(
    text: &[u8],
    units: &[u16],
    outputs: &[u16],
    inputs: &[u16],
    calls: &[u8],
    out: &mut [u8],
    at: usize,
) -> usize
    requires indexed { Indexed text.now units.now outputs.now inputs.now }
    requires calls_in_bounds { at + length (entries_of text.now 0 calls.now) ≤ length out.old }
    ensures { Wrote out.old at (entries_of text.now 0 calls.now)
        out.new result }
{
    let mut end = at;
    let mut i = 0;
    while i < calls.len() {
        let line = line_at(units, outputs, inputs, calls[i] as usize);
        end = put_text(text, line, i, out, end);
        i += 1;
    }
    end
}

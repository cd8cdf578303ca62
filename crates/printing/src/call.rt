// The line that declares a call, and what is printed of it.
ghost use Rattle.std.specs.Prelude.{◌≡◌, ◌+◌, ◌<◌, ◌≤◌, length};
ghost use Rattle.grammar.specs.Rows.{row_at, word};
ghost use Rattle.pen.specs.Chain.{Wrote};
ghost use Rattle.printing.specs.Places.{line_at, text_of};

use crate::line::{entry_length, put_entry};
use calls::Call;
use calls::number::call_in;
use fields::fields_at;

// The line that declares a call: 0 step, 1 get, 2 set, 3 no call; and where it begins.
#[derive(Clone, Copy)]
pub struct Line {
    pub kind: u8,
    pub place: u16,
}

// The line that declares call c, by where the lines of units, outputs and inputs begin.
pub fn line_at(units: &[u16], outputs: &[u16], inputs: &[u16], c: usize) -> Line
    ensures { result ≡ line_at units.now outputs.now inputs.now c }
{
    let call = call_in(units.len(), outputs.len(), inputs.len(), c);
    match call {
        Call::Step(u) => Line {
            kind: 0,
            place: units[u],
        },
        Call::Get(y) => Line {
            kind: 1,
            place: outputs[y],
        },
        Call::Set(x) => Line {
            kind: 2,
            place: inputs[x],
        },
        Call::NoCall => Line { kind: 3, place: 0 },
    }
}

// Field i of the line that begins at place a, the empty part where there is none.
fn field(text: &[u8], a: usize, i: usize) -> &[u8]
    requires { (length text.now ≤ 65535) × (i < 5) }
    ensures { result.now ≡ word (row_at text.now a) i }
{
    let fields = fields_at(text, a);
    let from = fields.from[i] as usize;
    let to = fields.to[i] as usize;
    &text[from..to]
}

// How many bytes are printed of a line at place k.
pub fn text_length(text: &[u8], line: Line, k: usize) -> usize
    requires { line.kind < 3 → length text.now ≤ 65535 }
    ensures { result ≡ length (text_of text.now k line) }
{
    if 3 <= line.kind {
        return 0;
    }
    let a = line.place as usize;
    let unit = field(text, a, 1);
    if line.kind == 0 {
        return entry_length(k, b"step", unit, b"-");
    }
    let port = field(text, a, 2);
    if line.kind == 1 {
        return entry_length(k, b"get", unit, port);
    }
    entry_length(k, b"set", unit, port)
}

// Puts what is printed of a line at place k, and answers the place behind it.
pub fn put_text(text: &[u8], line: Line, k: usize, out: &mut [u8], at: usize) -> usize
    requires text_len_bound { line.kind < 3 → length text.now ≤ 65535 }
    requires line_in_bounds { at + length (text_of text.now k line) ≤ length out.old }
    ensures { Wrote out.old at (text_of text.now k line) out.new result }
{
    if 3 <= line.kind {
        return at;
    }
    let a = line.place as usize;
    let unit = field(text, a, 1);
    if line.kind == 0 {
        return put_entry(out, at, k, b"step", unit, b"-");
    }
    let port = field(text, a, 2);
    if line.kind == 1 {
        return put_entry(out, at, k, b"get", unit, port);
    }
    put_entry(out, at, k, b"set", unit, port)
}

// What the lister prints, written into a lent buffer: all of it, or nothing.
#![tactic(auto)]

mod call;
mod entries;
mod line;

ghost use Rattle.std.specs.Prelude.{◌≡◌, length};
ghost use Rattle.search.specs.Front.{fronted};
ghost use Rattle.table.specs.Outcome.{outcome};
ghost use Rattle.table.specs.Packed.{part};
ghost use Rattle.printing.specs.Entries.{refusal_text};
ghost use Rattle.printing.specs.Indexed.{Indexed, calls_of, outcome_of};
ghost use Rattle.printing.specs.Listed.{listed};

use crate::entries::{entries_fit, put_entries};
use crate::line::{put_count, put_field};
use declarations::note_lines;
use pen::digit_count;
use table::Answer;
use table::parts::stretch;

// The heading, how many calls, and their lines.
fn put_lines(
    text: &[u8],
    units: &[u16],
    outputs: &[u16],
    inputs: &[u16],
    heading: &[u8],
    calls: &[u8],
    out: &mut [u8],
) -> Answer
    requires { Indexed text.now units.now outputs.now inputs.now }
    ensures value { result
        ≡ (listed (calls_of text.now heading.now calls.now)
        (length out.old)).answer }
    ensures out_after { out.new
        ≡ fronted (listed (calls_of text.now heading.now calls.now)
        (length out.old)).bytes out.old }
{
    let front = heading.len() + digit_count(calls.len()) + 2;
    if out.len() < front {
        return Answer {
            number: 34,
            place: 0,
        };
    }
    if !entries_fit(text, units, outputs, inputs, calls, out.len() - front) {
        return Answer {
            number: 34,
            place: 0,
        };
    }
    let a = put_field(out, 0, heading, b'\t');
    let b = put_count(out, a, calls.len(), b'\n');
    let end = put_entries(text, units, outputs, inputs, calls, out, b);
    Answer {
        number: 0,
        place: end,
    }
}

// Writes the heading, how many calls there are, and a line for each, with names from the text.
pub fn put_calls(text: &[u8], heading: &[u8], calls: &[u8], out: &mut [u8]) -> Answer
    ensures value { result
        ≡ (listed (calls_of text.now heading.now calls.now)
        (length out.old)).answer }
    ensures out_after { out.new
        ≡ fronted (listed (calls_of text.now heading.now calls.now)
        (length out.old)).bytes out.old }
{
    let mut units = [0u16; 32];
    let mut outputs = [0u16; 96];
    let mut inputs = [0u16; 96];
    let u = note_lines(text, b"unit", &mut units);
    let y = note_lines(text, b"out", &mut outputs);
    let x = note_lines(text, b"in", &mut inputs);
    put_lines(
        text,
        &units[..u],
        &outputs[..y],
        &inputs[..x],
        heading,
        calls,
        out,
    )
}

// Writes a refusal: its number and its line.
pub fn put_refusal(number: u8, line: usize, out: &mut [u8]) -> Answer
    ensures value { result ≡ (listed (refusal_text number line) (length out.old)).answer }
    ensures out_after { out.new
        ≡ fronted (listed (refusal_text number line) (length out.old)).bytes
        out.old }
{
    let n = number as usize;
    if out.len() < digit_count(n) + digit_count(line) + 10 {
        return Answer {
            number: 34,
            place: 0,
        };
    }
    let a = put_field(out, 0, b"refused", b'\t');
    let b = put_count(out, a, n, b'\t');
    let end = put_count(out, b, line, b'\n');
    Answer {
        number: 0,
        place: end,
    }
}

// Writes what an ordering answered: an order, a cycle or a refusal; its calls stand at the front.
pub fn put_outcome(text: &[u8], answer: Answer, buffer: &[u8], out: &mut [u8]) -> Answer
    ensures value { result
        ≡ (listed (outcome_of text.now
        (outcome answer.number answer.place (part buffer.now 0 answer.place)))
        (length out.old)).answer }
    ensures out_after { out.new
        ≡ fronted (listed (outcome_of text.now
        (outcome answer.number answer.place (part buffer.now 0 answer.place)))
        (length out.old)).bytes out.old }
{
    let place = answer.place;
    let calls = stretch(buffer, 0, place);
    if answer.number == 0 {
        return put_calls(text, b"order", calls, out);
    }
    if answer.number == 9 {
        return put_calls(text, b"cycle", calls, out);
    }
    put_refusal(answer.number, place, out)
}

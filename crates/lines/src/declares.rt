// The lines that declare a unit, an output or an input; the line begins at place at.
ghost use Rattle.std.specs.Prelude.{◌≡◌, ◌≤◌, ◌<◌};
ghost use Rattle.grammar.specs.Rows.{row_at};
ghost use Rattle.grammar.specs.Lines.{unit_line, out_line, in_line, kind_of};
ghost use Rattle.notes.specs.Notes.{draft_of, Fit};
ghost use Rattle.lines.specs.Took.{Told, name_entry, unit_entry, out_entry, in_entry, Took};

use crate::shape::{shape, word};
use crate::{Taken, refused};
use fields::Fields;
use notes::{Counts, Entry, INPUTS, OUTPUTS, Places, Slots, UNITS};

// What a line with a name declares: its owner, its rank, its kind, and where it begins.
fn named(what: u8, owner: usize, rank: usize, kind: u8, begin: u16) -> Taken
    requires { (owner < 32) × (rank ≤ 96) }
    ensures { result ≡ record {
      number = 0;
      field = 0;
      entry =
          name_entry what owner kind begin rank;
    } }
{
    let entry = Entry {
        what: what,
        owner: owner as u8,
        rank: rank as u8,
        kind: kind,
        input: 0,
        output: 0,
        begin: begin,
    };
    Taken {
        number: 0,
        field: 0,
        entry: entry,
    }
}

// `unit`, name.
pub fn unit_line(
    text: &[u8],
    places: &Places,
    slots: &Slots,
    counts: Counts,
    at: usize,
    fields: Fields,
    line: usize,
) -> Taken
    requires fit { Fit text.now places.now slots.now counts }
    requires told { Told text.now at fields }
    ensures { Took text.now places.now slots.now counts line
        (unit_entry fields.from) result
        (unit_line (draft_of text.now places.now slots.now counts)
        (row_at text.now at)) }
{
    let bad = shape(text, at, fields, 2, 1);
    if bad.number != 0 {
        return bad;
    }
    let units = counts.units;
    let name = word(text, at, fields, 1);
    let unit = names::seek(text, places, slots, UNITS, units, 0, name);
    if unit.here {
        return refused(26, 2);
    }
    if 32 <= units {
        return refused(29, 0);
    }
    named(1, 0, unit.rank, 0, fields.from[1])
}

// `out`, unit, name.
pub fn out_line(
    text: &[u8],
    places: &Places,
    slots: &Slots,
    counts: Counts,
    at: usize,
    fields: Fields,
    line: usize,
) -> Taken
    requires fit { Fit text.now places.now slots.now counts }
    requires told { Told text.now at fields }
    ensures { Took text.now places.now slots.now counts line
        (out_entry (draft_of text.now places.now slots.now counts)
        (row_at text.now at) fields.from) result
        (out_line (draft_of text.now places.now slots.now counts)
        (row_at text.now at)) }
{
    let bad = shape(text, at, fields, 3, 2);
    if bad.number != 0 {
        return bad;
    }
    let units = counts.units;
    let owner = word(text, at, fields, 1);
    let u = names::find(text, places, slots, UNITS, units, 0, owner);
    if units <= u {
        return refused(27, 2);
    }
    let outputs = counts.outputs;
    let name = word(text, at, fields, 2);
    let output = names::seek(text, places, slots, OUTPUTS, outputs, u as u8, name);
    if output.here {
        return refused(26, 3);
    }
    if 96 <= outputs {
        return refused(29, 0);
    }
    named(2, u, output.rank, 0, fields.from[2])
}

// 0 `delayed`, 1 `reactive`, 2 another word.
fn kind_of(word: &[u8]) -> u8
    ensures { result ≡ kind_of word.now }
{
    if fields::same(word, b"delayed") {
        return 0;
    }
    if fields::same(word, b"reactive") {
        return 1;
    }
    2
}

// `in`, unit, name, `delayed` or `reactive`.
pub fn in_line(
    text: &[u8],
    places: &Places,
    slots: &Slots,
    counts: Counts,
    at: usize,
    fields: Fields,
    line: usize,
) -> Taken
    requires fit { Fit text.now places.now slots.now counts }
    requires told { Told text.now at fields }
    ensures { Took text.now places.now slots.now counts line
        (in_entry (draft_of text.now places.now slots.now counts)
        (row_at text.now at) fields.from) result
        (in_line (draft_of text.now places.now slots.now counts) line
        (row_at text.now at)) }
{
    let bad = shape(text, at, fields, 4, 2);
    if bad.number != 0 {
        return bad;
    }
    let kind = kind_of(word(text, at, fields, 3));
    if kind == 2 {
        return refused(28, 4);
    }
    let units = counts.units;
    let owner = word(text, at, fields, 1);
    let u = names::find(text, places, slots, UNITS, units, 0, owner);
    if units <= u {
        return refused(27, 2);
    }
    let inputs = counts.inputs;
    let name = word(text, at, fields, 2);
    let input = names::seek(text, places, slots, INPUTS, inputs, u as u8, name);
    if input.here {
        return refused(26, 3);
    }
    if 96 <= inputs {
        return refused(29, 0);
    }
    named(3, u, input.rank, kind, fields.from[2])
}

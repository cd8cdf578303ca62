// The lines that feed an output or join an input; the line begins at place at.
ghost use Rattle.std.specs.Prelude.{◌≡◌, ◌≤◌};
ghost use Rattle.search.specs.Least.{least_from};
ghost use Rattle.grammar.specs.Rows.{row_at};
ghost use Rattle.grammar.specs.Lines.{feed_line, join_line};
ghost use Rattle.notes.specs.Notes.{draft_of, Fit, is_fed};
ghost use Rattle.lines.specs.Took.{Told, wire_entry, feed_entry, join_entry, Took};

use crate::ports::port;
use crate::shape::{shape, word};
use crate::{Taken, refused};
use fields::Fields;
use notes::{Counts, Entry, FED, FEEDS, INPUTS, OUTPUTS, Places, SOURCES, Slots, UNJOINED};

// The feed from input x to output y among that many feeds, or their count.
fn feed_of(slots: &Slots, feeds: usize, x: u8, y: u8) -> usize
    requires { feeds ≤ 128 }
    ensures { result ≡ least_from (is_fed slots.now x y) feeds 0 }
{
    let mut k = 0;
    while k < feeds {
        if slots[FEEDS + 2 * k] == x && slots[FED + 2 * k] == y {
            return k;
        }
        k += 1;
    }
    k
}

// What a feed or a join declares: an input and an output.
fn wired(what: u8, x: usize, y: usize) -> Taken
    requires { (x ≤ 96) × (y ≤ 96) }
    ensures { result ≡ record { number = 0; field = 0; entry = wire_entry what x y } }
{
    let entry = Entry {
        what: what,
        owner: 0,
        rank: 0,
        kind: 0,
        input: x as u8,
        output: y as u8,
        begin: 0,
    };
    Taken {
        number: 0,
        field: 0,
        entry: entry,
    }
}

// `feed`, unit, input, output.
pub fn feed_line(
    text: &[u8],
    places: &Places,
    slots: &Slots,
    counts: Counts,
    at: usize,
    fields: Fields,
    line: usize,
) -> Taken
    requires fit { Fit text.now places.now slots.now counts }
    requires told { Told text.now at fields }
    ensures { Took text.now places.now slots.now counts line
        (feed_entry (draft_of text.now places.now slots.now counts)
        (row_at text.now at)) result
        (feed_line (draft_of text.now places.now slots.now counts)
        (row_at text.now at)) }
{
    let bad = shape(text, at, fields, 4, 3);
    if bad.number != 0 {
        return bad;
    }
    let input = port(
        text,
        places,
        slots,
        counts,
        at,
        fields,
        1,
        INPUTS,
        counts.inputs,
    );
    if input.field != 0 {
        return refused(27, input.field);
    }
    let u = input.unit as u8;
    let x = input.number;
    let outputs = counts.outputs;
    let name = word(text, at, fields, 3);
    let y = names::find(text, places, slots, OUTPUTS, outputs, u, name);
    if outputs <= y {
        return refused(27, 4);
    }
    let feeds = counts.feeds;
    let k = feed_of(slots, feeds, x as u8, y as u8);
    if k < feeds {
        return refused(32, 4);
    }
    if 128 <= feeds {
        return refused(29, 0);
    }
    wired(4, x, y)
}

// `join`, unit, output, unit, input.
pub fn join_line(
    text: &[u8],
    places: &Places,
    slots: &Slots,
    counts: Counts,
    at: usize,
    fields: Fields,
    line: usize,
) -> Taken
    requires fit { Fit text.now places.now slots.now counts }
    requires told { Told text.now at fields }
    ensures { Took text.now places.now slots.now counts line
        (join_entry (draft_of text.now places.now slots.now counts)
        (row_at text.now at)) result
        (join_line (draft_of text.now places.now slots.now counts)
        (row_at text.now at)) }
{
    let bad = shape(text, at, fields, 5, 4);
    if bad.number != 0 {
        return bad;
    }
    let from = port(
        text,
        places,
        slots,
        counts,
        at,
        fields,
        1,
        OUTPUTS,
        counts.outputs,
    );
    if from.field != 0 {
        return refused(27, from.field);
    }
    let to = port(
        text,
        places,
        slots,
        counts,
        at,
        fields,
        3,
        INPUTS,
        counts.inputs,
    );
    if to.field != 0 {
        return refused(27, to.field);
    }
    let x = to.number;
    if slots[SOURCES + x] != UNJOINED {
        return refused(30, 5);
    }
    wired(5, x, from.number)
}

// A line below the first: its refusal, or what it declares. The notes are only read here.
#![tactic(auto)]

ghost use Rattle.std.specs.Prelude.{◌≡◌};
ghost use Rattle.grammar.specs.Rows.{row_at};
ghost use Rattle.grammar.specs.Lines.{line as line_outcome};
ghost use Rattle.notes.specs.Notes.{draft_of, Fit};
ghost use Rattle.lines.specs.Took.{Told, keyword_of, entry_of, Took};
ghost use Rattle.notes.specs.Noted.{no_entry};

mod declares;
mod joins;
mod ports;
mod shape;

use declares::{in_line, out_line, unit_line};
use fields::Fields;
use joins::{feed_line, join_line};
use notes::{Counts, Entry, Places, Slots};
use shape::word;

// 0 and what the line declares; or a refusal's number and its leftmost faulty field, from 1, or 0.
#[derive(Clone, Copy)]
pub struct Taken {
    pub number: u8,
    pub field: u8,
    pub entry: Entry,
}

// A port found: its unit and its own number; or the field whose name is not declared, from 1.
#[derive(Clone, Copy)]
pub struct Port {
    pub unit: usize,
    pub number: usize,
    pub field: u8,
}

// The one refusal.
fn refused(number: u8, field: u8) -> Taken
    ensures { result ≡ record { number = number; field = field; entry = no_entry } }
{
    let entry = Entry {
        what: 0,
        owner: 0,
        rank: 0,
        kind: 0,
        input: 0,
        output: 0,
        begin: 0,
    };
    Taken {
        number: number,
        field: field,
        entry: entry,
    }
}

// 1 `unit`, 2 `out`, 3 `in`, 4 `feed`, 5 `join`, 0 another word.
fn keyword_of(word: &[u8]) -> u8
    ensures { result ≡ keyword_of word.now }
{
    if fields::same(word, b"unit") {
        return 1;
    }
    if fields::same(word, b"out") {
        return 2;
    }
    if fields::same(word, b"in") {
        return 3;
    }
    if fields::same(word, b"feed") {
        return 4;
    }
    if fields::same(word, b"join") {
        return 5;
    }
    0
}

// The line with that number, by its keyword; it begins at place at, which the contracts speak of.
pub fn line(
    text: &[u8],
    places: &Places,
    slots: &Slots,
    counts: Counts,
    at: usize,
    fields: Fields,
    line: usize,
) -> Taken
    requires fit { Fit text.now places.now slots.now counts }
    requires told { Told text.now at fields }
    ensures { Took text.now places.now slots.now counts line
        (entry_of (draft_of text.now places.now slots.now counts)
        (row_at text.now at) fields.from) result
        (line_outcome (draft_of text.now places.now slots.now counts)
        line (row_at text.now at)) }
{
    let keyword = keyword_of(word(text, at, fields, 0));
    match keyword {
        1 => unit_line(text, places, slots, counts, at, fields, line),
        2 => out_line(text, places, slots, counts, at, fields, line),
        3 => in_line(text, places, slots, counts, at, fields, line),
        4 => feed_line(text, places, slots, counts, at, fields, line),
        5 => join_line(text, places, slots, counts, at, fields, line),
        _ => refused(24, 1),
    }
}

// A line's fields: each as a word, how many, whether they are names; the line begins at place at.
ghost use Rattle.std.specs.Prelude.{◌≡◌, ◌<◌};
ghost use Rattle.grammar.specs.Rows.{row_at, word as word_of};
ghost use Rattle.grammar.specs.Lines.{faulty as faulty_of};
ghost use Rattle.names.specs.Alike.{Wordy};
ghost use Rattle.lines.specs.Took.{Told, Shaped};

use crate::{Taken, refused};
use fields::Fields;

// A place kept in 16 bits.
fn wide(place: u16) -> usize
    ensures { result ≡ place }
{
    place as usize
}

// Field i.
pub fn word(text: &[u8], at: usize, fields: Fields, i: usize) -> &[u8]
    requires told { Told text.now at fields }
    requires i_bound { (i < 5) × (i < fields.count) }
    ensures result_value { result.now ≡ word_of (row_at text.now at) i }
    ensures wordy { Wordy result.now }
{
    let b = wide(fields.from[i]);
    let e = wide(fields.to[i]);
    &text[b..e]
}

// The first of that many fields after the keyword that is no name, or 0.
fn faulty(text: &[u8], at: usize, fields: Fields, names: usize) -> u8
    requires told { Told text.now at fields }
    requires names_bound { (names < 5) × (names < fields.count) }
    ensures { result ≡ faulty_of (row_at text.now at) names }
{
    let mut i = 0;
    while i < names {
        i += 1;
        let size = fields.to[i] - fields.from[i];
        if size == 0 {
            return i as u8;
        }
        if 16 < size {
            return i as u8;
        }
    }
    0
}

// 24 for another number of fields, 25 where one of the first names is no name, else 0.
pub fn shape(text: &[u8], at: usize, fields: Fields, count: u16, names: usize) -> Taken
    requires told { Told text.now at fields }
    requires names_bound { (names < 5) × (names < count) }
    ensures { Shaped (row_at text.now at) count names result }
{
    if fields.count != count {
        return refused(24, 0);
    }
    let bad = faulty(text, at, fields, names);
    if bad != 0 {
        return refused(25, bad + 1);
    }
    refused(0, 0)
}

// A text noted: all of its reading but the packed bytes.
ghost use Rattle.std.specs.Prelude.{◌≡◌, length};
ghost use Rattle.grammar.specs.Draft.{loose as loose_of};
ghost use Rattle.notes.specs.Notes.{draft_of, Fit};
ghost use Rattle.text.specs.Walked.{Closed, Noticed};
ghost use Rattle.notes.specs.Layout.{places_size, slots_size};

use crate::{Noted, walk, whole, wide};
use notes::{Counts, LINES, Places, SOURCES, Slots, UNJOINED};

// The first input that is not joined, or the count of inputs.
fn loose(text: &[u8], places: &Places, slots: &Slots, counts: Counts) -> usize
    requires { Fit text.now places.now slots.now counts }
    ensures { result ≡ loose_of (draft_of text.now places.now
        slots.now counts) }
{
    let inputs = counts.inputs;
    let mut x = 0;
    while x < inputs {
        if slots[SOURCES + x] == UNJOINED {
            return x;
        }
        x += 1;
    }
    x
}

// Once all lines are noted: 33 where there is no unit, 31 where an input has no join.
fn close(text: &[u8], places: &Places, slots: &Slots, counts: Counts) -> Noted
    requires { Fit text.now places.now slots.now counts }
    ensures { Closed text.now places.now slots.now counts result }
{
    let units = counts.units;
    if units == 0 {
        return Noted {
            number: 33,
            place: 1,
            counts: counts,
        };
    }
    let x = loose(text, places, slots, counts);
    let inputs = counts.inputs;
    if x < inputs {
        return Noted {
            number: 31,
            place: wide(places[LINES + x]),
            counts: counts,
        };
    }
    Noted {
        number: 0,
        place: 0,
        counts: counts,
    }
}

// Notes a text, whatever its bytes: a refusal with its line, or the notes stand for its table.
pub fn note(text: &[u8], places: &mut Places, slots: &mut Slots) -> Noted
    requires { (length places.old ≡ places_size) × (length slots.old ≡ slots_size) }
    ensures { Noticed text.now places.new slots.new result }
{
    let none = Counts {
        units: 0,
        outputs: 0,
        inputs: 0,
        feeds: 0,
    };
    let checked = whole::check(text);
    let bad = checked.number;
    if bad != 0 {
        return Noted {
            number: bad,
            place: checked.place,
            counts: none,
        };
    }
    let fields = fields::fields_at(text, 0);
    if whole::version(text, fields) == 0 {
        return Noted {
            number: 23,
            place: 1,
            counts: none,
        };
    }
    let noted = walk::walk(text, places, slots, wide(fields.next));
    let number = noted.number;
    if number != 0 {
        return noted;
    }
    close(text, places, slots, noted.counts)
}

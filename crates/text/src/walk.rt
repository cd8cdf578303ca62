// The lines below the first, one after the other.
ghost use Rattle.std.specs.Prelude.{◌≡◌, ◌≤◌, length, drop};
ghost use Rattle.grammar.specs.Rows.{rows};
ghost use Rattle.grammar.specs.Draft.{blank};
ghost use Rattle.grammar.specs.Reading.{lines_from};
ghost use Rattle.text.specs.Walked.{Ended, Walked};
ghost use Rattle.notes.specs.Layout.{places_size, slots_size};

use crate::{Noted, wide};
use notes::{Counts, Places, Slots};

// Notes the lines from place a on, of which the first is line 2, until one is refused.
pub fn walk(text: &[u8], places: &mut Places, slots: &mut Slots, a: usize) -> Noted
    requires ended { Ended text.now }
    requires places_len { (length places.old ≡ places_size) × (length slots.old ≡ slots_size) }
    requires a_in_bounds { a ≤ length text.now }
    ensures { Walked text.now places.new slots.new result
        (λ room. lines_from room blank 2 (rows (drop a text.now))) }
{
    let mut counts = Counts {
        units: 0,
        outputs: 0,
        inputs: 0,
        feeds: 0,
    };
    let mut at = a;
    let mut number = 2;
    while at < text.len() {
        let fields = fields::fields_at(text, at);
        let taken = lines::line(text, places, slots, counts, at, fields, number);
        let bad = taken.number;
        if bad != 0 {
            return Noted {
                number: bad,
                place: number,
                counts: counts,
            };
        }
        let entry = taken.entry;
        counts = notes::note(places, slots, counts, entry, number as u16);
        at = wide(fields.next);
        number += 1;
    }
    Noted {
        number: 0,
        place: number,
        counts: counts,
    }
}

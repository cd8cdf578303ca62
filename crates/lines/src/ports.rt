// A port by the names of its unit and of itself.
ghost use Rattle.std.specs.Prelude.{◌<◌, ◌+◌};
ghost use Rattle.grammar.specs.Rows.{row_at};
ghost use Rattle.notes.specs.Ranks.{Ranked};
ghost use Rattle.notes.specs.Notes.{Fit};
ghost use Rattle.lines.specs.Took.{Told, Ported};

use crate::Port;
use crate::shape::word;
use fields::Fields;
use notes::{Counts, Places, Slots, UNITS};

// The unit that field i names and its port that the next names, of count names from name base on.
pub fn port(
    text: &[u8],
    places: &Places,
    slots: &Slots,
    counts: Counts,
    at: usize,
    fields: Fields,
    i: usize,
    base: usize,
    count: usize,
) -> Port
    requires fit { Fit text.now places.now slots.now counts }
    requires told { Told text.now at fields }
    requires i_bound { (i < 4) × (i + 1 < fields.count) }
    requires ranked { Ranked text.now places.now slots.now base count }
    ensures { Ported text.now places.now slots.now counts
        (row_at text.now at) i base count result }
{
    let units = counts.units;
    let owner = word(text, at, fields, i);
    let u = names::find(text, places, slots, UNITS, units, 0, owner);
    if units <= u {
        return Port {
            unit: u,
            number: 0,
            field: i as u8 + 1,
        };
    }
    let name = word(text, at, fields, i + 1);
    let x = names::find(text, places, slots, base, count, u as u8, name);
    if count <= x {
        return Port {
            unit: u,
            number: x,
            field: i as u8 + 2,
        };
    }
    Port {
        unit: u,
        number: x,
        field: 0,
    }
}

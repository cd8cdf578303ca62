// Reading a text table.
#![tactic(auto)]

ghost use Rattle.std.specs.Prelude.{◌≡◌, length};
ghost use Rattle.search.specs.Front.{fronted};
ghost use Rattle.grammar.specs.Reading.{reading};

mod noting;
mod pack;
mod walk;
mod whole;

use notes::{Counts, PLACES, SLOTS};

// A refusal's number with its place, or 0, and what has been noted.
#[derive(Clone, Copy)]
pub struct Noted {
    pub number: u8,
    pub place: usize,
    pub counts: Counts,
}

// 0 and the packed length, or the number of a refusal and its line.
#[derive(Clone, Copy)]
pub struct Answer {
    pub number: u8,
    pub place: usize,
}

// A place kept in 16 bits.
fn wide(place: u16) -> usize
    ensures { result ≡ place }
{
    place as usize
}

// Reads a text of any bytes into a packed table, at the front of a buffer of any size.
pub fn read(text: &[u8], out: &mut [u8]) -> Answer
    ensures value { result ≡ record {
      number = (reading (length out.old) text.now).number;
      place = (reading (length out.old) text.now).place;
    } }
    ensures out_after { out.new
        ≡ fronted (reading (length out.old) text.now).bytes
        out.old }
{
    let mut places = [0u16; PLACES];
    let mut slots = [0u8; SLOTS];
    let noted = noting::note(text, &mut places, &mut slots);
    let number = noted.number;
    if number != 0 {
        return Answer {
            number: number,
            place: noted.place,
        };
    }
    let counts = noted.counts;
    let size = pack::size(counts);
    if out.len() < size {
        return Answer {
            number: 34,
            place: 0,
        };
    }
    pack::pack(&slots, counts, out);
    Answer {
        number: 0,
        place: size,
    }
}

// What tests and desktop programs call and the box does not: the text, a judged run, precedence.
// The crate `desk_c` exports it to C.
#![tactic(auto)]

ghost use Rattle.std.specs.Prelude.{◌≡◌, length};
ghost use Rattle.table.specs.Packed.{shape_of};
ghost use Rattle.calls.specs.Precedence.{precedes as precedes-test};
ghost use Rattle.judge.specs.Taken.{taken};
ghost use Rattle.search.specs.Front.{fronted};
ghost use Rattle.grammar.specs.Reading.{reading};
ghost use Rattle.printing.specs.Listed.{listed};
ghost use Rattle.listing.specs.Listing.{listing};

use judge::{Run, Taken};

// A number, and a line or how many bytes were written, apart: a line may be above 255.
// Stays: C gets the two by value.
#[repr(C)]
#[derive(Clone, Copy)]
pub struct Reading {
    pub number: u8,
    pub place: usize,
}

// What is answered to a text.
impl From<text::Answer> for Reading {
    ghost from_gives = { λ answer given. given
        ≡ record { number = answer.number; place = answer.place } };

    fn from(answer: text::Answer) -> Reading {
        Reading {
            number: answer.number,
            place: answer.place,
        }
    }
}

// What is answered to a listing.
impl From<table::Answer> for Reading {
    ghost from_gives = { λ wrote given. given
        ≡ record { number = wrote.number; place = wrote.place } };

    fn from(listed: table::Answer) -> Reading {
        Reading {
            number: listed.number,
            place: listed.place,
        }
    }
}

// Reads a text into a packed table.
#[unsafe(no_mangle)]
pub extern "C" fn oorlichday_read(text: &[u8], table: &mut [u8]) -> Reading
    ensures value { result ≡ record {
      number = (reading (length table.old) text.now).number;
      place = (reading (length table.old) text.now).place;
    } }
    ensures table_after { table.new
        ≡ fronted (reading (length table.old) text.now).bytes
        table.old }
{
    Reading::from(text::read(text, table))
}

// Writes what the lister prints of a text, refused or not: 0 and its length; 34 and 0 if no room.
#[unsafe(no_mangle)]
pub extern "C" fn oorlichday_list(text: &[u8], out: &mut [u8]) -> Reading
    ensures value { result ≡ record {
      number = (listed (listing text.now) (length out.old)).answer.number;
      place = (listed (listing text.now) (length out.old)).answer.place;
    } }
    ensures out_after { out.new
        ≡ fronted (listed (listing text.now) (length out.old)).bytes
        out.old }
{
    Reading::from(listing::list(text, out))
}

// One call of a judged run: the next run with 0, or the run as it was with the refusal's number.
#[unsafe(no_mangle)]
pub extern "C" fn oorlichday_take(table: &[u8], run: Run, call: usize) -> Taken
    ensures { result ≡ taken table.now run call }
{
    run.take(table, call)
}

// Is the first call a direct predecessor of the second?
#[unsafe(no_mangle)]
pub extern "C" fn oorlichday_precedes(table: &[u8], first: usize, second: usize) -> bool
    ensures { result ≡ precedes-test (shape_of table.now) first second }
{
    calls::precedence::precedes(table, first, second)
}

// The archive of a desk: each function of `desk` under its own name as a symbol of C.
#![tactic(auto)]

ghost use Rattle.std.specs.Prelude.{◌≡◌, length};
ghost use Rattle.table.specs.Packed.{shape_of};
ghost use Rattle.calls.specs.Precedence.{precedes as precedes-test};
ghost use Rattle.judge.specs.Taken.{taken};
ghost use Rattle.search.specs.Front.{fronted};
ghost use Rattle.grammar.specs.Reading.{reading};
ghost use Rattle.printing.specs.Listed.{listed};
ghost use Rattle.listing.specs.Listing.{listing};

use desk::Reading;
use judge::{Run, Taken};

// Reads a text into a packed table.
#[unsafe(no_mangle)]
pub extern "C" fn oorlichday_read(text: &[u8], table: &mut [u8]) -> Reading
    ensures value { result ≡ record {
      number = (reading (length table.old) text.now).number;
      place = (reading (length table.old) text.now).place;
    } }
    ensures table_after { table.new
        ≡ fronted (reading (length table.old) text.now).bytes
        table.old }
{
    desk::oorlichday_read(text, table)
}

// Writes what the lister prints of a text, refused or not: 0 and its length; 34 and 0 if no room.
#[unsafe(no_mangle)]
pub extern "C" fn oorlichday_list(text: &[u8], out: &mut [u8]) -> Reading
    ensures value { result ≡ record {
      number = (listed (listing text.now) (length out.old)).answer.number;
      place = (listed (listing text.now) (length out.old)).answer.place;
    } }
    ensures out_after { out.new
        ≡ fronted (listed (listing text.now) (length out.old)).bytes
        out.old }
{
    desk::oorlichday_list(text, out)
}

// One call of a judged run: the next run with 0, or the run as it was with the refusal's number.
#[unsafe(no_mangle)]
pub extern "C" fn oorlichday_take(table: &[u8], run: Run, call: usize) -> Taken
    ensures { result ≡ taken table.now run call }
{
    desk::oorlichday_take(table, run, call)
}

// Is the first call a direct predecessor of the second?
#[unsafe(no_mangle)]
pub extern "C" fn oorlichday_precedes(table: &[u8], first: usize, second: usize) -> bool
    ensures { result ≡ precedes-test (shape_of table.now) first second }
{
    desk::oorlichday_precedes(table, first, second)
}

// What the lister prints of a text, written into a lent buffer.
#![tactic(auto)]

ghost use Rattle.std.specs.Prelude.{◌≡◌, length};
ghost use Rattle.search.specs.Front.{fronted};
ghost use Rattle.printing.specs.Listed.{listed};
ghost use Rattle.listing.specs.Listing.{listing};

use printing::{put_outcome, put_refusal};
use sorter::order::order;
use table::Answer;
use table::parts::stretch;
use text::read;

// Writes the order, cycle or refusal of a text of any bytes: 0 and its length, or 34 and no byte.
pub fn list(text: &[u8], out: &mut [u8]) -> Answer
    ensures value { result ≡ (listed (listing text.now) (length out.old)).answer }
    ensures out_after { out.new
        ≡ fronted (listed (listing text.now) (length out.old)).bytes
        out.old }
{
    let mut table = [0u8; 644];
    let mut calls = [0u8; 224];
    let reading = read(text, &mut table);
    if reading.number != 0 {
        return put_refusal(reading.number, reading.place, out);
    }
    let answer = order(stretch(&table, 0, reading.place), &mut calls);
    put_outcome(text, answer, &calls, out)
}

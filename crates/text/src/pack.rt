// The packed table, written from the notes.
ghost use Rattle.std.specs.Prelude.{◌+◌, ◌*◌, ◌≤◌, length, ◌≡◌};
ghost use Rattle.search.specs.Front.{fronted};
ghost use Rattle.text.specs.Packs.{Slotted, bytes_of};

use notes::{Counts, FEEDS, INPUT_OWNERS, KINDS, OUTPUT_OWNERS, SOURCES};

// The packed length.
pub fn size(counts: Counts) -> usize
    requires { (counts.outputs ≤ 96) × ((counts.inputs ≤ 96) × (counts.feeds ≤ 128)) }
    ensures { result ≡ 4 + counts.outputs + 3 * counts.inputs + 2 * counts.feeds }
{
    let outputs = counts.outputs;
    let inputs = counts.inputs;
    let feeds = counts.feeds;
    4 + outputs + 3 * inputs + 2 * feeds
}

// Writes the packed table at the front of a buffer that has the room.
pub fn pack(slots: &[u8], counts: Counts, out: &mut [u8])
    requires slotted { Slotted slots.now counts }
    requires counts_in_bounds { length (bytes_of slots.now counts) ≤ length out.old }
    ensures { out.new ≡ fronted (bytes_of slots.now counts) out.old }
{
    let outputs = counts.outputs;
    let inputs = counts.inputs;
    let feeds = counts.feeds;
    let mut at = pen::put_byte(out, 0, counts.units as u8);
    at = pen::put_byte(out, at, outputs as u8);
    at = pen::put_byte(out, at, inputs as u8);
    at = pen::put_byte(out, at, feeds as u8);
    at = pen::put(out, at, &slots[OUTPUT_OWNERS..OUTPUT_OWNERS + outputs]);
    at = pen::put(out, at, &slots[INPUT_OWNERS..INPUT_OWNERS + inputs]);
    at = pen::put(out, at, &slots[KINDS..KINDS + inputs]);
    at = pen::put(out, at, &slots[SOURCES..SOURCES + inputs]);
    pen::put(out, at, &slots[FEEDS..FEEDS + 2 * feeds]);
}

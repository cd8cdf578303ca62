// A name found in the notes by its owner and its bytes: the names of each kind by halves.
#![tactic(auto)]

ghost use Rattle.std.specs.Prelude.{◌≡◌, ◌∷◌, ◌<◌};
ghost use Rattle.search.specs.Least.{least_from};
ghost use Rattle.notes.specs.Compared.{compared};
ghost use Rattle.notes.specs.Ranks.{key_at, Ranked, Spotted};
ghost use Rattle.notes.specs.Notes.{named};
ghost use Rattle.names.specs.Alike.{Wordy};
ghost use Rattle.notes.specs.Layout.{names_size};

use notes::{OWNERS, Places, Slots};

mod words;

// The rank of a name, or where it would stand, and whether it is there.
#[derive(Clone, Copy)]
pub struct Spot {
    pub rank: usize,
    pub here: bool,
}

// A place kept in 16 bits.
fn wide(place: u16) -> usize
    ensures { result ≡ place }
{
    place as usize
}

// Name k beside the word as a name of that owner: 0 before it, 1 the same, 2 after it.
fn compare_key(text: &[u8], places: &Places, slots: &Slots, k: usize, owner: u8, word: &[u8]) -> u8
    requires k_lt_names_size { k < names_size }
    requires wordy { Wordy word.now }
    ensures { result ≡ compared (key_at text.now places.now slots.now k)
        (owner ∷ word.now) }
{
    let own = slots[OWNERS + k];
    if own < owner {
        return 0;
    }
    if owner < own {
        return 2;
    }
    words::compare(text, wide(places[k]), word)
}

// The rank of the word, as a name of that owner, among count names from name base on, or its place.
pub fn seek(
    text: &[u8],
    places: &Places,
    slots: &Slots,
    base: usize,
    count: usize,
    owner: u8,
    word: &[u8],
) -> Spot
    requires ranked { Ranked text.now places.now slots.now base count }
    requires wordy { Wordy word.now }
    ensures { Spotted text.now places.now slots.now base count owner
        word.now result.rank result.here }
{
    let mut lo = 0;
    let mut hi = count;
    while lo < hi {
        let mid = lo + (hi - lo) / 2;
        let k = slots[base + mid] as usize;
        let side = compare_key(text, places, slots, base + k, owner, word);
        if side == 1 {
            return Spot {
                rank: mid,
                here: true,
            };
        }
        if side == 0 {
            lo = mid + 1;
        } else {
            hi = mid;
        }
    }
    Spot {
        rank: lo,
        here: false,
    }
}

// The number of the word, as a name of that owner, among count names from name base on, or count.
pub fn find(
    text: &[u8],
    places: &Places,
    slots: &Slots,
    base: usize,
    count: usize,
    owner: u8,
    word: &[u8],
) -> usize
    requires ranked { Ranked text.now places.now slots.now base count }
    requires wordy { Wordy word.now }
    ensures { result ≡ least_from (named text.now places.now
        slots.now base owner word.now) count 0 }
{
    let spot = seek(text, places, slots, base, count, owner, word);
    if spot.here {
        let i = spot.rank;
        return slots[base + i] as usize;
    }
    count
}

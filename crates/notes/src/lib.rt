// The notes: what a text has declared, in two arrays and four counts; and one declaration more.
#![tactic(auto)]

ghost use Rattle.std.specs.Prelude.{◌≡◌, ◌+◌, ◌≤◌, ◌<◌, length};
ghost use Rattle.notes.specs.Noted.{put_in, named_places, named_slots, Became, Room};
ghost use Rattle.notes.specs.Noted.{more_units, more_outputs, more_inputs, more_feeds};
ghost use Rattle.notes.specs.Noted.{input_places, input_slots, feed_slots, join_slots};
ghost use Rattle.notes.specs.Noted.{counts_with, places_with, slots_with};
ghost use Rattle.notes.specs.Layout.{outputs_base, names_size, places_size, slots_size};

// Where the notes keep what: in places where each name begins, and then the line of each input.
pub const UNITS: usize = 0;

pub const OUTPUTS: usize = 32;

pub const INPUTS: usize = 128;

pub const LINES: usize = 224;

pub const PLACES: usize = 320;

// In slots the names' numbers by rank; then each name's owner, kinds, sources, and feeds by pairs.
pub const OWNERS: usize = 224;

pub const OUTPUT_OWNERS: usize = 256;

pub const INPUT_OWNERS: usize = 352;

pub const KINDS: usize = 448;

pub const SOURCES: usize = 544;

pub const FEEDS: usize = 640;

pub const FED: usize = 641;

pub const SLOTS: usize = 896;

// The source of an input that is not joined yet.
pub const UNJOINED: u8 = 255;

pub type Places = [u16; PLACES];

pub type Slots = [u8; SLOTS];

// How many of each have been noted.
#[derive(Clone, Copy)]
pub struct Counts {
    pub units: usize,
    pub outputs: usize,
    pub inputs: usize,
    pub feeds: usize,
}

// What a line declares, 1 a unit, 2 an output, 3 an input, 4 a feed, 5 a join, with its parts.
#[derive(Clone, Copy)]
pub struct Entry {
    pub what: u8,
    pub owner: u8,
    pub rank: u8,
    pub kind: u8,
    pub input: u8,
    pub output: u8,
    pub begin: u16,
}

// Puts a number in at slot a: what stands there and above, up to slot e, goes one slot further.
fn put_in(slots: &mut Slots, a: usize, e: usize, number: u8)
    requires a_le_e { (a ≤ e) × (e < names_size) }
    requires slots_len { length slots.old ≡ slots_size }
    ensures { slots.new ≡ put_in slots.old a e number }
{
    let mut i = e;
    while a < i {
        slots[i] = slots[i - 1];
        i -= 1;
    }
    slots[a] = number;
}

// Notes a name behind count names from name base on: where it begins, its owner and its rank.
fn note_name(places: &mut Places, slots: &mut Slots, base: usize, count: usize, entry: Entry)
    requires places_len { (length places.old ≡ places_size) × (length slots.old ≡ slots_size) }
    requires count_bound { (base + count < names_size) × (entry.rank ≤ count) }
    ensures places_after { places.new ≡ named_places places.old base count entry }
    ensures slots_after { slots.new ≡ named_slots slots.old base count entry }
{
    places[base + count] = entry.begin;
    slots[OWNERS + (base + count)] = entry.owner;
    put_in(slots, base + entry.rank as usize, base + count, count as u8);
}

// One unit more.
fn note_unit(places: &mut Places, slots: &mut Slots, counts: Counts, entry: Entry) -> Counts
    requires places_len { (length places.old ≡ places_size) × (length slots.old ≡ slots_size) }
    requires units_bound { (counts.units < 32) × (entry.rank ≤ counts.units) }
    ensures { Became places.new slots.new result
        (named_places places.old 0 counts.units entry)
        (named_slots slots.old 0 counts.units entry) (more_units counts) }
{
    let units = counts.units;
    note_name(places, slots, UNITS, units, entry);
    let mut more = counts;
    more.units = units + 1;
    more
}

// One output more.
fn note_output(places: &mut Places, slots: &mut Slots, counts: Counts, entry: Entry) -> Counts
    requires places_len { (length places.old ≡ places_size) × (length slots.old ≡ slots_size) }
    requires outputs_bound { (counts.outputs < 96) × (entry.rank ≤ counts.outputs) }
    ensures { Became places.new slots.new result
        (named_places places.old outputs_base counts.outputs entry)
        (named_slots slots.old outputs_base counts.outputs entry)
        (more_outputs counts) }
{
    let outputs = counts.outputs;
    note_name(places, slots, OUTPUTS, outputs, entry);
    let mut more = counts;
    more.outputs = outputs + 1;
    more
}

// One input more, declared on that line and not joined yet.
fn note_input(
    places: &mut Places,
    slots: &mut Slots,
    counts: Counts,
    entry: Entry,
    line: u16,
) -> Counts
    requires places_len { (length places.old ≡ places_size) × (length slots.old ≡ slots_size) }
    requires inputs_bound { (counts.inputs < 96) × (entry.rank ≤ counts.inputs) }
    ensures { Became places.new slots.new result
        (input_places places.old counts.inputs entry line)
        (input_slots slots.old counts.inputs entry) (more_inputs counts) }
{
    let inputs = counts.inputs;
    note_name(places, slots, INPUTS, inputs, entry);
    places[LINES + inputs] = line;
    slots[KINDS + inputs] = entry.kind;
    slots[SOURCES + inputs] = UNJOINED;
    let mut more = counts;
    more.inputs = inputs + 1;
    more
}

// One feed more.
fn note_feed(slots: &mut Slots, counts: Counts, entry: Entry) -> Counts
    requires slots_len { length slots.old ≡ slots_size }
    requires feeds_bound { counts.feeds < 128 }
    ensures value { result ≡ more_feeds counts }
    ensures slots_after { slots.new ≡ feed_slots slots.old counts.feeds entry }
{
    let feeds = counts.feeds;
    slots[FEEDS + 2 * feeds] = entry.input;
    slots[FED + 2 * feeds] = entry.output;
    let mut more = counts;
    more.feeds = feeds + 1;
    more
}

// An input joined to an output.
fn note_join(slots: &mut Slots, counts: Counts, entry: Entry) -> Counts
    requires slots_len { length slots.old ≡ slots_size }
    requires input_bound { entry.input < 96 }
    ensures value { result ≡ counts }
    ensures slots_after { slots.new ≡ join_slots slots.old entry }
{
    slots[SOURCES + entry.input as usize] = entry.output;
    counts
}

// Notes what a line declares, and nothing else.
pub fn note(
    places: &mut Places,
    slots: &mut Slots,
    counts: Counts,
    entry: Entry,
    line: u16,
) -> Counts
    requires { Room places.old slots.old counts entry }
    ensures { Became places.new slots.new result
        (places_with places.old counts entry line)
        (slots_with slots.old counts entry) (counts_with counts entry) }
{
    let what = entry.what;
    match what {
        1 => note_unit(places, slots, counts, entry),
        2 => note_output(places, slots, counts, entry),
        3 => note_input(places, slots, counts, entry, line),
        4 => note_feed(slots, counts, entry),
        5 => note_join(slots, counts, entry),
        _ => counts,
    }
}

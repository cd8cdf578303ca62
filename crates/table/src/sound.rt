// The counts and the parts of a sound table: all their bytes are there.
#![tactic(auto, unfolding(crate::specs::Layout::layout))]

ghost use Rattle.std.specs.Prelude.{◌≡◌, ◌≤◌, IfOk};
ghost use Rattle.table.specs.Shape.{total};
ghost use Rattle.table.specs.Packed.{units, outputs, inputs, feeds, shape_of};
ghost use Rattle.table.specs.Packed.{output_owners, input_owners, kinds, sources, pairs};
ghost use Rattle.table.specs.Sound.{Sound};
ghost use Rattle.table.specs.Check.{refusal as refusal_of};
ghost use Rattle.table.specs.Fault.{number_of};

use crate::Fault;
use crate::check::refusal;

// A sound table, by the bytes that it is packed in.
#[derive(Clone, Copy)]
pub struct Table<'a> {
    pub bytes: &'a [u8],
    ghost sound: { Sound bytes.now },
}

// Stays: through `parts`, which cuts at the end, `order` takes 136,580 instructions of 130,000.
impl<'a> Table<'a> {
    // The table that the bytes are, or the first fault that the check finds.
    pub fn new(bytes: &'a [u8]) -> Result<Table<'a>, Fault>
        ensures number { number_of result ≡ refusal_of bytes.now }
        ensures bytes { IfOk result (λ t. t.bytes.now ≡ bytes.now) }
    {
        refusal(bytes)?;
        Ok(Table { bytes })
    }

    // U.
    pub fn unit_count(self) -> usize
        ensures value { result ≡ units self.entry.bytes.now }
        ensures upper_bound { result ≤ 32 }
    {
        self.bytes[0] as usize
    }

    // Y.
    pub fn output_count(self) -> usize
        ensures value { result ≡ outputs self.entry.bytes.now }
        ensures upper_bound { result ≤ 96 }
    {
        self.bytes[1] as usize
    }

    // X.
    pub fn input_count(self) -> usize
        ensures value { result ≡ inputs self.entry.bytes.now }
        ensures upper_bound { result ≤ 96 }
    {
        self.bytes[2] as usize
    }

    // F.
    pub fn feed_count(self) -> usize
        ensures value { result ≡ feeds self.entry.bytes.now }
        ensures upper_bound { result ≤ 128 }
    {
        self.bytes[3] as usize
    }

    // N.
    pub fn call_count(self) -> usize
        ensures value { result ≡ total (shape_of self.entry.bytes.now) }
        ensures upper_bound { result ≤ 224 }
    {
        self.unit_count() + self.output_count() + self.input_count()
    }

    // The unit that owns each output.
    pub fn output_owners(self) -> &'a [u8]
        ensures { result.now ≡ output_owners self.entry.bytes.now }
    {
        let y = self.output_count();
        &self.bytes[4..4 + y]
    }

    // The unit that owns each input.
    pub fn input_owners(self) -> &'a [u8]
        ensures { result.now ≡ input_owners self.entry.bytes.now }
    {
        let a = 4 + self.output_count();
        let x = self.input_count();
        &self.bytes[a..a + x]
    }

    // Each input's kind: 0 delayed, 1 reactive.
    pub fn input_kinds(self) -> &'a [u8]
        ensures { result.now ≡ kinds self.entry.bytes.now }
    {
        let x = self.input_count();
        let a = 4 + self.output_count() + x;
        &self.bytes[a..a + x]
    }

    // Each input's source, an output.
    pub fn input_sources(self) -> &'a [u8]
        ensures { result.now ≡ sources self.entry.bytes.now }
    {
        let x = self.input_count();
        let a = 4 + self.output_count() + 2 * x;
        &self.bytes[a..a + x]
    }

    // The feeds, each a byte for its input and one for its output.
    pub fn feed_pairs(self) -> &'a [u8]
        ensures { result.now ≡ pairs self.entry.bytes.now }
    {
        let a = 4 + self.output_count() + 3 * self.input_count();
        let n = 2 * self.feed_count();
        &self.bytes[a..a + n]
    }
}

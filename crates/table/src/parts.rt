// The counts and the parts of a packed table; where there are no bytes, 0 and the empty part.
#![tactic(auto, unfolding(crate::specs::Layout::layout))]

ghost use Rattle.std.specs.Prelude.{◌≡◌, ◌<◌, get_or};
ghost use Rattle.table.specs.Shape.{total};
ghost use Rattle.table.specs.Packed.{
  units,
  outputs,
  inputs,
  feeds,
  part,
  output_owners,
  input_owners,
  kinds,
  sources,
  pairs,
  shape_of,
};

// The byte at a place, 0 past the end.
pub fn byte(bytes: &[u8], place: usize) -> usize
    ensures value { result ≡ get_or bytes.now place 0 }
    ensures upper_bound { result < 256 }
{
    usize::from(bytes.get(place).copied().unwrap_or(0))
}

// As many of `count` bytes from `from` on as there are.
pub fn stretch(bytes: &[u8], from: usize, count: usize) -> &[u8]
    ensures { result.now ≡ part bytes.now from count }
{
    let rest = &bytes[from.min(bytes.len())..];
    &rest[..count.min(rest.len())]
}

// U.
pub fn unit_count(table: &[u8]) -> usize
    ensures value { result ≡ units table.now }
    ensures upper_bound { result < 256 }
{
    byte(table, 0)
}

// Y.
pub fn output_count(table: &[u8]) -> usize
    ensures value { result ≡ outputs table.now }
    ensures upper_bound { result < 256 }
{
    byte(table, 1)
}

// X.
pub fn input_count(table: &[u8]) -> usize
    ensures value { result ≡ inputs table.now }
    ensures upper_bound { result < 256 }
{
    byte(table, 2)
}

// F.
pub fn feed_count(table: &[u8]) -> usize
    ensures value { result ≡ feeds table.now }
    ensures upper_bound { result < 256 }
{
    byte(table, 3)
}

// N.
pub fn call_count(table: &[u8]) -> usize
    ensures { result ≡ total (shape_of table.now) }
{
    unit_count(table) + output_count(table) + input_count(table)
}

// The unit that owns each output.
pub fn output_owners(table: &[u8]) -> &[u8]
    ensures { result.now ≡ output_owners table.now }
{
    stretch(table, 4, output_count(table))
}

// The unit that owns each input.
pub fn input_owners(table: &[u8]) -> &[u8]
    ensures { result.now ≡ input_owners table.now }
{
    stretch(table, 4 + output_count(table), input_count(table))
}

// Each input's kind: 0 delayed, 1 reactive.
pub fn input_kinds(table: &[u8]) -> &[u8]
    ensures { result.now ≡ kinds table.now }
{
    let x = input_count(table);
    stretch(table, 4 + output_count(table) + x, x)
}

// Each input's source, an output.
pub fn input_sources(table: &[u8]) -> &[u8]
    ensures { result.now ≡ sources table.now }
{
    let x = input_count(table);
    stretch(table, 4 + output_count(table) + 2 * x, x)
}

// The feeds, each a byte for its input and one for its output.
pub fn feed_pairs(table: &[u8]) -> &[u8]
    ensures { result.now ≡ pairs table.now }
{
    stretch(
        table,
        4 + output_count(table) + 3 * input_count(table),
        2 * feed_count(table),
    )
}

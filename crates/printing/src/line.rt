// One printed line: its fields put into a buffer that has room for them.
ghost use Rattle.std.specs.Prelude.{◌≡◌, ◌++◌, ◌∷◌, [], ◌+◌, ◌≤◌, length};
ghost use Rattle.pen.specs.Decimal.{decimal};
ghost use Rattle.pen.specs.Chain.{Wrote};
ghost use Rattle.printing.specs.Printed.{printed};

use pen::{digit_count, put, put_byte, put_number};

// A field and the byte that ends it.
pub fn put_field(out: &mut [u8], at: usize, s: &[u8], end: u8) -> usize
    requires { at + (length s.now + 1) ≤ length out.old }
    ensures { Wrote out.old at (s.now ++ (end ∷ [])) out.new result }
{
    let k = put(out, at, s);
    put_byte(out, k, end)
}

// A number as a field, and the byte that ends it.
pub fn put_count(out: &mut [u8], at: usize, n: usize, end: u8) -> usize
    requires { at + (length (decimal n) + 1) ≤ length out.old }
    ensures { Wrote out.old at (decimal n ++ (end ∷ [])) out.new result }
{
    let k = put_number(out, at, n);
    put_byte(out, k, end)
}

// The line of a call: its place, its word, its unit's name, its port's name.
pub fn put_entry(
    out: &mut [u8],
    at: usize,
    k: usize,
    word: &[u8],
    unit: &[u8],
    port: &[u8],
) -> usize
    requires { at + length (printed (decimal k ∷ word.now ∷ unit.now ∷ port.now ∷ []))
        ≤ length out.old }
    ensures { Wrote out.old at
        (printed (decimal k ∷ word.now ∷ unit.now ∷ port.now ∷ []))
        out.new result }
{
    let a = put_count(out, at, k, b'\t');
    let b = put_field(out, a, word, b'\t');
    let c = put_field(out, b, unit, b'\t');
    put_field(out, c, port, b'\n')
}

// How many bytes that line takes.
pub fn entry_length(k: usize, word: &[u8], unit: &[u8], port: &[u8]) -> usize
    requires { (length word.now ≤ 65535) × (length unit.now ≤ 65535)
        × (length port.now ≤ 65535) }
    ensures { result ≡ length (printed (decimal k ∷ word.now ∷ unit.now ∷ port.now
        ∷ [])) }
{
    digit_count(k) + word.len() + unit.len() + port.len() + 4
}

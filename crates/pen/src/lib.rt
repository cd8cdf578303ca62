// Writing into a lent buffer: bytes, one byte, a number. What does not fit is not written.
#![tactic(auto)]

ghost use Rattle.std.specs.Prelude.{◌≡◌, ◌∷◌, [], ◌+◌, length, leb};
ghost use Rattle.pen.specs.Put.{Put};
ghost use Rattle.pen.specs.Decimal.{decimal};

// Is there room for n bytes from place at on, in a buffer of size bytes?
fn has_room(size: usize, at: usize, n: usize) -> bool
    ensures { result ≡ leb (at + n) size }
{
    if size < n {
        return false;
    }
    at <= size - n
}

// Puts the bytes s at place at, and answers the place behind them, or at if they do not fit.
pub fn put(out: &mut [u8], at: usize, s: &[u8]) -> usize
    ensures { Put out.old at s.now out.new result }
{
    if !has_room(out.len(), at, s.len()) {
        return at;
    }
    let mut i = 0;
    while i < s.len() {
        out[at + i] = s[i];
        i += 1;
    }
    at + i
}

// Puts one byte.
pub fn put_byte(out: &mut [u8], at: usize, b: u8) -> usize
    ensures { Put out.old at (b ∷ []) out.new result }
{
    if out.len() <= at {
        return at;
    }
    out[at] = b;
    at + 1
}

// Puts a number in decimal.
pub fn put_number(out: &mut [u8], at: usize, n: usize) -> usize
    ensures { Put out.old at (decimal n) out.new result }
{
    let mut digits = [0u8; 20];
    let mut i = 19;
    let mut m = n;
    while 10 <= m {
        digits[i] = 48 + (m % 10) as u8;
        m = m / 10;
        i -= 1;
    }
    digits[i] = 48 + m as u8;
    put(out, at, &digits[i..])
}

// How many digits a number has in decimal.
pub fn digit_count(n: usize) -> usize
    ensures { result ≡ length (decimal n) }
{
    let mut count = 1;
    let mut m = n;
    while 10 <= m {
        m = m / 10;
        count += 1;
    }
    count
}

// Looking over a whole text: its first byte that is not allowed, and on which line a byte stands.
#![tactic(auto)]

ghost use Rattle.std.specs.Prelude.{◌≡◌};
ghost use Rattle.grammar.specs.Words.{lf, allowed};
ghost use Rattle.grammar.specs.Rows.{times, first_bad};

// Letters a to z, digits, underscore, tab, LF: SPECIFICATION, Text 1.
fn is_allowed(b: u8) -> bool
    ensures { result ≡ allowed b }
{
    if b'a' <= b {
        return b <= b'z';
    }
    if b == b'_' {
        return true;
    }
    if b'0' <= b {
        return b <= b'9';
    }
    if b == b'\t' {
        return true;
    }
    b == b'\n'
}

// The place of the first byte that is not allowed, or the length.
pub fn first_bad(text: &[u8]) -> usize
    ensures { result ≡ first_bad text.now }
{
    let mut i = 0;
    while i < text.len() {
        if !is_allowed(text[i]) {
            return i;
        }
        i += 1;
    }
    i
}

// How many lines end in these bytes.
pub fn line_ends(text: &[u8]) -> usize
    ensures { result ≡ times lf text.now }
{
    let mut count = 0;
    let mut i = 0;
    while i < text.len() {
        if text[i] == b'\n' {
            count += 1;
        }
        i += 1;
    }
    count
}

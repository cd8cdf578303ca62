// A name in the text compared with a word.
ghost use Rattle.std.specs.Prelude.{◌≡◌, []};
ghost use Rattle.search.specs.Least.{least_from};
ghost use Rattle.grammar.specs.Words.{same};
ghost use Rattle.grammar.specs.Rows.{field_at};
ghost use Rattle.notes.specs.Compared.{compared};
ghost use Rattle.names.specs.Alike.{Wordy, differs, shorter, Common};

use table::parts;

// Is the field that begins at place a empty?
fn is_empty(text: &[u8], a: usize) -> bool
    ensures { result ≡ same [] (field_at text.now a) }
{
    if text.len() <= a {
        return true;
    }
    let b = text[a];
    if b == 10 {
        return true;
    }
    b == 9
}

// The length of the shorter of two stretches.
fn length_of_shorter(p: &[u8], q: &[u8]) -> usize
    ensures { result ≡ shorter p.now q.now }
{
    let most = p.len();
    if q.len() < most {
        return q.len();
    }
    most
}

// How many first bytes two stretches have in common.
fn common(p: &[u8], q: &[u8]) -> usize
    ensures { result ≡ least_from (differs p.now q.now)
        (shorter p.now q.now) 0 }
{
    let most = length_of_shorter(p, q);
    let mut i = 0;
    while i < most {
        if p[i] != q[i] {
            return i;
        }
        i += 1;
    }
    i
}

// How many first bytes the field that begins at place a and the word have in common.
fn alike(text: &[u8], a: usize, word: &[u8]) -> usize
    requires { Wordy word.now }
    ensures { Common text.now a word.now result }
{
    common(parts::stretch(text, a, word.len()), word)
}

// The field that begins at place a beside the word: 0 before it, 1 the same, 2 after it.
pub fn compare(text: &[u8], a: usize, word: &[u8]) -> u8
    requires { Wordy word.now }
    ensures { result ≡ compared (field_at text.now a) word.now }
{
    let i = alike(text, a, word);
    if i < word.len() {
        if is_empty(text, a + i) {
            return 0;
        }
        if text[a + i] < word[i] {
            return 0;
        }
        return 2;
    }
    if is_empty(text, a + i) {
        return 1;
    }
    2
}

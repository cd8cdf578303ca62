// Comparing bytes, and where the fields of a line begin and end in a text.
#![tactic(auto)]

ghost use Rattle.std.specs.Prelude.{◌≡◌, ◌<◌};
ghost use Rattle.grammar.specs.Words.{same as same_bytes};
ghost use Rattle.grammar.specs.Rows.{word_end};
ghost use Rattle.fields.specs.Spans.{no_fields, one_more, fields_at};

// A line's fields: where the first five begin and end, how many there are, where the next line is.
#[derive(Clone, Copy)]
pub struct Fields {
    pub from: [u16; 5],
    pub to: [u16; 5],
    pub count: u16,
    pub next: u16,
}

// Are these the same bytes?
pub fn same(a: &[u8], b: &[u8]) -> bool
    ensures { result ≡ same_bytes a.now b.now }
{
    if a.len() != b.len() {
        return false;
    }
    let mut i = 0;
    while i < a.len() {
        if a[i] != b[i] {
            return false;
        }
        i += 1;
    }
    true
}

// The first tab or LF from place a on; else the end of the text, or a where that is behind it.
pub fn word_end(text: &[u8], a: usize) -> usize
    ensures { result ≡ word_end text.now a }
{
    let mut i = a;
    while i < text.len() {
        let b = text[i];
        if b == b'\n' {
            return i;
        }
        if b == b'\t' {
            return i;
        }
        i += 1;
    }
    i
}

impl Fields {
    // No field.
    pub fn none() -> Fields
        ensures { result ≡ no_fields }
    {
        Fields {
            from: [0; 5],
            to: [0; 5],
            count: 0,
            next: 0,
        }
    }

    // One field more, from place a up to place e.
    fn with(self, a: usize, e: usize) -> Fields
        requires { (self.count < 65535) × (a < 65535) × (e < 65535) }
        ensures { result ≡ one_more self a e }
    {
        let n = self.count as usize;
        let mut fields = self;
        fields.count = self.count + 1;
        fields.next = e as u16 + 1;
        if 5 <= n {
            return fields;
        }
        fields.from[n] = a as u16;
        fields.to[n] = e as u16;
        fields
    }
}

// The fields of the line at place a; none where no ended line is there or above 65,535 bytes.
pub fn fields_at(text: &[u8], a: usize) -> Fields
    ensures { result ≡ fields_at text.now a }
{
    if 65535 < text.len() {
        return Fields::none();
    }
    let mut fields = Fields::none();
    let mut at = a;
    loop {
        let e = word_end(text, at);
        if text.len() <= e {
            return Fields::none();
        }
        let more = fields.with(at, e);
        if text[e] == b'\n' {
            return more;
        }
        fields = more;
        at = e + 1;
    }
}

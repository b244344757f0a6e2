// The lines of a text of entries (01, Lookup: Adding): where a line ends, what is before a "#", fields
// parted by blanks, quote marks.

#![tactic(auto)]

ghost use Rattle.std.specs.Prelude.{◌≡◌, length};
ghost use Rattle.std.specs.Iterator.{YieldsFirstRef, at_most};
ghost use Rattle.texts.specs.Lists.{place};
ghost use Rattle.texts.specs.Text.{blank};
ghost use Rattle.lines.specs.Lines.{first_line, after_line, lines, content as content_of, unquoted, open_end, stripped};
ghost use Rattle.lines.specs.Lines.{ink, inked as inked_of, is_empty, field as field_of, after_field, fields};
ghost use Rattle.lines.specs.Left.{fields_left, lines_left};

// The first line of a text.
#[tactic(auto, unfolding(crate::specs::Lines::first_line))]
pub fn first_line(text: &[u8]) -> &[u8]
    ensures { result.now ≡ first_line text.now }
{
    records::head(text, texts::find(text, b'\n'))
}

// What stands behind the end of the first line.
#[tactic(auto, unfolding(crate::specs::Lines::after_line))]
fn after_line(text: &[u8]) -> &[u8]
    ensures { result.now ≡ after_line text.now }
{
    let end = records::tail(text, texts::find(text, b'\n'));
    records::tail(end, 1)
}

// A line cut at "#".
#[tactic(auto, unfolding(crate::specs::Lines::content))]
pub fn content(line: &[u8]) -> &[u8]
    ensures { result.now ≡ content_of line.now }
{
    records::head(line, texts::find(line, b'#'))
}

// How many bytes stand before the first blank.
fn find_blank(s: &[u8]) -> usize
    ensures { result ≡ place blank s.now }
{
    s.iter()
        .position(|&b| texts::is_blank(b))
        .unwrap_or(s.len())
}

// How many blanks stand at the front.
fn find_ink(s: &[u8]) -> usize
    ensures { result ≡ place ink s.now }
{
    s.iter()
        .position(|&b| !texts::is_blank(b))
        .unwrap_or(s.len())
}

// Whether there is nothing but blanks.
#[tactic(auto, unfolding(crate::specs::Lines::is_empty))]
pub fn is_empty(s: &[u8]) -> bool
    ensures { result ≡ is_empty s.now }
{
    s.len() <= find_ink(s)
}

// From the first field on.
#[tactic(auto, unfolding(crate::specs::Lines::inked))]
fn inked(s: &[u8]) -> &[u8]
    ensures { result.now ≡ inked_of s.now }
{
    records::tail(s, find_ink(s))
}

// The first field.
#[tactic(auto, unfolding(crate::specs::Lines::field))]
pub fn field(s: &[u8]) -> &[u8]
    ensures { result.now ≡ field_of s.now }
{
    let t = inked(s);
    records::head(t, find_blank(t))
}

// What stands behind the first field.
#[tactic(auto, unfolding(crate::specs::Lines::after_field))]
pub fn after_field(s: &[u8]) -> &[u8]
    ensures { result.now ≡ after_field s.now }
{
    let t = inked(s);
    records::tail(t, find_blank(t))
}

// The fields that are left of a line.
#[derive(Drop)]
pub struct Fields<'a> {
    rest: &'a [u8],
}

impl<'a> Fields<'a> {
    pub fn of(line: &'a [u8]) -> Fields<'a>
        ensures { fields_left result ≡ fields line.now }
    {
        Fields { rest: line }
    }
}

impl<'a> Iterator for Fields<'a> {
    type Item = &'a [u8];

    ghost next_gives = { YieldsFirstRef fields_left };

    ghost remaining = { λ f. at_most (length f.rest.now) };

    #[tactic(auto, using(crate::specs::Laws::Turns::field_turns))]
    fn next(&mut self) -> Option<&'a [u8]> {
        let line = self.rest;
        if is_empty(line) {
            return None;
        }
        self.rest = after_field(line);
        Some(field(line))
    }
}

// The lines that are left of a text.
#[derive(Drop)]
pub struct Lines<'a> {
    rest: &'a [u8],
}

impl<'a> Lines<'a> {
    pub fn of(text: &'a [u8]) -> Lines<'a>
        ensures { lines_left result ≡ lines text.now }
    {
        Lines { rest: text }
    }
}

impl<'a> Iterator for Lines<'a> {
    type Item = &'a [u8];

    ghost next_gives = { YieldsFirstRef lines_left };

    ghost remaining = { λ l. at_most (length l.rest.now) };

    #[tactic(auto, using(crate::specs::Laws::Turns::line_turns))]
    fn next(&mut self) -> Option<&'a [u8]> {
        let text = self.rest;
        if text.is_empty() {
            return None;
        }
        self.rest = after_line(text);
        Some(first_line(text))
    }
}

// How many quote marks stand at the front.
fn find_unquoted(s: &[u8]) -> usize
    ensures { result ≡ place unquoted s.now }
{
    s.iter().position(|&b| b != b'"').unwrap_or(s.len())
}

// A word without the quote marks at its end.
#[tactic(auto, using(crate::specs::Lines::open_turn, crate::specs::Lines::open_stop, crate::specs::Lines::open_none))]
fn open_end(word: &[u8]) -> &[u8]
    ensures { result.now ≡ open_end word.now }
{
    let mut s = word;
    while let [front @ .., b'"'] = s {
        s = front;
    }
    s
}

// A word stripped of all outer quote marks.
#[tactic(auto, unfolding(crate::specs::Lines::stripped))]
pub fn strip(word: &[u8]) -> &[u8]
    ensures { result.now ≡ stripped word.now }
{
    open_end(records::tail(word, find_unquoted(word)))
}

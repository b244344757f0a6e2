// Byte strings: case folding, blanks, equality, bytewise order, and what may be a word or a tag.
#![tactic(auto)]

ghost use Rattle.std.specs.Prelude.{◌≡◌, ◌&&◌, ◌<◌, get_or, take, drop, leb};
ghost use Rattle.texts.specs.Choice.{bit};
ghost use Rattle.texts.specs.Lists.{place};
ghost use Rattle.texts.specs.Text.{folded, blank, is, same as equal, smaller as before, ascii, is_word, agree as agree_of};
ghost use Rattle.texts.specs.Laws.Largest.{larger as larger_of, largest as largest_of};
ghost use Rattle.texts.specs.Laws.Mixed.{mixed as mixed_of};

// A byte as a size.
pub fn wide(b: u8) -> usize
    ensures { (result ≡ b) × (result < 256) }
{
    usize::from(b)
}

// Both of two tests.
pub fn both(a: bool, b: bool) -> bool
    ensures { result ≡ (a && b) }
{
    a && b
}

// 1 for A to Z and 0 for every other byte, without a branch (02, S-3): counted from A on, round 256, A to Z are 0 to 25.
fn capital(b: u8) -> u8
    ensures { result ≡ bit (leb 65 b && leb b 90) }
{
    let place = (b as u16 + 191) % 256;
    (1 - (place + 230) / 256) as u8
}

// A to Z become a to z.
pub fn fold(b: u8) -> u8
    ensures { result ≡ folded b }
{
    b + 32 * capital(b)
}

#[tactic(auto, unfolding(crate::specs::Text::blank))]
pub fn is_blank(b: u8) -> bool
    ensures { result ≡ blank b }
{
    matches!(b, 9..=13 | 32)
}

// Whether two strings have the same bytes.
pub fn same(a: &[u8], b: &[u8]) -> bool
    ensures { result ≡ equal a.now b.now }
{
    a == b
}

// Whether a stands before b in bytewise order.
pub fn smaller(a: &[u8], b: &[u8]) -> bool
    ensures { result ≡ before a.now b.now }
{
    // Not `a < b`: tried, and over a quarter slower where words share a long front.
    for i in 0..a.len().min(b.len()) {
        if a[i] != b[i] {
            return a[i] < b[i];
        }
    }
    a.len() < b.len()
}

// The place of the first byte b, the length where there is none.
pub fn find(s: &[u8], b: u8) -> usize
    ensures { result ≡ place (is b) s.now }
{
    s.iter().position(|&x| x == b).unwrap_or(s.len())
}

// The larger of two bytes.
#[tactic(auto, unfolding(crate::specs::Laws::Largest::larger))]
fn larger(a: u8, b: u8) -> u8
    ensures { result ≡ larger_of a b }
{
    a.max(b)
}

// The largest byte, 0 of none. Without an early return the loop reads many bytes at once.
pub fn largest(s: &[u8]) -> u8
    ensures { result ≡ largest_of s.now }
{
    let mut m = 0u8;
    for &b in s {
        m = larger(m, b);
    }
    m
}

// Whether every byte is below 128, one by one.
fn are_low(s: &[u8]) -> bool
    ensures { result ≡ ascii s.now }
{
    s.iter().all(|&x| x < 128)
}

// Whether every byte is below 128. A short text is told faster one by one, a long one by its largest byte.
pub fn is_ascii(s: &[u8]) -> bool
    ensures { result ≡ ascii s.now }
{
    if s.len() < 8 {
        return are_low(s);
    }
    largest(s) < 128
}

// Whether s may be a word or a tag.
#[tactic(auto, unfolding(crate::specs::Text::is_word))]
pub fn is_word(s: &[u8]) -> bool
    ensures { result ≡ is_word s.now }
{
    s.len() <= 47 && is_ascii(s)
}

// The first byte of a tag, "0" where there is none.
pub fn first_or_any(tag: &[u8]) -> u8
    ensures { result ≡ get_or tag.now 0 48 }
{
    tag.first().copied().unwrap_or(48)
}

// Whether one tag is another; or, where "0" is any tag, one of them is "0".
#[tactic(auto, unfolding(crate::specs::Text::agree))]
pub fn agree(any: bool, a: u8, b: u8) -> bool
    ensures { result ≡ agree_of any a b }
{
    a == b || (any && (a == 48 || b == 48))
}

// The text behind its length byte, as much of it as the row has.
pub fn counted(row: &[u8]) -> &[u8]
    ensures { result.now ≡ take (get_or row.now 0 0) (drop 1 row.now) }
{
    let Some((&n, rest)) = row.split_first() else {
        return row;
    };
    &rest[..rest.len().min(usize::from(n))]
}

// The bytes of a string taken into a number, by which most strings are told apart.
pub fn mixed(start: u16, s: &[u8]) -> u16
    ensures { result ≡ mixed_of start s.now }
{
    let mut h = start as u32;
    for &b in s {
        h = (31 * h + (b as u32)) % 65536;
    }
    h as u16
}

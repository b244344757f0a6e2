// The 42 addenda (01, Lookup): words that the compiled entries would get wrong.

#![tactic(auto)]

ghost use Rattle.std.specs.Prelude.{◌≡◌, false, MatchOption, ◌++◌, map, ◌*◌, ◌≤◌, ◌<◌, length, get_or, drop};
ghost use Rattle.texts.specs.Lists.{place};
ghost use Rattle.cells.specs.Cells.{text, cells_of};
ghost use Rattle.addenda.specs.Addenda.{addenda, no_addendum, encoded};
ghost use Rattle.addenda.specs.Find.{is_meant};
ghost use Rattle.addenda.specs.Laws.Rows.{is_meant_by};
ghost use Rattle.addenda.specs.Laws.Starts.{is_start};

// A row: a tag, a length byte and six bytes for the word, a count, and as many cells of a length
// byte and three bytes for the phones, of which there are at most eight.
const ADDENDA: [[u8; 41]; 42] = [
    *b"p\x01,\0\0\0\0\0\x00\0\0\0\0\0\0\0\0\0\0\0\0\0\0\0\0\0\0\0\0\0\0\0\0\0\0\0\0\0\0\0\0",
    *b"p\x01.\0\0\0\0\0\x00\0\0\0\0\0\0\0\0\0\0\0\0\0\0\0\0\0\0\0\0\0\0\0\0\0\0\0\0\0\0\0\0",
    *b"p\x01(\0\0\0\0\0\x00\0\0\0\0\0\0\0\0\0\0\0\0\0\0\0\0\0\0\0\0\0\0\0\0\0\0\0\0\0\0\0\0",
    *b"p\x01)\0\0\0\0\0\x00\0\0\0\0\0\0\0\0\0\0\0\0\0\0\0\0\0\0\0\0\0\0\0\0\0\0\0\0\0\0\0\0",
    *b"p\x01[\0\0\0\0\0\x00\0\0\0\0\0\0\0\0\0\0\0\0\0\0\0\0\0\0\0\0\0\0\0\0\0\0\0\0\0\0\0\0",
    *b"p\x01]\0\0\0\0\0\x00\0\0\0\0\0\0\0\0\0\0\0\0\0\0\0\0\0\0\0\0\0\0\0\0\0\0\0\0\0\0\0\0",
    *b"p\x01{\0\0\0\0\0\x00\0\0\0\0\0\0\0\0\0\0\0\0\0\0\0\0\0\0\0\0\0\0\0\0\0\0\0\0\0\0\0\0",
    *b"p\x01}\0\0\0\0\0\x00\0\0\0\0\0\0\0\0\0\0\0\0\0\0\0\0\0\0\0\0\0\0\0\0\0\0\0\0\0\0\0\0",
    *b"p\x01:\0\0\0\0\0\x00\0\0\0\0\0\0\0\0\0\0\0\0\0\0\0\0\0\0\0\0\0\0\0\0\0\0\0\0\0\0\0\0",
    *b"p\x01;\0\0\0\0\0\x00\0\0\0\0\0\0\0\0\0\0\0\0\0\0\0\0\0\0\0\0\0\0\0\0\0\0\0\0\0\0\0\0",
    *b"p\x01?\0\0\0\0\0\x00\0\0\0\0\0\0\0\0\0\0\0\0\0\0\0\0\0\0\0\0\0\0\0\0\0\0\0\0\0\0\0\0",
    *b"p\x01!\0\0\0\0\0\x00\0\0\0\0\0\0\0\0\0\0\0\0\0\0\0\0\0\0\0\0\0\0\0\0\0\0\0\0\0\0\0\0",
    *b"p\x01'\0\0\0\0\0\x00\0\0\0\0\0\0\0\0\0\0\0\0\0\0\0\0\0\0\0\0\0\0\0\0\0\0\0\0\0\0\0\0",
    *b"p\x01`\0\0\0\0\0\x00\0\0\0\0\0\0\0\0\0\0\0\0\0\0\0\0\0\0\0\0\0\0\0\0\0\0\0\0\0\0\0\0",
    *b"p\x01\"\0\0\0\0\0\x00\0\0\0\0\0\0\0\0\0\0\0\0\0\0\0\0\0\0\0\0\0\0\0\0\0\0\0\0\0\0\0\0",
    *b"p\x01-\0\0\0\0\0\x00\0\0\0\0\0\0\0\0\0\0\0\0\0\0\0\0\0\0\0\0\0\0\0\0\0\0\0\0\0\0\0\0",
    *b"p\x01<\0\0\0\0\0\x00\0\0\0\0\0\0\0\0\0\0\0\0\0\0\0\0\0\0\0\0\0\0\0\0\0\0\0\0\0\0\0\0",
    *b"p\x01>\0\0\0\0\0\x00\0\0\0\0\0\0\0\0\0\0\0\0\0\0\0\0\0\0\0\0\0\0\0\0\0\0\0\0\0\0\0\0",
    *b"n\x01@\0\0\0\0\0\x02\x03ae1\x01t\0\0\0\0\0\0\0\0\0\0\0\0\0\0\0\0\0\0\0\0\0\0\0\0\0\0",
    *b"n\x01#\0\0\0\0\0\x03\x02hh\0\x03ae1\x02sh\0\0\0\0\0\0\0\0\0\0\0\0\0\0\0\0\0\0\0\0\0",
    *b"n\x01$\0\0\0\0\0\x04\x01d\0\0\x03aa1\x01l\0\0\x02er\0\0\0\0\0\0\0\0\0\0\0\0\0\0\0\0\0",
    *b"n\x01%\0\0\0\0\0\x06\x01p\0\0\x02er\0\x01s\0\0\x03eh1\x01n\0\0\x01t\0\0\0\0\0\0\0\0\0\0",
    *b"n\x01^\0\0\0\0\0\x05\x01k\0\0\x03eh1\x01r\0\0\x03eh1\x01t\0\0\0\0\0\0\0\0\0\0\0\0\0\0",
    *b"n\x01&\0\0\0\0\0\x08\x03ae1\x01m\0\0\x01p\0\0\x02er\0\x01s\0\0\x03ae1\x01n\0\0\x01d\0\0",
    *b"n\x01*\0\0\0\0\0\x07\x03ae1\x01s\0\0\x01t\0\0\x02er\0\x03ih1\x01s\0\0\x01k\0\0\0\0\0\0",
    *b"n\x01|\0\0\0\0\0\x03\x01b\0\0\x03aa1\x01r\0\0\0\0\0\0\0\0\0\0\0\0\0\0\0\0\0\0\0\0\0\0",
    *b"n\x01\\\0\0\0\0\0\x07\x01b\0\0\x03ae1\x01k\0\0\x01s\0\0\x01l\0\0\x03ae1\x02sh\0\0\0\0\0",
    *b"n\x01/\0\0\0\0\0\x04\x01s\0\0\x01l\0\0\x03ae1\x02sh\0\0\0\0\0\0\0\0\0\0\0\0\0\0\0\0\0",
    *b"n\x01=\0\0\0\0\0\x06\x03iy1\x01k\0\0\x01w\0\0\x02ax\0\x01l\0\0\x01z\0\0\0\0\0\0\0\0\0\0",
    *b"n\x01+\0\0\0\0\0\x04\x01p\0\0\x01l\0\0\x03ah1\x01s\0\0\0\0\0\0\0\0\0\0\0\0\0\0\0\0\0\0",
    *b"n\x01~\0\0\0\0\0\x05\x01t\0\0\x03ih1\x01l\0\0\x01d\0\0\x02ax\0\0\0\0\0\0\0\0\0\0\0\0\0",
    *b"n\x01_\0\0\0\0\0\x08\x03ah1\x01n\0\0\x01d\0\0\x02er\0\x01s\0\0\x01k\0\0\x03ao1\x01r\0\0",
    *b"s\x02's\0\0\0\0\x01\x01z\0\0\0\0\0\0\0\0\0\0\0\0\0\0\0\0\0\0\0\0\0\0\0\0\0\0\0\0\0\0",
    *b"n\x02im\0\0\0\0\x02\x03ay1\x01m\0\0\0\0\0\0\0\0\0\0\0\0\0\0\0\0\0\0\0\0\0\0\0\0\0\0",
    *b"v\x06doesnt\x05\x01d\0\0\x03ah1\x01z\0\0\x01n\0\0\x01t\0\0\0\0\0\0\0\0\0\0\0\0\0\0",
    *b"v\x05youll\0\x03\x01y\0\0\x03uw1\x01l\0\0\0\0\0\0\0\0\0\0\0\0\0\0\0\0\0\0\0\0\0\0",
    *b"v\x06havent\x06\x02hh\0\x03ae1\x01v\0\0\x02ax\0\x01n\0\0\x01t\0\0\0\0\0\0\0\0\0\0",
    *b"n\x02in\0\0\0\0\x02\x02ih\0\x01n\0\0\0\0\0\0\0\0\0\0\0\0\0\0\0\0\0\0\0\0\0\0\0\0\0\0",
    *b"n\x02to\0\0\0\0\x02\x01t\0\0\x02ax\0\0\0\0\0\0\0\0\0\0\0\0\0\0\0\0\0\0\0\0\0\0\0\0\0",
    *b"n\x05email\0\x04\x03iy1\x01m\0\0\x03ey1\x01l\0\0\0\0\0\0\0\0\0\0\0\0\0\0\0\0\0\0",
    *b"n\x04shit\0\0\x03\x02sh\0\x03ih1\x01t\0\0\0\0\0\0\0\0\0\0\0\0\0\0\0\0\0\0\0\0\0\0",
    *b"0\x02_a\0\0\0\0\x01\x02ey\0\0\0\0\0\0\0\0\0\0\0\0\0\0\0\0\0\0\0\0\0\0\0\0\0\0\0\0\0",
];

// The table.
fn rows() -> &'static [[u8; 41]; 42]
    ensures { result.now ≡ map encoded addenda }
{
    &ADDENDA
}

// Row n of the table.
pub fn addenda_row(n: usize) -> [u8; 41]
    requires { n < 42 }
    ensures { result ≡ encoded (get_or addenda n no_addendum) }
{
    rows()[n]
}

// The text at k of a row, behind its length byte.
#[tactic(auto, unfolding(cells::specs::Cells::text))]
fn text_at(row: &[u8], k: usize) -> &[u8]
    ensures { result.now ≡ text (drop k row.now) }
{
    texts::counted(records::tail(row, k))
}

// Whether a row has this word and a tag that agrees.
#[tactic(auto, unfolding(crate::specs::Laws::Rows::is_meant_by))]
fn is_meant(row: &[u8; 41], word: &[u8], tag: u8) -> bool
    ensures { result ≡ is_meant_by word.now tag row.now }
{
    texts::same(text_at(row, 1), word) && texts::agree(true, row[0], tag)
}

// Whether a row may be this byte: none is a letter or a digit.
#[tactic(auto, using(crate::specs::Laws::Starts::sign_out))]
fn may_be_sign(b: u8) -> bool
    ensures { result ≡ false → is_start 1 b ≡ false }
{
    match b {
        b'0'..=b'9' | b'A'..=b'Z' | b'a'..=b'z' => false,
        _ => true,
    }
}

// Whether a row's word may have this length and first byte.
#[tactic(auto, using(crate::specs::Laws::Starts::start_listed), unfolding(texts::specs::Lists::some))]
fn may_be_row(n: usize, first: u8) -> bool
    ensures { result ≡ false → is_start n first ≡ false }
{
    match n {
        1 => may_be_sign(first),
        2 => matches!(first, b'\'' | b'_' | b'i' | b't'),
        4 => first == b's',
        5 => matches!(first, b'e' | b'y'),
        6 => matches!(first, b'd' | b'h'),
        _ => false,
    }
}

// The first row with this word, unfolded, and a tag that agrees.
pub fn find(word: &[u8], tag: u8) -> Option<usize>
    ensures { MatchOption result (place (is_meant word.now tag) addenda ≡ 42) (λ n. (n ≡ place (is_meant word.now tag) addenda) × (n < 42)) }
{
    if !may_be_row(word.len(), records::byte_at(word, 0)) {
        return None;
    }
    rows().iter().position(|row| is_meant(row, word, tag))
}

// How many phones row n has.
pub fn count(n: usize) -> usize
    requires { n < 42 }
    ensures { (result ≡ length (get_or addenda n no_addendum).phones) × (result ≤ 8) }
{
    usize::from(addenda_row(n)[8])
}

// The phones of row n as cells at the front of out.
pub fn put_phones(out: &mut [u8], n: usize)
    requires { (n < 42) × (16 * length (get_or addenda n no_addendum).phones ≤ length out.old) }
    ensures { out.new ≡ cells_of (get_or addenda n no_addendum).phones ++ drop (16 * length (get_or addenda n no_addendum).phones) out.old }
{
    let row = addenda_row(n);
    for i in 0..count(n) {
        cells::put_cell(out, i, text_at(&row, 9 + 4 * i));
    }
}

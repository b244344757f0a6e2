// The form of each section that a call takes (01, Sections), and the phones of a table.

#![tactic(auto)]

ghost use Rattle.std.specs.Prelude.{◌≡◌, true, false, ◌≤◌, ◌<◌, ◌^◌, [], length, take, get_or, MatchOption};
ghost use Rattle.records.specs.Fields.{u32_at};
ghost use Rattle.data.specs.Sections.{is_phone_table, is_listed, is_lex_index, is_lts_index, is_lts_model, is_aswd, table_phones};
ghost use Rattle.reader.specs.Reader.{fits};
ghost use Rattle.data.specs.Places.{text_at, Placed, places as places_of};

use reader::Reader;

// The count at the front of lex.index.
pub fn count(s: &[u8]) -> usize
    ensures { (result ≡ u32_at s.now 0) × (result < 2 ^ 32) }
{
    records::u32_at(s, 0) as usize
}

// Whether s is a phone table (lex.phones, lts.phones); the places of its phones, if it is one. Its bytes are tested
// once, from the first string to the end of the last.
pub fn read_table(s: &[u8], places: &mut [u16]) -> bool
    requires { length places.old ≡ 256 }
    ensures value { result ≡ is_phone_table s.now }
    ensures placed { is_phone_table s.now ≡ true → Placed s.now places.new }
{
    let mut strings = Reader::new(s);
    let Some(n) = strings.read_number() else {
        return false;
    };
    if 256 < n {
        return false;
    }
    for place in &mut places[..n] {
        let position = strings.position() as u16;
        if strings.read_string().is_none() {
            return false;
        }
        *place = position;
    }
    texts::is_ascii(&s[4..strings.position()])
}

// The same, where nobody asks for the places.
pub fn is_phone_table(s: &[u8]) -> bool
    ensures { result ≡ is_phone_table s.now }
{
    let mut places = [0u16; 256];
    read_table(s, &mut places)
}

// How many phones a table has.
pub fn table_count(s: &[u8]) -> usize
    requires { is_phone_table s.now ≡ true }
    ensures { (result ≡ u32_at s.now 0) × (result ≤ 256) }
{
    Reader::new(s).read_number().unwrap()
}

// A phone table, and where each of its phones stands in it.
#[derive(Clone, Copy)]
pub struct Table<'a> {
    pub bytes: &'a [u8],
    pub places: &'a [u16; 256],
    ghost is_table: { is_phone_table bytes.now ≡ true },
    ghost placed: { take (u32_at bytes.now 0) places.now ≡ places_of (u32_at bytes.now 0) bytes.now 4 },
}

impl<'a> Table<'a> {
    // The table that these bytes are, if they are one; the places go into the memory that the caller lends for them.
    pub fn read(bytes: &'a [u8], places: &'a mut [u16; 256]) -> Option<Table<'a>>
        ensures { MatchOption result (is_phone_table bytes.now ≡ false) (λ t. t.bytes ≡ bytes.entry) }
    {
        if !read_table(bytes, places) {
            return None;
        }
        Some(Table { bytes, places })
    }

    // How many phones it has.
    pub fn len(&self) -> usize
        ensures { (result ≡ u32_at self.now.bytes.now 0) × (result ≤ 256) }
    {
        table_count(self.bytes)
    }

    // Phone n.
    pub fn phone(&self, n: u8) -> &'a [u8]
        requires { n < u32_at self.now.bytes.now 0 }
        ensures { result.now ≡ get_or (table_phones self.now.bytes.now) n [] }
    {
        phone_at(self.bytes, self.places[usize::from(n)])
    }
}

// The phone at a place of a table.
pub fn phone_at(s: &[u8], place: u16) -> &[u8]
    requires { fits s.now place ≡ true }
    ensures { result.now ≡ text_at s.now place }
{
    Reader::new(s)
        .moved(usize::from(place))
        .read_string()
        .unwrap()
}

// Whether a table lists this phone.
pub fn is_listed(s: &[u8], phone: &[u8]) -> bool
    requires { is_phone_table s.now ≡ true }
    ensures { result ≡ is_listed s.now phone.now }
{
    let mut strings = Reader::new(s).moved(4);
    for _ in 0..table_count(s) {
        let text = strings.read_string().unwrap();
        if texts::same(phone, text) {
            return true;
        }
    }
    false
}

#[tactic(auto, unfolding(crate::specs::Sections::is_lex_index))]
pub fn is_lex_index(s: &[u8]) -> bool
    ensures { result ≡ is_lex_index s.now }
{
    4 <= s.len() && 4 + 4 * count(s) <= s.len()
}

pub fn is_lts_index(s: &[u8]) -> bool
    ensures { result ≡ is_lts_index s.now }
{
    52 <= s.len()
}

#[tactic(auto, unfolding(crate::specs::Sections::is_lts_model))]
pub fn is_lts_model(s: &[u8]) -> bool
    ensures { result ≡ is_lts_model s.now }
{
    s.len() <= 393216 && s.len() % 6 == 0
}

// aswd.p and aswd.s
pub fn is_aswd(s: &[u8]) -> bool
    ensures { result ≡ is_aswd s.now }
{
    4 <= s.len()
}

// The 50 phones and their eight features (01, Phones), what is a vowel, and the stress of a phone.

#![tactic(auto)]

ghost use Rattle.std.specs.Prelude.{◌≡◌, [], ◌∷◌, map, ◌<◌, length, get_or, MatchOption};
ghost use Rattle.phoneset.specs.Phones.{phones, no_phone, encoded, row_of, is_vowel, is_known};
ghost use Rattle.versions.specs.Versions.{digits};
ghost use Rattle.phoneset.specs.Stress.{bare, stress};

// A row: a length byte and four bytes for the name, then vc, vlng, vheight, vfront, vrnd, ctype,
// cplace and cvox.
const PHONES: [[u8; 13]; 50] = [
    *b"\x02aa\0\0+l33-000",
    *b"\x02ae\0\0+s31-000",
    *b"\x02ah\0\0+s22-000",
    *b"\x02ao\0\0+l33+000",
    *b"\x02aw\0\0+d32-000",
    *b"\x02ax\0\0+a22-000",
    *b"\x03axr\0+a22-ra+",
    *b"\x02ay\0\0+d32-000",
    *b"\x01b\0\0\0-0000sl+",
    *b"\x02ch\0\0-0000ap-",
    *b"\x01d\0\0\0-0000sa+",
    *b"\x02dh\0\0-0000fd+",
    *b"\x02dx\0\0-a000sa+",
    *b"\x02eh\0\0+s21-000",
    *b"\x02el\0\0+s000la+",
    *b"\x02em\0\0+s000nl+",
    *b"\x02en\0\0+s000na+",
    *b"\x02er\0\0+a22-r00",
    *b"\x02ey\0\0+d21-000",
    *b"\x01f\0\0\0-0000fb-",
    *b"\x01g\0\0\0-0000sv+",
    *b"\x02hh\0\0-0000fg-",
    *b"\x02hv\0\0-0000fg+",
    *b"\x02ih\0\0+s11-000",
    *b"\x02iy\0\0+l11-000",
    *b"\x02jh\0\0-0000ap+",
    *b"\x01k\0\0\0-0000sv-",
    *b"\x01l\0\0\0-0000la+",
    *b"\x01m\0\0\0-0000nl+",
    *b"\x01n\0\0\0-0000na+",
    *b"\x02nx\0\0-0000nd+",
    *b"\x02ng\0\0-0000nv+",
    *b"\x02ow\0\0+d23+000",
    *b"\x02oy\0\0+d23+000",
    *b"\x01p\0\0\0-0000sl-",
    *b"\x01r\0\0\0-0000ra+",
    *b"\x01s\0\0\0-0000fa-",
    *b"\x02sh\0\0-0000fp-",
    *b"\x01t\0\0\0-0000sa-",
    *b"\x02th\0\0-0000fd-",
    *b"\x02uh\0\0+s13+000",
    *b"\x02uw\0\0+l13+000",
    *b"\x01v\0\0\0-0000fb+",
    *b"\x01w\0\0\0-0000rl+",
    *b"\x01y\0\0\0-0000rp+",
    *b"\x01z\0\0\0-0000fa+",
    *b"\x02zh\0\0-0000fp+",
    *b"\x03pau\0-000000-",
    *b"\x02h#\0\0-000000-",
    *b"\x04brth-000000-",
];

// The table.
fn rows() -> &'static [[u8; 13]; 50]
    ensures { result.now ≡ map encoded phones }
{
    &PHONES
}

// Row n of the table.
pub fn phone_row(n: usize) -> [u8; 13]
    requires { n < 50 }
    ensures { result ≡ encoded (get_or phones n no_phone) }
{
    rows()[n]
}

// The number of the phone's row, if it has one.
pub fn row_of(phone: &[u8]) -> Option<usize>
    ensures { MatchOption result (row_of phone.now ≡ 50) (λ n. (n ≡ row_of phone.now) × (n < 50)) }
{
    rows().iter().position(|row| texts::counted(row) == phone)
}

#[tactic(auto, unfolding(crate::specs::Phones::is_known))]
pub fn is_known(phone: &[u8]) -> bool
    ensures { result ≡ is_known phone.now }
{
    row_of(phone).is_some()
}

// Whether two letters are a vowel's name.
#[tactic(auto, using(crate::specs::Laws::Vowels::vowel_two), unfolding(texts::specs::Lists::some))]
fn is_vowel_pair(a: u8, b: u8) -> bool
    ensures { result ≡ is_vowel (a ∷ b ∷ []) }
{
    match a {
        b'a' => matches!(b, b'a' | b'e' | b'h' | b'o' | b'w' | b'x' | b'y'),
        b'e' => matches!(b, b'h' | b'l' | b'm' | b'n' | b'r' | b'y'),
        b'i' => matches!(b, b'h' | b'y'),
        b'o' => matches!(b, b'w' | b'y'),
        b'u' => matches!(b, b'h' | b'w'),
        _ => false,
    }
}

#[tactic(auto, using(crate::specs::Laws::Vowels::vowel_rest))]
pub fn is_vowel(phone: &[u8]) -> bool
    ensures { result ≡ is_vowel phone.now }
{
    match phone {
        &[a, b] => is_vowel_pair(a, b),
        _ => texts::same(phone, b"axr"),
    }
}

// How long the bare phone is, and its stress, 0 where it has none.
#[derive(Clone, Copy, Debug, PartialEq, Eq)]
pub struct Split {
    pub bare: usize,
    pub stress: u8,
}

// One last byte that is a stress in this version of a sheet (02, S-9) taken off.
pub fn split_stress(version: u8, phone: &[u8]) -> Split
    ensures { (result.bare ≡ length (bare (digits version) phone.now)) × (result.stress ≡ stress (digits version) phone.now) }
{
    match phone.split_last() {
        Some((&stress, front)) if versions::is_stress(version, stress) => Split {
            bare: front.len(),
            stress,
        },
        _ => Split {
            bare: phone.len(),
            stress: 0,
        },
    }
}

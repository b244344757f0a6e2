// The 63 onsets (01, Phones): phones joined that may begin a syllable.

#![tactic(auto)]

ghost use Rattle.std.specs.Prelude.{◌≡◌, [], ◌<◌, map, get_or};
ghost use Rattle.onsets.specs.Onsets.{onsets, encoded, is_onset};

// A row: a length byte and three bytes.
const ONSETS: [[u8; 4]; 63] = [
    *b"\x03str",
    *b"\x03spy",
    *b"\x03spr",
    *b"\x03spl",
    *b"\x03sky",
    *b"\x03skw",
    *b"\x03skr",
    *b"\x03skl",
    *b"\x02zw\0",
    *b"\x02zl\0",
    *b"\x02vy\0",
    *b"\x02vr\0",
    *b"\x02vl\0",
    *b"\x03thw",
    *b"\x03thr",
    *b"\x02ty\0",
    *b"\x02tw\0",
    *b"\x02tr\0",
    *b"\x03shw",
    *b"\x03shr",
    *b"\x03shn",
    *b"\x03shm",
    *b"\x03shl",
    *b"\x02sw\0",
    *b"\x02sv\0",
    *b"\x02st\0",
    *b"\x02sr\0",
    *b"\x02sp\0",
    *b"\x02sn\0",
    *b"\x02sm\0",
    *b"\x02sl\0",
    *b"\x02sk\0",
    *b"\x02sf\0",
    *b"\x02py\0",
    *b"\x02pw\0",
    *b"\x02pr\0",
    *b"\x02pl\0",
    *b"\x02ny\0",
    *b"\x02my\0",
    *b"\x02mr\0",
    *b"\x02ly\0",
    *b"\x02ky\0",
    *b"\x02kw\0",
    *b"\x02kr\0",
    *b"\x02kl\0",
    *b"\x03hhy",
    *b"\x03hhw",
    *b"\x03hhr",
    *b"\x03hhl",
    *b"\x02gy\0",
    *b"\x02gw\0",
    *b"\x02gr\0",
    *b"\x02gl\0",
    *b"\x02fy\0",
    *b"\x02fr\0",
    *b"\x02fl\0",
    *b"\x02dy\0",
    *b"\x02dw\0",
    *b"\x02dr\0",
    *b"\x02by\0",
    *b"\x02bw\0",
    *b"\x02br\0",
    *b"\x02bl\0",
];

// The table.
fn rows() -> &'static [[u8; 4]; 63]
    ensures { result.now ≡ map encoded onsets }
{
    &ONSETS
}

// Row n of the table.
pub fn onset_row(n: usize) -> [u8; 4]
    requires { n < 63 }
    ensures { result ≡ encoded (get_or onsets n []) }
{
    rows()[n]
}

// Whether a text is an onset.
pub fn is_onset(text: &[u8]) -> bool
    ensures { result ≡ is_onset onsets text.now }
{
    (0..63).any(|n| texts::counted(&onset_row(n)) == text)
}

// Syllables (01, Syllables): the marks after the phones of a list, by maximal onset.

#![tactic(auto)]

ghost use Rattle.std.specs.Prelude.{◌≡◌, false, ◌||◌, [], ◌++◌, ◌/◌, ◌<◌, ◌≤◌, length, get_or, take, drop};
ghost use Rattle.texts.specs.Choice.{when◌then◌else◌, bit};
ghost use Rattle.cells.specs.Cells.{phones_of};
ghost use Rattle.phoneset.specs.Phones.{is_vowel};
ghost use Rattle.onsets.specs.Onsets.{onsets, is_onset};
ghost use Rattle.answers.specs.Told.{told_count};
ghost use Rattle.syllabify.specs.Syllables.{joined as join, opens, cut, marks as marks_of, Joined, IsFirst};
ghost use Rattle.syllabify.specs.Call.{syllabify as answer, syllabified};

use answers::Refusal;

// The place of the first vowel of a list.
#[tactic(auto, using(crate::proofs::Syllables::vowels_ahead))]
fn next_vowel(rest: &[u8]) -> Option<usize>
    ensures { IsFirst is_vowel (phones_of rest.now) result }
{
    for i in 0..rest.len() / 16 {
        if phoneset::is_vowel(cells::phone(rest, i)) {
            return Some(i);
        }
    }
    None
}

// The first n phones of a list joined at the front of out; how many bytes that is.
#[tactic(auto, using(cells::specs::Cells::length_phones_of, cells::specs::Cells::phone_fits_lem), unfolding(crate::specs::Syllables::joined))]
fn joined(rest: &[u8], n: usize, out: &mut [u8]) -> usize
    requires { (n ≤ 3) × (n ≤ length rest.now / 16) × (length out.old ≡ 45) }
    ensures { Joined (join (take n (phones_of rest.now))) out.new result }
{
    let mut at = 0;
    for i in 0..n {
        let text = cells::phone(rest, i);
        records::copy_in(out, at, text);
        at += text.len();
    }
    at
}

// Whether the first n phones of a list, joined, are an onset.
fn is_cluster(rest: &[u8], n: usize) -> bool
    requires { (n ≤ 3) × (n ≤ length rest.now / 16) }
    ensures { result ≡ is_onset onsets (join (take n (phones_of rest.now))) }
{
    let mut text = [0u8; 45];
    let end = joined(rest, n, &mut text);
    onsets::is_onset(&text[..end])
}

// Whether a syllable that has its vowel ends before the phones of `rest`, whose first vowel stands at v.
fn opens_before(rest: &[u8], v: usize) -> bool
    requires { v < length rest.now / 16 }
    ensures { result ≡ opens onsets (get_or (phones_of rest.now) 0 []) (phones_of rest.now) v }
{
    match v {
        0 => true,
        _ if texts::same(cells::phone(rest, 0), b"ng") => false,
        1 => true,
        2 | 3 => is_cluster(rest, v),
        _ => false,
    }
}

// Whether a syllable ends before the phones of `rest`; `seen` tells whether it has its vowel.
#[tactic(auto, using(crate::proofs::Syllables::cut_end, crate::proofs::Syllables::cut_more, cells::specs::Cells::length_phones_of))]
fn cut_before(rest: &[u8], seen: bool) -> bool
    ensures { result ≡ cut onsets seen (phones_of rest.now) }
{
    if rest.len() < 16 || texts::same(cells::phone(rest, 0), b"pau") {
        return true;
    }
    match next_vowel(rest) {
        Some(v) => seen && opens_before(rest, v),
        None => false,
    }
}

// The marks of a list of phones.
pub fn mark(phones: &[u8], marks: &mut [u8])
    requires { length phones.now / 16 ≤ length marks.old }
    ensures { marks.new ≡ marks_of onsets false (phones_of phones.now) ++ drop (length (phones_of phones.now)) marks.old }
{
    let n = phones.len() / 16;
    let mut seen = false;
    for i in 0..n {
        seen = seen || phoneset::is_vowel(cells::phone(phones, i));
        let cut = cut_before(&phones[16 * (i + 1)..], seen);
        marks[i] = u8::from(cut);
        seen = seen && !cut;
    }
}

#[tactic(auto, using(cells::specs::Cells::length_phones_of), unfolding(crate::specs::Call::syllabify, crate::specs::Call::syllabified))]
pub fn syllabify(phones: &[u8], marks: &mut [u8]) -> Result<usize, Refusal>
    ensures result_value { told_count result ≡ answer phones.now marks.old }
    ensures marks_after { marks.new ≡ syllabified phones.now marks.old }
{
    if !cells::are_ascii(phones) {
        return Err(Refusal::Text);
    }
    let n = phones.len() / 16;
    if 96 < n || !cells::are_short(phones) {
        return Err(Refusal::Phones);
    }
    if marks.len() < n {
        return Err(Refusal::Short);
    }
    mark(phones, marks);
    Ok(n)
}

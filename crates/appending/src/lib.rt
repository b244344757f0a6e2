// A word put last on a sheet (01, Store and sheet). It comes as its text, its source, its bare phones in cells, and a cut for each
// phone: the stress of the syllable that ends there, 0 where none ends.

#![tactic(auto)]

ghost use Rattle.std.specs.Prelude.{◌≡◌, ℕ, List, cond, ◌+◌, ◌*◌, ◌/◌, ◌≤◌, ◌<◌, eqb, length};
ghost use Rattle.texts.specs.Lists.{from};
ghost use Rattle.records.specs.Records.{put_record};
ghost use Rattle.records.specs.Chain.{end_of};
ghost use Rattle.cells.specs.Cells.{phones_of};
ghost use Rattle.items_spec.specs.Item.{item as item_bytes};
ghost use Rattle.utterance_spec.specs.Tree.{syllables_at};
ghost use Rattle.utterance_spec.specs.Sheet.{at, used as used_of, items};
ghost use Rattle.utterance_spec.specs.Append.{head_or, size_in, numbered, phone_items, word_items, put_items, tied, appended};
ghost use Rattle.utterance_spec.specs.Cuts.{grouped, cut_word, Ended};
ghost use Rattle.appending.specs.Laws.Putting.{phone_item, one_syllable, syllables_from};

use utterance::{Fields, PHONE, SYLLABLE, WORD};

// How many items a word needs: its own, and one for each phone and for each syllable.
pub fn size(phones: &[u8], cuts: &[u8]) -> usize
    requires { (length cuts.now ≡ length phones.now / 16) × Ended cuts.now }
    ensures { result ≡ 1 + size_in (grouped cuts.now (phones_of phones.now)) }
{
    1 + phones.len() / 16 + cuts.iter().filter(|c| **c != 0).count()
}

// The number of the last syllable that cuts end, where the first is k; 0 if there is none.
fn last_syllable(cuts: &[u8], k: u16) -> u16
    requires { Ended cuts.now × (k + 2 * length cuts.now < 65536) }
    ensures { (ps : List (List ℕ)) → length cuts.now ≡ length ps → result ≡ end_of 0 (syllables_at (numbered k (grouped cuts.now ps))) }
{
    let mut y = 0;
    let mut n = k;
    for marks in cuts.split_inclusive(|&c| c != 0) {
        y = n;
        n += 1 + marks.len() as u16;
    }
    y
}

// The number n if there are more items to come, else d.
#[tactic(auto, using(crate::specs::Laws::Numbers::head_some, crate::specs::Laws::Numbers::head_none))]
fn next_or(d: u16, n: u16, left: usize) -> u16
    ensures { result ≡ head_or d (from n left) }
{
    if 0 < left { n } else { d }
}

// Phone n of syllable y, behind phone q; left phones of the syllable stand behind it, and then phone a.
fn put_phone(sheet: &mut [u8], n: u16, y: u16, q: u16, a: u16, left: usize, text: &[u8])
    requires { (n < items sheet.old) × (n < 1024) × (length text.now ≤ 47) }
    ensures { sheet.new ≡ put_record 64 sheet.old n (item_bytes (phone_item y q a n left text.now)) }
{
    let phone = Fields {
        kind: PHONE,
        next: next_or(0, n + 1, left),
        parent: y,
        prev: q,
        follow: next_or(a, n + 1, left),
        text,
        ..Fields::default()
    };
    utterance::put_item(sheet, n, &phone);
}

// The phones of syllable y, from item y + 1 on; phone q stands before them, and phone a behind.
fn put_phones(sheet: &mut [u8], y: u16, q: u16, a: u16, phones: &[u8])
    requires { (y + length phones.now / 16 < items sheet.old) × (length sheet.old ≤ 65536) }
    ensures { sheet.new ≡ put_items sheet.old (y + 1) (phone_items y q a (from (y + 1) (length phones.now / 16)) (phones_of phones.now)) }
{
    let count = phones.len() / 16;
    let mut n = y;
    let mut before = q;
    for j in 0..count {
        n += 1;
        let text = cells::phone(phones, j);
        put_phone(sheet, n, y, before, a, count - (j + 1), text);
        before = n;
    }
}

// Syllable k of word w, with the items of its phones; phone q stands before them, and left phones of the word behind.
fn put_syllable(sheet: &mut [u8], w: u16, q: u16, k: u16, stress: u8, phones: &[u8], left: usize)
    requires { (k + length phones.now / 16 < items sheet.old) × (length sheet.old ≤ 65536) }
    ensures { sheet.new ≡ put_items sheet.old k (one_syllable w q k stress (length phones.now / 16) left (phones_of phones.now)) }
{
    let end = k + (phones.len() / 16) as u16;
    let a = next_or(0, end + 2, left);
    let syllable = Fields {
        kind: SYLLABLE,
        stress,
        next: next_or(0, end + 1, left),
        first: k + 1,
        last: end,
        parent: w,
        ..Fields::default()
    };
    utterance::put_item(sheet, k, &syllable);
    put_phones(sheet, k, q, a, phones);
}

// The syllables of word w, from item w + 1 on; phone q stands before them.
fn put_syllables(sheet: &mut [u8], w: u16, q: u16, phones: &[u8], cuts: &[u8])
    requires { (length cuts.now ≡ length phones.now / 16) × Ended cuts.now × (w + size_in (grouped cuts.now (phones_of phones.now)) < items sheet.old) × (length sheet.old ≤ 65536) }
    ensures { sheet.new ≡ put_items sheet.old (w + 1) (syllables_from w q (w + 1) (grouped cuts.now (phones_of phones.now))) }
{
    let mut k = w + 1;
    let mut before = q;
    let mut left = phones;
    for marks in cuts.split_inclusive(|&c| c != 0) {
        let (own, behind) = left.split_at(16 * marks.len());
        let stress = marks[marks.len() - 1];
        put_syllable(sheet, w, before, k, stress, own, behind.len() / 16);
        before = k + marks.len() as u16;
        k = before + 1;
        left = behind;
    }
}

// A word from item n on; phone q stands before it.
fn put_word(sheet: &mut [u8], n: u16, q: u16, word: &[u8], source: u8, phones: &[u8], cuts: &[u8])
    requires { (length word.now ≤ 47) × (length cuts.now ≡ length phones.now / 16) × Ended cuts.now × (n + size_in (grouped cuts.now (phones_of phones.now)) < items sheet.old) × (length sheet.old ≤ 65536) }
    ensures { sheet.new ≡ put_items sheet.old n (word_items n q (cut_word word.now source cuts.now (phones_of phones.now))) }
{
    let item = Fields {
        kind: WORD,
        first: next_or(0, n + 1, cuts.len()),
        last: last_syllable(cuts, n + 1),
        source,
        text: word,
        ..Fields::default()
    };
    utterance::put_item(sheet, n, &item);
    put_syllables(sheet, n, q, phones, cuts);
}

// Where an item names the word behind it: its next sibling, or item 0's first child.
fn link(w: u16) -> usize
    ensures { (result ≡ cond (eqb w 0) 4 2) × (result ≤ 4) }
{
    if w == 0 { 4 } else { 2 }
}

// Ties word n and its first phone a behind word w and phone q, and patches item 0: its last word, its last phone z, and
// u items used.
#[tactic(auto, unfolding(utterance_spec::specs::Append::tied))]
fn tie(sheet: &mut [u8], w: u16, q: u16, n: u16, a: u16, z: u16, u: u16)
    requires { (w < items sheet.old) × (q < items sheet.old) }
    ensures { sheet.new ≡ tied sheet.old w q n a z u }
{
    records::put_u16(sheet, 64 * (w as usize) + link(w), n);
    records::put_u16(sheet, 64 * (q as usize) + 12, a);
    records::put_u16(sheet, 6, n);
    records::put_u16(sheet, 10, z);
    records::put_u16(sheet, 8, u);
}

// A word put last on a sheet that has room for it.
pub fn append(sheet: &mut [u8], word: &[u8], source: u8, phones: &[u8], cuts: &[u8])
    requires word_len_bound { (length word.now ≤ 47) × (length cuts.now ≡ length phones.now / 16) × Ended cuts.now }
    requires sheet_len_bound { (length sheet.old ≤ 65536) × ((at sheet.old 0).last ≤ used_of sheet.old) × ((at sheet.old 0).prev ≤ used_of sheet.old) }
    requires phones_bound { used_of sheet.old + (1 + size_in (grouped cuts.now (phones_of phones.now))) < items sheet.old }
    ensures { sheet.new ≡ appended sheet.old (cut_word word.now source cuts.now (phones_of phones.now)) }
{
    let w = utterance::last(sheet, 0);
    let q = utterance::prev(sheet, 0);
    let n = utterance::used(sheet) + 1;
    let end = utterance::used(sheet) + size(phones, cuts) as u16;
    let a = next_or(0, n + 2, cuts.len());
    let z = next_or(q, end, cuts.len());
    put_word(sheet, n, q, word, source, phones, cuts);
    tie(sheet, w, q, n, a, z, end);
}

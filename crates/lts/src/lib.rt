// Letter to sound (01, Letter trees): the phones of a word by the trees of its letters.

#![tactic(auto)]

ghost use Rattle.std.specs.Prelude.{◌≡◌, true, false, ◌+◌, ◌*◌, ◌≤◌, ◌<◌, length, take, MatchOption};
ghost use Rattle.std.proofs.Math.Option.{some};
ghost use Rattle.texts.specs.Text.{bytes, same};
ghost use Rattle.answers.specs.Told.{told_predicted};
ghost use Rattle.lts_spec.specs.Letters.{padded as padded_word, window as window_at, spoken, letter, letters, stopped, is_trees};
ghost use Rattle.lts.specs.Puts.{Puts, Spells};
ghost use Rattle.lts_spec.specs.Call.{told_phones, out_phones, predict as answer, predicted};

use answers::{Predicted, Refusal};
use data::Table;

// Where the phones of a word stand, from a cell of a list on; and the place where its letters stopped.
#[derive(Clone, Copy, Debug, PartialEq, Eq)]
pub struct Spelled {
    pub first: usize,
    pub stopped: usize,
}

// The folded word between "000#" and "#000", and more "0".
fn padded(word: &[u8]) -> [u8; 55]
    requires { length word.now ≤ 47 }
    ensures { take (length word.now + 8) result ≡ padded_word word.now }
{
    let mut text = [b'0'; 55];
    text[3] = b'#';
    for (i, &b) in word.iter().enumerate() {
        text[4 + i] = texts::fold(b);
    }
    text[4 + word.len()] = b'#';
    text
}

// The four bytes before place k of a text, and the four after it.
fn window(text: &[u8], k: usize) -> [u8; 8]
    requires { (4 ≤ k) × (k + 4 < length text.now) }
    ensures { result ≡ window_at text.now k }
{
    let mut features = [0; 8];
    features[..4].copy_from_slice(&text[k - 4..k]);
    features[4..].copy_from_slice(&text[k + 1..k + 5]);
    features
}

// Whether the phone of a leaf is none.
#[tactic(auto, unfolding(texts::specs::Text::same))]
fn is_epsilon(phone: &[u8]) -> bool
    ensures { result ≡ same (bytes "epsilon") phone.now }
{
    matches!(phone, b"epsilon")
}

// The phones of a leaf, put before cell `at` of a list; the first cell of them.
fn put_leaf(phone: &[u8], list: &mut [u8], at: usize) -> usize
    requires { (length phone.now ≤ 15) × (2 ≤ at) × (16 * at ≤ length list.old) }
    ensures { Puts (some (spoken phone.now)) list.old at (Some result) list.new }
{
    if is_epsilon(phone) {
        return at;
    }
    let Some(dash) = phone.iter().position(|&b| b == b'-') else {
        cells::put_cell(list, at - 1, phone);
        return at - 1;
    };
    cells::put_cell(list, at - 1, &phone[dash + 1..]);
    cells::put_cell(list, at - 2, &phone[..dash]);
    at - 2
}

// The three sections of the letter trees.
#[derive(Clone, Copy)]
pub struct Trees<'a> {
    pub table: Table<'a>,
    pub index: &'a [u8],
    pub model: &'a [u8],
    ghost are_trees: { is_trees table.bytes.now index.now model.now ≡ true },
}

impl<'a> Trees<'a> {
    // The trees that these sections are, if each has its form; the places of the phones go into the memory that the caller lends for them.
    pub fn read(
        phones: &'a [u8],
        index: &'a [u8],
        model: &'a [u8],
        places: &'a mut [u16; 256],
    ) -> Option<Trees<'a>>
        ensures { MatchOption result
            (is_trees phones.now index.now model.now ≡ false)
            (λ t. (t.table.bytes ≡ phones.entry) × (t.index ≡ index.entry) × (t.model ≡ model.entry)) }
    {
        let table = Table::read(phones, places)?;
        if !data::is_lts_index(index) || !data::is_lts_model(model) {
            return None;
        }
        Some(Trees {
            table,
            index,
            model,
        })
    }

    // The phones of the byte at place k of a padded word, put before cell `at` of a list; the first cell of them.
    fn put_letter(&self, text: &[u8], k: usize, list: &mut [u8], at: usize) -> Option<usize>
        requires le_k { (4 ≤ k) × (k + 4 < length text.now) }
        requires le_at { (2 ≤ at) × (16 * at ≤ length list.old) }
        ensures { let t = self.now in
            Puts (letter t.table.bytes.now t.index.now t.model.now text.now k) list.old at result list.new }
    {
        match text[k] {
            b @ b'a'..=b'z' => {
                let start = records::u16_at(self.index, 2 * usize::from(b - b'a'));
                let p = trees::walk(self.model, &window(text, k), start, self.table.len())?;
                Some(put_leaf(self.table.phone(p), list, at))
            }
            _ => Some(at),
        }
    }

    // The phones of a word, at the end of a list of 94 cells: leftwards from the last byte until "#"; and where that stopped.
    pub fn spell(&self, word: &[u8], list: &mut [u8]) -> Option<Spelled>
        requires { (length word.now ≤ 47) × (length list.old ≡ 1504) }
        ensures { let t = self.now in
            Spells (letters t.table.bytes.now t.index.now t.model.now word.now) (stopped word.now) list.old result list.new }
    {
        let room = padded(word);
        let text = &room[..word.len() + 8];
        let mut first = 94;
        for i in (0..word.len()).rev() {
            let k = i + 4;
            if text[k] == b'#' {
                return Some(Spelled {
                    first,
                    stopped: i + 1,
                });
            }
            first = self.put_letter(text, k, list, first)?;
        }
        Some(Spelled { first, stopped: 0 })
    }

    // The phones of a word, by way of a list of 94 cells.
    pub fn spell_out(
        &self,
        word: &[u8],
        list: &mut [u8],
        out: &mut [u8],
    ) -> Result<Predicted, Refusal>
        requires { (length word.now ≤ 47) × (length list.old ≡ 1504) }
        ensures result_value { let t = self.now in
            told_predicted result ≡ told_phones (letters t.table.bytes.now t.index.now t.model.now word.now) (stopped word.now) out.old }
        ensures out_after { let t = self.now in
            out.new ≡ out_phones (letters t.table.bytes.now t.index.now t.model.now word.now) (stopped word.now) out.old }
    {
        let Spelled { first, stopped } = self.spell(word, list).ok_or(Refusal::Damaged)?;
        let cells = &list[16 * first..];
        if out.len() < cells.len() {
            return Err(Refusal::Short);
        }
        records::copy(&mut out[..cells.len()], cells);
        let phones = 94 - first;
        Ok(Predicted { phones, stopped })
    }
}

pub fn predict(
    phones: &[u8],
    index: &[u8],
    model: &[u8],
    word: &[u8],
    out: &mut [u8],
) -> Result<Predicted, Refusal>
    ensures result_value { told_predicted result ≡ answer phones.now index.now model.now word.now out.old }
    ensures out_after { out.new ≡ predicted phones.now index.now model.now word.now out.old }
{
    let mut places = [0; 256];
    let trees = Trees::read(phones, index, model, &mut places).ok_or(Refusal::Section)?;
    if !texts::is_word(word) {
        return Err(Refusal::Text);
    }
    let mut list = [0; 1504];
    trees.spell_out(word, &mut list, out)
}

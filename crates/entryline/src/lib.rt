// One line of a text of entries (01, Lookup: Adding), judged and added.

#![tactic(auto)]

ghost use Rattle.std.specs.Prelude.{◌≡◌, true, not, [], ℕ, ◌*◌, ◌≤◌, ◌<◌, ◌+◌, length, get_or, take, drop, MatchOption};
ghost use Rattle.std.specs.Result.{result_map_both};
ghost use Rattle.std.proofs.Math.Seq.{paste};
ghost use Rattle.texts.specs.Lists.{every, place};
ghost use Rattle.texts.specs.Text.{is};
ghost use Rattle.data.specs.Sections.{is_phone_table};
ghost use Rattle.cells.specs.Cells.{cells_of};
ghost use Rattle.store_spec.specs.Store.{is_sound};
ghost use Rattle.store_spec.specs.Adding.{added, is_full, kept};
ghost use Rattle.lines.specs.Lines.{fields};
ghost use Rattle.lexicon_spec.specs.Adding.{may_add};
ghost use Rattle.addtext_spec.specs.Line.{read_line, line_entry, judged, on_outcome, outcome, behind_line};

use answers::Refusal;
use lines::Fields;

// Whether every field may be added as a phone.
fn may_add_fields(table: &[u8], s: &[u8]) -> bool
    requires { is_phone_table table.now ≡ true }
    ensures { result ≡ every (may_add table.now) (fields s.now) }
{
    Fields::of(s).all(|phone| adding::may_add(table, phone))
}

// How many fields there are.
fn count_fields(s: &[u8]) -> usize
    ensures { result ≡ length (fields s.now) }
{
    Fields::of(s).count()
}

// The fields as cells at the front of dst.
fn put_fields(dst: &mut [u8], s: &[u8])
    requires { (16 * length (fields s.now) ≤ length dst.old) × ((i : ℕ) → i < length (fields s.now) → length (get_or (fields s.now) i []) ≤ 15) }
    ensures { dst.new ≡ paste dst.old 0 (cells_of (fields s.now)) (16 * length (fields s.now)) }
{
    for (i, phone) in Fields::of(s).enumerate() {
        cells::put_cell(dst, i, phone);
    }
}

// An entry whose phones may be added, and are at most 24, put into a sound store; whether there was a slot.
#[tactic(auto, unfolding(addtext_spec::specs::Line::line_entry, store_spec::specs::Adding::entry_for))]
fn add_fields(store: &mut [u8], word: &[u8], tag: &[u8], phones: &[u8]) -> bool
    requires { (is_sound store.old ≡ true) × (length word.now ≤ 47) × (length (fields phones.now) ≤ 24) × ((i : ℕ) → i < length (fields phones.now) → length (get_or (fields phones.now) i []) ≤ 15) }
    ensures value { result ≡ not (is_full store.old (line_entry word.now tag.now (fields phones.now))) }
    ensures store_after { store.new ≡ kept store.old (line_entry word.now tag.now (fields phones.now)) }
{
    let mut room = [0u8; 384];
    let n = count_fields(phones);
    put_fields(&mut room, phones);
    adding::add_folded(store, adding::added_tag(tag), word, &room[..16 * n])
}

// A word, its tag and its phones, judged and added.
#[tactic(auto, unfolding(addtext_spec::specs::Line::judged, addtext_spec::specs::Line::on_outcome, store_spec::specs::Adding::kept))]
fn add_entry(
    table: &[u8],
    store: &mut [u8],
    word: &[u8],
    tag: &[u8],
    phones: &[u8],
) -> Result<(), Refusal>
    requires { (is_phone_table table.now ≡ true) × (is_sound store.old ≡ true) }
    ensures value { result_map_both (λ _. true) (λ r. r) result ≡ judged table.now store.old word.now tag.now (fields phones.now) }
    ensures store_after { store.new ≡ on_outcome (judged table.now store.old word.now tag.now (fields phones.now)) store.old (added store.old (line_entry word.now tag.now (fields phones.now))) }
{
    if 47 < word.len() || 47 < tag.len() {
        return Err(Refusal::Text);
    }
    if !may_add_fields(table, phones) {
        return Err(Refusal::UnknownPhone);
    }
    if 24 < count_fields(phones) {
        return Err(Refusal::Phones);
    }
    if !add_fields(store, word, tag, phones) {
        return Err(Refusal::Full);
    }
    Ok(())
}

// What stands before the first colon of a line, and behind it.
fn split_at_colon(line: &[u8]) -> Option<(&[u8], &[u8])>
    ensures { let at = place (is 58) line.now in
        MatchOption result (length line.now ≤ at)
        (λ p. (at < length line.now) × (p.0.now ≡ take at line.now) × (p.1.now ≡ drop (at + 1) line.now)) }
{
    let at = line.iter().position(|&b| b == b':')?;
    Some((&line[..at], &line[at + 1..]))
}

// One line: whether it added an entry.
#[tactic(auto, unfolding(addtext_spec::specs::Line::read_line, addtext_spec::specs::Line::on_content, addtext_spec::specs::Line::on_fields, addtext_spec::specs::Line::outcome, addtext_spec::specs::Line::behind_line))]
pub fn take_line(table: &[u8], store: &mut [u8], line: &[u8]) -> Result<bool, Refusal>
    requires { (is_phone_table table.now ≡ true) × (is_sound store.old ≡ true) }
    ensures value { result ≡ outcome table.now store.old (read_line line.now) }
    ensures store_after { store.new ≡ behind_line table.now store.old (read_line line.now) }
{
    let content = lines::content(line);
    if lines::is_empty(content) {
        return Ok(false);
    }
    let Some((head, phones)) = split_at_colon(content) else {
        return Err(Refusal::Line);
    };
    let mut head = Fields::of(head);
    let Some(word) = head.next() else {
        return Err(Refusal::Line);
    };
    let tag = head.next().unwrap_or(b"");
    add_entry(table, store, lines::strip(word), tag, phones)?;
    Ok(true)
}

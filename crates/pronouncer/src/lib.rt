// The public calls as C functions. A slice is a pointer and a length; an answer is `struct Answer`, or for read settings `struct Settings`, by value.
#![tactic(auto)]

ghost use Rattle.std.specs.Prelude.{◌≡◌, length};
ghost use Rattle.texts.specs.Choice.{bit};
ghost use Rattle.answers.specs.Told.{accepted};
ghost use Rattle.phoneset.specs.Phones.{is_vowel};
ghost use Rattle.versions.specs.Versions.{digits};
ghost use Rattle.phoneset.specs.Stress.{bare, stress};
ghost use Rattle.syllabify.specs.Call.{syllabify, syllabified};
ghost use Rattle.lts_spec.specs.Call.{predict, predicted};
ghost use Rattle.language.specs.Call.{is_sayable};
ghost use Rattle.new_store.specs.NewStore.{new_store, new_bytes};
ghost use Rattle.check_lexicon.specs.CheckLexicon.{check_lexicon};
ghost use Rattle.lookup.specs.Lookup.{lookup, looked_up};
ghost use Rattle.add_entry.specs.AddEntry.{add_entry, store_after};
ghost use Rattle.add_entries.specs.AddEntries.{add_entries, store_after as store_behind, spare_after as spare_behind};
ghost use Rattle.preview_entries.specs.PreviewEntries.{preview_entries, spare_after as spare_previewed};
ghost use Rattle.accept_entries.specs.AcceptEntries.{accept_entries, store_after as store_accepted};
ghost use Rattle.new_sheet.specs.NewSheet.{new_sheet, new_bytes as new_sheet_bytes};
ghost use Rattle.phonestring.specs.PhoneString.{phone_string, string_after};
ghost use Rattle.pipeline_spec.specs.Pronounced.{tables};
ghost use Rattle.say_word.specs.SayWord.{say_word, sheet_after};
ghost use Rattle.values.specs.Values.{setting_of};
ghost use Rattle.read_settings.specs.ReadSettings.{read_settings};
ghost use Rattle.write_setting.specs.WriteSetting.{write_setting};
ghost use Rattle.write_setting.specs.Given.{given_after};

use answers::{Answer, Settings};

// lex.phones, lex.index, lex.data
#[unsafe(no_mangle)]
pub extern "C" fn pronouncer_check_lexicon(phones: &[u8], index: &[u8], dat: &[u8]) -> Answer
    ensures { result ≡ check_lexicon phones.now index.now dat.now }
{
    answers::told_verdict(check_lexicon::check_lexicon(phones, index, dat))
}

// lex.phones, lex.index, lex.data, a store, a word, a tag, an output
#[unsafe(no_mangle)]
pub extern "C" fn pronouncer_lookup(
    phones: &[u8],
    index: &[u8],
    dat: &[u8],
    store: &[u8],
    word: &[u8],
    tag: &[u8],
    out: &mut [u8],
) -> Answer
    ensures value { result ≡ lookup phones.now index.now dat.now store.now word.now tag.now out.old }
    ensures out_after { out.new ≡ looked_up phones.now index.now dat.now store.now word.now tag.now out.old }
{
    answers::told_looked(lookup::lookup(phones, index, dat, store, word, tag, out))
}

// lts.phones, lts.index, lts.model, a word, an output
#[unsafe(no_mangle)]
pub extern "C" fn pronouncer_predict(
    phones: &[u8],
    index: &[u8],
    model: &[u8],
    word: &[u8],
    out: &mut [u8],
) -> Answer
    ensures value { result ≡ predict phones.now index.now model.now word.now out.old }
    ensures out_after { out.new ≡ predicted phones.now index.now model.now word.now out.old }
{
    answers::told_predicted(lts::predict(phones, index, model, word, out))
}

// a phone list, a buffer for the marks
#[unsafe(no_mangle)]
pub extern "C" fn pronouncer_syllabify(phones: &[u8], marks: &mut [u8]) -> Answer
    ensures value { result ≡ syllabify phones.now marks.old }
    ensures marks_after { marks.new ≡ syllabified phones.now marks.old }
{
    answers::told_count(syllabify::syllabify(phones, marks))
}

// aswd.p, aswd.s, a word
#[unsafe(no_mangle)]
pub extern "C" fn pronouncer_is_sayable(prefix: &[u8], suffix: &[u8], word: &[u8]) -> Answer
    ensures { result ≡ is_sayable prefix.now suffix.now word.now }
{
    answers::told_verdict(language::is_sayable(prefix, suffix, word))
}

// a store
#[unsafe(no_mangle)]
pub extern "C" fn pronouncer_new_store(store: &mut [u8]) -> Answer
    ensures value { result ≡ new_store store.old }
    ensures store_after { store.new ≡ new_bytes store.old }
{
    answers::told_done(new_store::new_store(store))
}

// lex.phones, a store, a word, a tag, a phone list, whether the entry is exact
#[unsafe(no_mangle)]
pub extern "C" fn pronouncer_add_entry(
    table: &[u8],
    store: &mut [u8],
    word: &[u8],
    tag: &[u8],
    phones: &[u8],
    exact: bool,
) -> Answer
    ensures value { result ≡ add_entry table.now store.old word.now tag.now phones.now exact }
    ensures store_after { store.new ≡ store_after table.now store.old word.now tag.now phones.now exact }
{
    answers::told_done(add_entry::add_entry(table, store, word, tag, phones, exact))
}

// lex.phones, a store, a spare, a text
#[unsafe(no_mangle)]
pub extern "C" fn pronouncer_add_entries(
    table: &[u8],
    store: &mut [u8],
    spare: &mut [u8],
    text: &[u8],
) -> Answer
    ensures value { result ≡ add_entries table.now store.old spare.old text.now }
    ensures store_after { store.new ≡ store_behind table.now store.old spare.old text.now }
    ensures spare_after { spare.new ≡ spare_behind table.now store.old spare.old text.now }
{
    answers::told_lines(add_entries::add_entries(table, store, spare, text))
}

// lex.phones, a store, a spare, a text
#[unsafe(no_mangle)]
pub extern "C" fn pronouncer_preview_entries(
    table: &[u8],
    store: &[u8],
    spare: &mut [u8],
    text: &[u8],
) -> Answer
    ensures value { result ≡ preview_entries table.now store.now spare.old text.now }
    ensures spare_after { spare.new ≡ spare_previewed table.now store.now spare.old text.now }
{
    answers::told_previewed(preview_entries::preview_entries(table, store, spare, text))
}

// a store, a spare
#[unsafe(no_mangle)]
pub extern "C" fn pronouncer_accept_entries(store: &mut [u8], spare: &[u8]) -> Answer
    ensures value { result ≡ accept_entries store.old spare.now }
    ensures store_after { store.new ≡ store_accepted store.old spare.now }
{
    answers::told_done(accept_entries::accept_entries(store, spare))
}

// a sheet, a version
#[unsafe(no_mangle)]
pub extern "C" fn pronouncer_new_sheet(sheet: &mut [u8], version: u32) -> Answer
    ensures value { result ≡ new_sheet sheet.old version }
    ensures sheet_after { sheet.new ≡ new_sheet_bytes sheet.old version }
{
    answers::told_done(new_sheet::new_sheet(sheet, version))
}

// a sheet, an output
#[unsafe(no_mangle)]
pub extern "C" fn pronouncer_phone_string(sheet: &[u8], out: &mut [u8]) -> Answer
    ensures value { result ≡ phone_string sheet.now out.old }
    ensures out_after { out.new ≡ string_after sheet.now out.old }
{
    answers::told_count(phonestring::phone_string(sheet, out))
}

// lex.phones, lex.index, lex.data, lts.phones, lts.index, lts.model, a store, a sheet, a word, a tag
#[unsafe(no_mangle)]
pub extern "C" fn pronouncer_say_word(
    phones: &[u8],
    index: &[u8],
    dat: &[u8],
    sounds: &[u8],
    starts: &[u8],
    model: &[u8],
    store: &[u8],
    sheet: &mut [u8],
    word: &[u8],
    tag: &[u8],
) -> Answer
    ensures value { result ≡ say_word (tables phones.now index.now dat.now sounds.now starts.now model.now) store.now sheet.old word.now tag.now }
    ensures sheet_after { sheet.new ≡ sheet_after (tables phones.now index.now dat.now sounds.now starts.now model.now) store.now sheet.old word.now tag.now }
{
    answers::told_said(say_word::say_word(
        phones, index, dat, sounds, starts, model, store, sheet, word, tag,
    ))
}

// a settings store, the reader's version, the show's stretch
#[unsafe(no_mangle)]
pub extern "C" fn pronouncer_read_settings(settings: &[u8], version: u32, show: f32) -> Settings
    ensures { result ≡ read_settings version settings.now show }
{
    answers::told_shown(read_settings::read_settings(settings, version, show))
}

// a settings store, the reader's version, a name, a value's kind (1 whole, 2 float) and its 32 bits
#[unsafe(no_mangle)]
pub extern "C" fn pronouncer_write_setting(
    settings: &mut [u8],
    version: u32,
    name: &[u8],
    kind: u32,
    value: u32,
) -> Answer
    ensures value { result ≡ write_setting version settings.old name.now (setting_of kind value) }
    ensures settings_after { settings.new ≡ given_after version settings.old name.now kind value }
{
    answers::told_done(write_setting::write_given(settings, version, name, kind, value))
}

// Whether a phone's text is a vowel: `kind` 1 or 0. Not a call of the papers.
#[unsafe(no_mangle)]
pub extern "C" fn pronouncer_is_vowel(phone: &[u8]) -> Answer
    ensures { result ≡ accepted (bit (is_vowel phone.now)) 0 }
{
    answers::accepted(phoneset::is_vowel(phone) as u32, 0)
}

// A phone's stress as `kind`, 0 where it has none, and the length of its bare phone as `value`, by version 1 of a sheet. Not
// a call of the papers.
#[unsafe(no_mangle)]
pub extern "C" fn pronouncer_split_stress(phone: &[u8]) -> Answer
    ensures { result ≡ accepted (stress (digits 1) phone.now) (length (bare (digits 1) phone.now)) }
{
    let split = phoneset::split_stress(1, phone);
    answers::accepted(split.stress as u32, split.bare)
}

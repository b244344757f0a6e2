// The calls of the sheet, each with its arguments from a line of cases.
use answers::Refusal;
use caseline::{Arguments, Case};

// new_sheet SHEET VERSION -> REFUSAL KIND VALUE SHEET
pub fn new_sheet(case: Case, room: &mut [u8], out: &mut [u8]) -> bool {
    let [before, version, ..] = case.arguments;
    let Some(version) = caseline::four_bytes(version) else {
        return false;
    };
    let n = caseline::load(out, before);
    let sheet = &mut out[..n];
    let a = new_sheet::new_sheet(sheet, version);
    case.agrees(answers::told_done(a)) && case.tells(3, room, sheet, before)
}

// phone_string SHEET OUT -> REFUSAL KIND VALUE OUT
pub fn phone_string(case: Case, room: &mut [u8], out: &mut [u8]) -> bool {
    let [sheet, before, ..] = case.arguments;
    let n = caseline::load(out, before);
    let out = &mut out[..n];
    let a = phonestring::phone_string(sheet, out);
    case.agrees(answers::told_count(a)) && case.tells(3, room, out, before)
}

// say_word LEX.PHONES LEX.INDEX LEX.DATA LTS.PHONES LTS.INDEX LTS.MODEL STORE SHEET WORD TAG -> REFUSAL KIND VALUE SHEET
pub fn say_word(case: Case, room: &mut [u8], out: &mut [u8]) -> bool {
    let before = case.arguments[7];
    let n = caseline::load(out, before);
    let sheet = &mut out[..n];
    let a = say(&case.arguments, sheet);
    case.agrees(answers::told_said(a)) && case.tells(3, room, sheet, before)
}

// say_word on a sheet; its other arguments are those of a line, in the order there.
pub fn say(arguments: &Arguments, sheet: &mut [u8]) -> Result<usize, Refusal> {
    let [
        lex_phones,
        lex_index,
        lex_data,
        lts_phones,
        lts_index,
        lts_model,
        store,
        _,
        word,
        tag,
        _,
    ] = *arguments;
    say_word::say_word(
        lex_phones, lex_index, lex_data, lts_phones, lts_index, lts_model, store, sheet, word, tag,
    )
}

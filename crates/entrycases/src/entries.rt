// The calls of the lexicon and the store, each with its arguments from a line of cases.
use caseline::Case;

// check_lexicon PHONES INDEX DATA -> REFUSAL KIND VALUE
pub fn check_lexicon(case: Case) -> bool {
    let [phones, index, data, ..] = case.arguments;
    case.agrees(answers::told_verdict(check_lexicon::check_lexicon(phones, index, data)))
}

// new_store STORE -> REFUSAL KIND VALUE STORE
pub fn new_store(case: Case, room: &mut [u8], out: &mut [u8]) -> bool {
    let [before, ..] = case.arguments;
    let n = caseline::load(out, before);
    let store = &mut out[..n];
    let a = new_store::new_store(store);
    case.agrees(answers::told_done(a)) && case.tells(3, room, store, before)
}

// add_entry PHONES STORE WORD TAG CELLS EXACT -> REFUSAL KIND VALUE STORE
pub fn add_entry(case: Case, room: &mut [u8], out: &mut [u8]) -> bool {
    let [phones, before, word, tag, cells, exact, ..] = case.arguments;
    let Some(exact) = caseline::yes_or_no(exact) else {
        return false;
    };
    let n = caseline::load(out, before);
    let store = &mut out[..n];
    let a = add_entry::add_entry(phones, store, word, tag, cells, exact);
    case.agrees(answers::told_done(a)) && case.tells(3, room, store, before)
}

// add_entries PHONES STORE SPARE TEXT -> REFUSAL KIND VALUE STORE SPARE
pub fn add_entries(case: Case, room: &mut [u8], out: &mut [u8]) -> bool {
    let [phones, store_before, spare_before, text, ..] = case.arguments;
    let n = caseline::load(out, store_before);
    let store = &mut out[..n];
    let mut spare = [0; 66048];
    let n = caseline::load(&mut spare, spare_before);
    let spare = &mut spare[..n];
    let a = add_entries::add_entries(phones, store, spare, text);
    case.agrees(answers::told_lines(a))
        && case.tells(3, room, store, store_before)
        && case.tells(4, room, spare, spare_before)
}

// preview_entries PHONES STORE SPARE TEXT -> REFUSAL KIND VALUE SPARE
pub fn preview_entries(case: Case, room: &mut [u8], out: &mut [u8]) -> bool {
    let [phones, store, before, text, ..] = case.arguments;
    let n = caseline::load(out, before);
    let spare = &mut out[..n];
    let a = preview_entries::preview_entries(phones, store, spare, text);
    case.agrees(answers::told_previewed(a)) && case.tells(3, room, spare, before)
}

// accept_entries STORE SPARE -> REFUSAL KIND VALUE STORE
pub fn accept_entries(case: Case, room: &mut [u8], out: &mut [u8]) -> bool {
    let [before, spare, ..] = case.arguments;
    let n = caseline::load(out, before);
    let store = &mut out[..n];
    let a = accept_entries::accept_entries(store, spare);
    case.agrees(answers::told_done(a)) && case.tells(3, room, store, before)
}

// lookup PHONES INDEX DATA STORE WORD TAG OUT -> REFUSAL KIND VALUE OUT
pub fn lookup(case: Case, room: &mut [u8], out: &mut [u8]) -> bool {
    let [phones, index, data, store, word, tag, before, ..] = case.arguments;
    let n = caseline::load(out, before);
    let out = &mut out[..n];
    let a = lookup::lookup(phones, index, data, store, word, tag, out);
    case.agrees(answers::told_looked(a)) && case.tells(3, room, out, before)
}

// The calls on words and phones, run from lines of cases.

#![tactic(auto)]

use caseline::{Case, Line};

// predict PHONES INDEX MODEL WORD OUT -> REFUSAL KIND VALUE OUT
fn predict(case: Case, room: &mut [u8], out: &mut [u8]) -> bool {
    let [phones, index, model, word, before, ..] = case.arguments;
    let n = caseline::load(out, before);
    let out = &mut out[..n];
    let a = lts::predict(phones, index, model, word, out);
    case.agrees(answers::told_predicted(a)) && case.tells(3, room, out, before)
}

// syllabify PHONES MARKS -> REFUSAL KIND VALUE MARKS
fn syllabify(case: Case, room: &mut [u8], out: &mut [u8]) -> bool {
    let [phones, before, ..] = case.arguments;
    let n = caseline::load(out, before);
    let marks = &mut out[..n];
    let a = syllabify::syllabify(phones, marks);
    case.agrees(answers::told_count(a)) && case.tells(3, room, marks, before)
}

// is_sayable PREFIX SUFFIX WORD -> REFUSAL KIND VALUE
fn is_sayable(case: Case) -> bool {
    let [prefix, suffix, word, ..] = case.arguments;
    case.agrees(answers::told_verdict(language::is_sayable(prefix, suffix, word)))
}

// is_vowel PHONE -> 0 KIND 0
fn is_vowel(case: Case) -> bool {
    case.agrees(answers::told_verdict(Ok(phoneset::is_vowel(case.arguments[0]))))
}

// split_stress PHONE -> 0 STRESS LENGTH
fn split_stress(case: Case) -> bool {
    let split = phoneset::split_stress(1, case.arguments[0]);
    case.agrees(answers::accepted(u32::from(split.stress), split.bare))
}

// fold BYTES -> BYTES
fn fold(case: Case, room: &mut [u8], out: &mut [u8]) -> bool {
    let [before, ..] = case.arguments;
    let n = caseline::load(out, before);
    let bytes = &mut out[..n];
    for b in bytes.iter_mut() {
        *b = texts::fold(*b);
    }
    case.tells(0, room, bytes, before)
}

// A line by the name of its call: whether it passed; None where the call is none of these or the line cannot be read.
pub fn run(line: &[u8], regs: &[u8], room: &mut [u8], out: &mut [u8]) -> Option<bool> {
    run_line(Line::unlimited(line, regs), room, out)
}

// The same of a line with its longest token.
pub fn run_line(line: Line, room: &mut [u8], out: &mut [u8]) -> Option<bool> {
    match caseline::token(line.text, 0) {
        b"predict" => line.passes(5, room, |case, room| predict(case, room, out)),
        b"syllabify" => line.passes(2, room, |case, room| syllabify(case, room, out)),
        b"is_sayable" => line.passes(3, room, |case, _| is_sayable(case)),
        b"is_vowel" => line.passes(1, room, |case, _| is_vowel(case)),
        b"split_stress" => line.passes(1, room, |case, _| split_stress(case)),
        b"fold" => line.passes(1, room, |case, room| fold(case, room, out)),
        _ => None,
    }
}

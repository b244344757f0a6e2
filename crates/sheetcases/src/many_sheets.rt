// Lines that stand for many calls over sheets, which would be too long for a file one by one.
ghost use Rattle.std.specs.Prelude.{◌<◌, length};

use crate::sheets;
use caseline::{Arguments, Case};

// The refusal of phone string on a sheet with a step added to byte k meanwhile, 0 where it is accepted.
fn string_refusal(sheet: &mut [u8], k: usize, step: u8) -> u32
    requires { k < length sheet.old }
{
    let mut out = [0; 1024];
    sheet[k] = sheet[k].wrapping_add(step);
    let a = phonestring::phone_string(sheet, &mut out);
    sheet[k] = sheet[k].wrapping_sub(step);
    answers::told_count(a).refusal
}

// damage_phone_string SHEET STEP -> REFUSALS
// One refusal for each byte of the sheet.
pub fn damage_phone_string(case: Case, room: &mut [u8], out: &mut [u8]) -> bool {
    let [before, step, ..] = case.arguments;
    let n = caseline::load(out, before);
    let sheet = &mut out[..n];
    let step = records::byte_at(step, 0);
    let Some(wanted) = case.bytes(0, room) else {
        return false;
    };
    if wanted.len() != sheet.len() {
        return false;
    }
    for (k, &refusal) in wanted.iter().enumerate() {
        if string_refusal(sheet, k, step) != u32::from(refusal) {
            return false;
        }
    }
    true
}

// The refusal of say word on a line's sheet with a step added to byte k, 0 where it is accepted; 255 where it is
// refused and writes all the same.
fn word_refusal(arguments: &Arguments, sheet: &mut [u8], k: usize, step: u8) -> u32
    requires { k < length sheet.old }
{
    caseline::load(sheet, arguments[7]);
    sheet[k] = sheet[k].wrapping_add(step);
    let Err(refusal) = sheets::say(arguments, sheet) else {
        return 0;
    };
    sheet[k] = sheet[k].wrapping_sub(step);
    if &*sheet == arguments[7] {
        refusal as u32
    } else {
        255
    }
}

// damage_say_word, the arguments of say_word, STEP -> REFUSALS
// One refusal for each byte of the sheet.
pub fn damage_say_word(case: Case, room: &mut [u8], out: &mut [u8]) -> bool {
    let arguments = case.arguments;
    let n = caseline::load(out, arguments[7]);
    let sheet = &mut out[..n];
    let step = records::byte_at(arguments[10], 0);
    let Some(wanted) = case.bytes(0, room) else {
        return false;
    };
    if wanted.len() != sheet.len() {
        return false;
    }
    for (k, &refusal) in wanted.iter().enumerate() {
        if word_refusal(&arguments, sheet, k, step) != u32::from(refusal) {
            return false;
        }
    }
    true
}

// A line's word said again and again, up to the first time that is refused: how often, and by which refusal that
// ended, 0 where it did not.
fn say_again(arguments: &Arguments, sheet: &mut [u8]) -> (u64, u32) {
    for k in 0..1024 {
        if let Err(refusal) = sheets::say(arguments, sheet) {
            return (k, refusal as u32);
        }
    }
    (1024, 0)
}

// How many bytes the phone string of a sheet has, 65,536 where it is refused.
fn string_length(sheet: &[u8]) -> usize {
    let mut out = [0; 16384];
    phonestring::phone_string(sheet, &mut out).unwrap_or(65536)
}

// fill_sheet, the arguments of say_word -> COUNT REFUSAL BYTES
pub fn fill_sheet(case: Case, out: &mut [u8]) -> bool {
    let n = caseline::load(out, case.arguments[7]);
    let sheet = &mut out[..n];
    if new_sheet::new_sheet(sheet, 1).is_err() {
        return false;
    }
    let (count, refusal) = say_again(&case.arguments, sheet);
    count == case.number(0)
        && u64::from(refusal) == case.number(1)
        && string_length(sheet) as u64 == case.number(2)
}

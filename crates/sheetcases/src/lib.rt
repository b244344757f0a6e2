// The calls of the sheet, run from lines of cases.

#![tactic(auto)]

mod many_sheets;
mod sheets;

use caseline::Line;
use many_sheets::{damage_phone_string, damage_say_word, fill_sheet};
use sheets::{new_sheet, phone_string, say_word};

// Whether a line passes, by the name of its call; None where that is none of these or the line cannot be read.
pub fn run(line: &[u8], regs: &[u8], room: &mut [u8], out: &mut [u8]) -> Option<bool> {
    run_line(Line::unlimited(line, regs), room, out)
}

// The same of a line with its longest token.
pub fn run_line(line: Line, room: &mut [u8], out: &mut [u8]) -> Option<bool> {
    match caseline::token(line.text, 0) {
        b"new_sheet" => line.passes(2, room, |case, room| new_sheet(case, room, out)),
        b"phone_string" => line.passes(2, room, |case, room| phone_string(case, room, out)),
        b"say_word" => line.passes(10, room, |case, room| say_word(case, room, out)),
        b"damage_phone_string" => line.passes(
            2,
            room,
            |case, room| damage_phone_string(case, room, out),
        ),
        b"damage_say_word" => line.passes(11, room, |case, room| damage_say_word(case, room, out)),
        b"fill_sheet" => line.passes(10, room, |case, _| fill_sheet(case, out)),
        _ => None,
    }
}

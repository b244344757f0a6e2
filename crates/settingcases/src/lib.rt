// The calls of the settings, run from lines of cases.

#![tactic(auto)]

mod calls;
mod damage;

use calls::{read_settings, write_setting};
use caseline::Line;
use damage::{damage_read_settings, damage_write_setting};

// Whether a line passes, by the name of its call; None where that is none of these or the line cannot be read.
pub fn run(line: &[u8], regs: &[u8], room: &mut [u8], out: &mut [u8]) -> Option<bool> {
    run_line(Line::unlimited(line, regs), room, out)
}

// The same of a line with its longest token.
pub fn run_line(line: Line, room: &mut [u8], out: &mut [u8]) -> Option<bool> {
    match caseline::token(line.text, 0) {
        b"read_settings" => line.passes(3, room, |case, room| read_settings(case, room)),
        b"write_setting" => line.passes(5, room, |case, room| write_setting(case, room, out)),
        b"damage_read_settings" => line.passes(
            3,
            room,
            |case, room| damage_read_settings(case, room, out),
        ),
        b"damage_write_setting" => line.passes(
            6,
            room,
            |case, room| damage_write_setting(case, room, out),
        ),
        _ => None,
    }
}

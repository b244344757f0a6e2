// The calls of the lexicon and the store, run from lines of cases.

#![tactic(auto)]

mod entries;
mod many;

use caseline::Line;
use entries::{
    accept_entries, add_entries, add_entry, check_lexicon, lookup, new_store, preview_entries,
};
use many::{damage, fill};

// Whether a line passes, by the name of its call; None where that is none of these or the line cannot be read.
pub fn run(line: &[u8], regs: &[u8], room: &mut [u8], out: &mut [u8]) -> Option<bool> {
    run_line(Line::unlimited(line, regs), room, out)
}

// The same of a line with its longest token.
pub fn run_line(line: Line, room: &mut [u8], out: &mut [u8]) -> Option<bool> {
    match caseline::token(line.text, 0) {
        b"check_lexicon" => line.passes(3, room, |case, _| check_lexicon(case)),
        b"lookup" => line.passes(7, room, |case, room| lookup(case, room, out)),
        b"new_store" => line.passes(1, room, |case, room| new_store(case, room, out)),
        b"add_entry" => line.passes(6, room, |case, room| add_entry(case, room, out)),
        b"add_entries" => line.passes(4, room, |case, room| add_entries(case, room, out)),
        b"damage" => line.passes(6, room, |case, _| damage(case, out)),
        b"fill" => line.passes(2, room, |case, _| fill(case, out)),
        b"preview_entries" => line.passes(4, room, |case, room| preview_entries(case, room, out)),
        b"accept_entries" => line.passes(2, room, |case, room| accept_entries(case, room, out)),
        _ => None,
    }
}

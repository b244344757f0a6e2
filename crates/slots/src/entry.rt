// An entry before it has a slot.
ghost use Rattle.std.specs.Prelude.{◌/◌, ◌≤◌, length};

// An entry to be written: its word as it is to be stored, its phones as they were handed in.
#[derive(Clone, Copy)]
pub struct NewEntry<'a> {
    pub tag: u8,
    pub word: &'a [u8],
    pub phones: &'a [u8],
    pub exact: bool,
    ghost short: { length word.now ≤ 47 },
    ghost few: { length phones.now / 16 ≤ 24 },
}

// What a call gives back (01, What a call gives back): why it was refused, or its answer; and the
// one form of numbers in which every answer leaves the library.

#![tactic(auto)]

ghost use Rattle.std.specs.Prelude.{◌≡◌};
ghost use Rattle.answers.specs.Told.{refusal_number, at_whole, source_number, refused as refused_by, accepted as accepted_as, accepted_with, told_verdict, told_looked, told_predicted, told_count, told_done, told_lines, told_previewed, told_said, no_settings, told_shown};

// Why a call was refused: 01's numbers 1 to 9, then 02's 12, 15, 16 and 17. docs/FORMATS.md has their ranks.
#[derive(Clone, Copy, Debug, PartialEq, Eq)]
pub enum Refusal {
    Section = 1,
    Unsound = 2,
    Text = 3,
    Line = 4,
    UnknownPhone = 5,
    Damaged = 6,
    Phones = 7,
    Full = 8,
    Short = 9,
    Count = 12,
    Version = 15,
    Records = 16,
    Range = 17,
}

// Why a text was refused, and by which of its lines: 0 where it is the text as a whole.
#[derive(Clone, Copy, Debug, PartialEq, Eq)]
pub struct AtLine {
    pub refusal: Refusal,
    pub line: usize,
}

impl From<Refusal> for AtLine {
    ghost from_gives = { λ r a. a ≡ at_whole r };

    fn from(refusal: Refusal) -> Self {
        AtLine { refusal, line: 0 }
    }
}

// Where a pronunciation was found.
#[derive(Clone, Copy, Debug, PartialEq, Eq)]
pub enum Source {
    Runtime = 1,
    Addenda = 2,
    Compiled = 3,
}

// lookup: a source that has the word, and how many phones
#[derive(Clone, Copy, Debug, PartialEq, Eq)]
pub struct Found {
    pub source: Source,
    pub phones: usize,
}

// predict: how many phones, and the place just after the last "#" (02, S-5)
#[derive(Clone, Copy, Debug, PartialEq, Eq)]
pub struct Predicted {
    pub phones: usize,
    pub stopped: usize,
}

// preview entries (02, S-2): how many entry lines were taken, how many slots are newly used, and how many lines replaced an entry
#[derive(Clone, Copy, Debug, PartialEq, Eq)]
pub struct Previewed {
    pub taken: usize,
    pub newly: usize,
    pub replaced: usize,
}

// read settings: what a reader of version 1 is shown (pitch, stretch, the rack's stretch), and one of version 2 (pitch,
// stretch, level, the rack's stretch)
#[derive(Clone, Copy)]
pub enum Shown {
    First(i32, f32, f32),
    Second(i32, f32, i32, f32),
}

// What read settings shows, in the form that C sees: `refusal` is 0 where the call was accepted, `count` how many
// settings are shown, 2 or 3; where it is 2 there is no level.
#[repr(C)]
#[derive(Clone, Copy)]
pub struct Settings {
    pub refusal: u32,
    pub count: u32,
    pub pitch: i32,
    pub stretch: f32,
    pub level: i32,
    pub rack: f32,
}

// An answer as numbers, in the form that C sees: `refusal` is 0 where the call was accepted, `kind`
// a source or a yes, `value` the line of a refusal or a count, `second` the place where the letters stopped or the slots newly
// used, `third` the lines that replaced an entry.
#[repr(C)]
#[derive(Clone, Copy)]
pub struct Answer {
    pub refusal: u32,
    pub kind: u32,
    pub value: u64,
    pub second: u64,
    pub third: u64,
}

fn refusal_number(r: Refusal) -> u32
    ensures { result ≡ refusal_number r }
{
    r as u32
}

pub fn source_number(s: Source) -> u8
    ensures { result ≡ source_number s }
{
    s as u8
}

fn refused(r: Refusal, line: usize) -> Answer
    ensures { result ≡ refused_by (refusal_number r) line }
{
    Answer {
        refusal: refusal_number(r),
        kind: 0,
        value: line as u64,
        second: 0,
        third: 0,
    }
}

fn accepted_with(kind: u32, value: usize, second: usize, third: usize) -> Answer
    ensures { result ≡ accepted_with kind value second third }
{
    Answer {
        refusal: 0,
        kind,
        value: value as u64,
        second: second as u64,
        third: third as u64,
    }
}

pub fn accepted(kind: u32, value: usize) -> Answer
    ensures { result ≡ accepted_as kind value }
{
    accepted_with(kind, value, 0, 0)
}

pub fn told_verdict(a: Result<bool, Refusal>) -> Answer
    ensures { result ≡ told_verdict a }
{
    match a {
        Err(r) => refused(r, 0),
        Ok(yes) => accepted(yes as u32, 0),
    }
}

pub fn told_looked(a: Result<Option<Found>, Refusal>) -> Answer
    ensures { result ≡ told_looked a }
{
    match a {
        Err(r) => refused(r, 0),
        Ok(None) => accepted(0, 0),
        Ok(Some(found)) => accepted(source_number(found.source) as u32, found.phones),
    }
}

pub fn told_predicted(a: Result<Predicted, Refusal>) -> Answer
    ensures { result ≡ told_predicted a }
{
    match a {
        Err(r) => refused(r, 0),
        Ok(p) => accepted_with(0, p.phones, p.stopped, 0),
    }
}

// syllabify: how many marks; phone string: how many bytes
pub fn told_count(a: Result<usize, Refusal>) -> Answer
    ensures { result ≡ told_count a }
{
    match a {
        Err(r) => refused(r, 0),
        Ok(n) => accepted(0, n),
    }
}

// new store, add entry, accept entries, new sheet and write setting
pub fn told_done(a: Result<(), Refusal>) -> Answer
    ensures { result ≡ told_done a }
{
    match a {
        Err(r) => refused(r, 0),
        Ok(()) => accepted(0, 0),
    }
}

// add text: how many entry lines were taken
pub fn told_lines(a: Result<usize, AtLine>) -> Answer
    ensures { result ≡ told_lines a }
{
    match a {
        Err(at) => refused(at.refusal, at.line),
        Ok(n) => accepted(0, n),
    }
}

pub fn told_previewed(a: Result<Previewed, AtLine>) -> Answer
    ensures { result ≡ told_previewed a }
{
    match a {
        Err(e) => refused(e.refusal, e.line),
        Ok(p) => accepted_with(0, p.taken, p.newly, p.replaced),
    }
}

// say word: the place just after the last "#", 0 where the letters weren't read (02, S-5)
pub fn told_said(a: Result<usize, Refusal>) -> Answer
    ensures { result ≡ told_said a }
{
    match a {
        Err(r) => refused(r, 0),
        Ok(stopped) => accepted_with(0, 0, stopped, 0),
    }
}

fn no_settings(r: Refusal) -> Settings
    ensures { result ≡ no_settings (refusal_number r) }
{
    Settings {
        refusal: refusal_number(r),
        count: 0,
        pitch: 0,
        stretch: 0.0,
        level: 0,
        rack: 0.0,
    }
}

pub fn told_shown(a: Result<Shown, Refusal>) -> Settings
    ensures { result ≡ told_shown a }
{
    match a {
        Err(r) => no_settings(r),
        Ok(Shown::First(pitch, stretch, rack)) => Settings {
            refusal: 0,
            count: 2,
            pitch,
            stretch,
            level: 0,
            rack,
        },
        Ok(Shown::Second(pitch, stretch, level, rack)) => Settings {
            refusal: 0,
            count: 3,
            pitch,
            stretch,
            level,
            rack,
        },
    }
}

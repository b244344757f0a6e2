// A line of cases as a call, its arguments, and what it tells behind the arrow; comparing what the call gave back with that.
ghost use Rattle.std.specs.Prelude.{◌≡◌, ◌<◌, IfSome};
ghost use Rattle.caseline.specs.Counts.{Counts};

use crate::read;
use answers::Answer;

// The arguments of a call; empty ones stand behind the last.
pub type Arguments<'a> = [&'a [u8]; 11];

// A line whose arguments were read, and what stands behind its arrow.
#[derive(Clone, Copy)]
pub struct Case<'a> {
    pub arguments: Arguments<'a>,
    told: &'a [u8],
    regs: &'a [u8],
    longest: usize,
}

// A line of cases with the registers, and the longest token of it that is read as bytes; one that begins with a dot may be longer.
#[derive(Clone, Copy)]
pub struct Line<'a> {
    pub text: &'a [u8],
    pub regs: &'a [u8],
    pub longest: usize,
}

impl<'a> Line<'a> {
    // A line whose tokens may have any length.
    pub fn unlimited(text: &'a [u8], regs: &'a [u8]) -> Line<'a>
        ensures { result.longest ≡ 18446744073709551615 }
    {
        Line {
            text,
            regs,
            longest: usize::MAX,
        }
    }

    // The line as a case that has n arguments and an arrow behind them, and the room that they leave.
    pub fn read<'b>(self, n: usize, room: &'b mut [u8]) -> Option<(Case<'b>, &'b mut [u8])>
    where
        'a: 'b,
        requires { n < 12 }
        ensures { IfSome result (λ r. r.0.longest ≡ self.entry.longest) }
    {
        let mut tokens = self.text.splitn(n + 3, |&b| b == b' ');
        tokens.next();
        let mut arguments: Arguments<'b> = [b""; 11];
        let mut room = room;
        for argument in &mut arguments[..n] {
            let length = read::string_within(tokens.next()?, self.regs, room, self.longest)?.len();
            *argument = room.split_off_mut(..length)?;
        }
        let b"->" = tokens.next()? else {
            return None;
        };
        let told = tokens.next().unwrap_or_default();
        Some((
            Case {
                arguments,
                told,
                regs: self.regs,
                longest: self.longest,
            },
            room,
        ))
    }

    // Whether a call passes on the line, which has n arguments; None where it cannot be read.
    pub fn passes<'b, Call: FnOnce(Case, &mut [u8]) -> bool>(
        self,
        n: usize,
        room: &'b mut [u8],
        call: Call,
    ) -> Option<bool>
        requires few { n < 12 }
        requires is_always_callable { Call.IsAlwaysCallable call }
    {
        let (case, room) = self.read(n, room)?;
        Some(call(case, room))
    }
}

impl<'a> Case<'a> {
    // A line that has n arguments and an arrow behind them, and the room that they leave.
    pub fn read(
        line: &'a [u8],
        n: usize,
        regs: &'a [u8],
        room: &'a mut [u8],
    ) -> Option<(Case<'a>, &'a mut [u8])>
        requires { n < 12 }
        ensures { IfSome result (λ r. r.0.longest ≡ 18446744073709551615) }
    {
        Line::unlimited(line, regs).read(n, room)
    }

    // Token k behind the arrow as a number.
    pub fn number(self, k: usize) -> u64 {
        read::number(read::token(self.told, k))
    }

    // Whether an answer is the refusal, the kind and the numbers behind the arrow: its value, and behind colons the two
    // numbers more, 0 where they don't stand.
    pub fn agrees(self, a: Answer) -> bool {
        let numbers = read::token(self.told, 2);
        u64::from(a.refusal) == self.number(0)
            && u64::from(a.kind) == self.number(1)
            && a.value == read::number(read::field(numbers, 0, b':'))
            && a.second == read::number(read::field(numbers, 1, b':'))
            && a.third == read::number(read::field(numbers, 2, b':'))
    }

    // The bytes that token k behind the arrow stands for.
    pub fn bytes<'b>(self, k: usize, room: &'b mut [u8]) -> Option<&'b [u8]> {
        read::string_within(read::token(self.told, k), self.regs, room, self.longest)
    }

    // Whether bytes are those of token k behind the arrow, or, where it is "=", those that were handed in.
    pub fn tells(self, k: usize, room: &mut [u8], bytes: &[u8], handed_in: &[u8]) -> bool {
        match read::token(self.told, k) {
            b"=" => bytes == handed_in,
            _ => self.bytes(k, room) == Some(bytes),
        }
    }
}

// Whether a call passes on a line that has n arguments; None where the line cannot be read.
pub fn passes<'a, Call: FnOnce(Case, &mut [u8]) -> bool>(
    line: &'a [u8],
    n: usize,
    regs: &'a [u8],
    room: &'a mut [u8],
    call: Call,
) -> Option<bool>
    requires few { n < 12 }
    requires is_always_callable { Call.IsAlwaysCallable call }
{
    Line::unlimited(line, regs).passes(n, room, call)
}

// An argument that says yes or no: the byte 1, or 0.
pub fn yes_or_no(argument: &[u8]) -> Option<bool> {
    match argument {
        [0] => Some(false),
        [1] => Some(true),
        _ => None,
    }
}

// An argument of four bytes as a number, the low one first.
pub fn four_bytes(argument: &[u8]) -> Option<u32> {
    Some(u32::from_le_bytes(argument.try_into().ok()?))
}

// Bytes put at the front of a buffer; how many, none where they are too many.
pub fn load(out: &mut [u8], bytes: &[u8]) -> usize
    ensures { Counts result out.new }
{
    match out.get_mut(..bytes.len()) {
        Some(front) => {
            front.copy_from_slice(bytes);
            bytes.len()
        }
        None => 0,
    }
}

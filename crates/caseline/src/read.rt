// Tokens, numbers and byte strings of a line of cases.
ghost use Rattle.std.specs.Prelude.{◌≡◌, ◌≤◌, ◌<◌, length, get_or, IfSome};

// Field k of a text that a byte parts, counted from 0; empty where there is none.
pub fn field(text: &[u8], k: usize, by: u8) -> &[u8] {
    text.split(|&b| b == by).nth(k).unwrap_or_default()
}

// Token k of a line, counted from 0; empty where there is none.
pub fn token(line: &[u8], k: usize) -> &[u8] {
    field(line, k, b' ')
}

// A decimal number at the front of a text, up to the first byte that is no digit.
pub fn number(s: &[u8]) -> u64 {
    let mut n = 0;
    for &b in s {
        if !b.is_ascii_digit() || 100000000 < n {
            break;
        }
        n = 10 * n + u64::from(b - b'0');
    }
    n
}

// The value of a hexadecimal digit.
fn digit(b: u8) -> Option<u8>
    ensures { IfSome result (λ d. d < 16) }
{
    match b {
        b'0'..=b'9' => Some(b - b'0'),
        b'a'..=b'f' => Some(b - b'a' + 10),
        _ => None,
    }
}

// What stands in front of a byte, and what behind it; all and nothing where it does not stand there.
fn cut(text: &[u8], by: u8) -> (&[u8], &[u8])
    ensures { length result.1.now ≤ length text.now }
{
    let n = text.iter().position(|&b| b == by).unwrap_or(text.len());
    let (front, back) = text.split_at(n);
    (front, back.get(1..).unwrap_or_default())
}

// Bytes put into a room from a place on, which is inside; where they end.
fn put(room: &mut [u8], at: usize, bytes: &[u8]) -> Option<usize> {
    if room.len() <= at {
        return None;
    }
    let end = at.checked_add(bytes.len())?;
    room.get_mut(at..end)?.copy_from_slice(bytes);
    Some(end)
}

// A text behind its length byte.
fn put_counted(room: &mut [u8], at: usize, text: &[u8]) -> Option<usize> {
    let n = u8::try_from(text.len()).ok()?;
    let at = put(room, at, &[n])?;
    put(room, at, text)
}

// A text as a cell.
fn put_cell(room: &mut [u8], at: usize, text: &[u8]) -> Option<usize> {
    let mut cell = [0; 16];
    put_counted(&mut cell, 0, text)?;
    put(room, at, &cell)
}

// The bytes of a register by its digit: a u16 length and so many bytes, in 8,192 bytes of its own.
fn register(regs: &[u8], d: u8) -> Option<&[u8]> {
    let slot = regs.chunks_exact(8192).nth(usize::from(digit(d)?))?;
    slot.get(2..)?.get(..usize::from(records::u16_at(slot, 0)))
}

// One piece of a byte string, put into a room from a place on; what stands behind it, and where its bytes end.
fn piece<'a>(text: &'a [u8], regs: &[u8], room: &mut [u8], at: usize) -> Option<(&'a [u8], usize)>
    ensures { IfSome result (λ r. length r.0.now < length text.now) }
{
    let (&first, rest) = text.split_first()?;
    match first {
        b'"' => {
            let (inner, rest) = cut(rest, b'"');
            Some((rest, put(room, at, inner)?))
        }
        b'<' => {
            let (inner, rest) = cut(rest, b'>');
            Some((rest, put_counted(room, at, inner)?))
        }
        b'[' => {
            let (inner, rest) = cut(rest, b']');
            Some((rest, put_cell(room, at, inner)?))
        }
        b'$' => {
            let (&d, rest) = rest.split_first()?;
            Some((rest, put(room, at, register(regs, d)?)?))
        }
        high => {
            let (&low, rest) = rest.split_first()?;
            Some((rest, put(room, at, &[16 * digit(high)? + digit(low)?])?))
        }
    }
}

// The bytes between two places n times in all; where they end.
fn repeat(room: &mut [u8], from: usize, to: usize, n: u64) -> Option<usize> {
    if n == 0 {
        return Some(from);
    }
    let width = to.checked_sub(from)?;
    if 65536 < width || 16777216 < n {
        return None;
    }
    let end = to.checked_add(width * (n - 1) as usize)?;
    if room.len() < end {
        return None;
    }
    for i in to..end {
        room[i] = room[i - width];
    }
    Some(end)
}

// One piece, with how often it stands in front of it.
fn item<'a>(text: &'a [u8], regs: &[u8], room: &mut [u8], at: usize) -> Option<(&'a [u8], usize)>
    ensures { IfSome result (λ r. length r.0.now < length text.now) }
{
    let Some(counted) = text.strip_prefix(b"{") else {
        return piece(text, regs, room, at);
    };
    let (n, text) = cut(counted, b'}');
    let (rest, end) = piece(text, regs, room, at)?;
    Some((rest, repeat(room, at, end, number(n))?))
}

// A byte string, put at the front of a room.
pub fn string<'a>(token: &[u8], regs: &[u8], room: &'a mut [u8]) -> Option<&'a [u8]> {
    string_within(token, regs, room, usize::MAX)
}

// The same; a token longer than `longest` is none, but for those that begin with a dot.
pub fn string_within<'a>(
    token: &[u8],
    regs: &[u8],
    room: &'a mut [u8],
    longest: usize,
) -> Option<&'a [u8]>
    ensures { IfSome result (λ _. longest < length token.now → get_or token.now 0 0 ≡ 46) }
{
    let mut end = 0;
    if !token.starts_with(b".") {
        if longest < token.len() {
            return None;
        }
        let mut text = token;
        while !text.is_empty() {
            (text, end) = item(text, regs, room, end)?;
        }
    }
    room.get(..end)
}

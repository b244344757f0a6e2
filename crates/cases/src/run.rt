// Running a line of a file of cases.
use caseline::Line;

// $N BYTES: register N holds these bytes from now on.
fn define(line: &[u8], regs: &mut [u8], room: &mut [u8], longest: usize) -> Option<()> {
    let [_, d @ b'0'..=b'7', ..] = line else {
        return None;
    };
    let bytes = caseline::string_within(caseline::token(line, 1), regs, room, longest)?;
    let slot = regs.chunks_exact_mut(8192).nth(usize::from(d - b'0'))?;
    let (length, rest) = slot.split_at_mut_checked(2)?;
    rest.get_mut(..bytes.len())?.copy_from_slice(bytes);
    length.copy_from_slice(&(bytes.len() as u16).to_le_bytes());
    Some(())
}

// Whether a call passes, by its name.
fn is_passed(line: Line, room: &mut [u8], out: &mut [u8]) -> bool {
    entrycases::run_line(line, room, out)
        .or_else(|| sheetcases::run_line(line, room, out))
        .or_else(|| settingcases::run_line(line, room, out))
        .or_else(|| wordcases::run_line(line, room, out))
        == Some(true)
}

// Whether a line passes, with the longest token that is read as bytes; None of a comment, an empty line or a register.
pub fn run_line(
    line: &[u8],
    regs: &mut [u8],
    room: &mut [u8],
    out: &mut [u8],
    longest: usize,
) -> Option<bool> {
    match line.first() {
        None | Some(b'#') => None,
        Some(b'$') => match define(line, regs, room, longest) {
            Some(()) => None,
            None => Some(false),
        },
        _ => {
            let line = Line {
                text: line,
                regs,
                longest,
            };
            Some(is_passed(line, room, out))
        }
    }
}

// Each function that reads a line of cases, and the same up to a longest token.
use caseline::{Case, Line};

fn within<'a>(text: &'a [u8], regs: &'a [u8], longest: usize) -> Line<'a> {
    Line {
        text,
        regs,
        longest,
    }
}

#[test]
fn reads_a_byte_string(rt: HostRuntime) {
    let regs = [0; 65536];
    let mut room = [0; 16];
    assert!(rt; caseline::string(b"{2}0a<b>", &regs, &mut room) == Some(b"\x0a\x0a\x01b"));
    assert!(rt; caseline::string(b"0aff0", &regs, &mut room) == None);
    assert!(rt; caseline::string_within(b"0aff", &regs, &mut room, 4) == Some(b"\x0a\xff"));
    assert!(rt; caseline::string_within(b"0aff", &regs, &mut room, 3) == None);
    assert!(rt; caseline::string_within(b".0aff", &regs, &mut room, 3) == Some(b""));
}

// Whether the two arguments of a line and its first two tokens behind the arrow are as wanted.
fn is_read(case: Case, room: &mut [u8]) -> bool {
    let [first, second, ..] = case.arguments;
    first == b"\x0a".as_slice()
        && second == b"b".as_slice()
        && case.bytes(0, room) == Some(b"\x0a\xff")
        && case.tells(1, room, b"b", b"b")
}

fn reads<'a>(line: &'a [u8], regs: &'a [u8], room: &'a mut [u8]) -> Option<bool> {
    let (case, room) = Case::read(line, 2, regs, room)?;
    Some(is_read(case, room))
}

#[test]
fn reads_a_line(rt: HostRuntime) {
    let line = b"call 0a \"b\" -> 0aff =";
    let regs = [0; 65536];
    let mut room = [0; 16];
    assert!(rt; reads(line, &regs, &mut room) == Some(true));
    assert!(rt; caseline::passes(line, 2, &regs, &mut room, is_read) == Some(true));
    for (longest, wanted) in [(2, None), (3, Some(false)), (4, Some(true))] {
        let passed = within(line, &regs, longest).passes(2, &mut room, is_read);
        assert!(rt; passed == wanted, "at {longest}");
    }
}

#[test]
fn runs_a_line(rt: HostRuntime) {
    let regs = [0; 65536];
    let mut room = [0; 64];
    let mut out = [0; 64];
    let line = b"fold \"AB\" -> \"ab\"";
    assert!(rt; wordcases::run(line, &regs, &mut room, &mut out) == Some(true));
    assert!(rt; wordcases::run_line(within(line, &regs, 4), &mut room, &mut out) == Some(true));
    assert!(rt; wordcases::run_line(within(line, &regs, 3), &mut room, &mut out) == None);
    let line = b"fold 41 -> \"a\"";
    assert!(rt; wordcases::run_line(within(line, &regs, 3), &mut room, &mut out) == Some(true));
    assert!(rt; wordcases::run_line(within(line, &regs, 2), &mut room, &mut out) == Some(false));
    let line = b"new_store 07 -> 2 0 0 =";
    assert!(rt; entrycases::run(line, &regs, &mut room, &mut out) == Some(true));
    assert!(rt; entrycases::run_line(within(line, &regs, 1), &mut room, &mut out) == None);
    let line = b"new_sheet . 01000000 -> 2 0 0 =";
    assert!(rt; sheetcases::run(line, &regs, &mut room, &mut out) == Some(true));
    assert!(rt; sheetcases::run_line(within(line, &regs, 7), &mut room, &mut out) == None);
    let line = b"read_settings . {4}00 0000803f -> 2 0 {4}00 {4}00 {4}00 {4}00";
    assert!(rt; settingcases::run(line, &regs, &mut room, &mut out) == Some(true));
    assert!(rt; settingcases::run_line(within(line, &regs, 7), &mut room, &mut out) == None);
}

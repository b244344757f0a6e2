// The calls of the settings, each with its arguments from a line of cases.
use answers::{Refusal, Settings};
use caseline::{Arguments, Case};
use values::Setting;

// What a line hands to read_settings beside the store.
#[derive(Clone, Copy)]
pub struct Reader {
    version: u32,
    show: f32,
}

impl Reader {
    pub fn of(arguments: &Arguments) -> Option<Reader> {
        let version = caseline::four_bytes(arguments[1])?;
        let show = values::real_of(caseline::four_bytes(arguments[2])?);
        Some(Reader { version, show })
    }

    pub fn read(self, settings: &[u8]) -> Settings {
        answers::told_shown(read_settings::read_settings(settings, self.version, self.show))
    }
}

// Whether these bits are the four bytes of token k behind the arrow.
fn tells(case: Case, room: &mut [u8], k: usize, bits: u32) -> bool {
    case.bytes(k, room).and_then(caseline::four_bytes) == Some(bits)
}

// read_settings SETTINGS VERSION SHOW -> REFUSAL COUNT PITCH STRETCH LEVEL RACK
pub fn read_settings(case: Case, room: &mut [u8]) -> bool {
    let Some(reader) = Reader::of(&case.arguments) else {
        return false;
    };
    let a = reader.read(case.arguments[0]);
    u64::from(a.refusal) == case.number(0)
        && u64::from(a.count) == case.number(1)
        && tells(case, room, 2, values::bits_of_whole(a.pitch))
        && tells(case, room, 3, values::bits_of_real(a.stretch))
        && tells(case, room, 4, values::bits_of_whole(a.level))
        && tells(case, room, 5, values::bits_of_real(a.rack))
}

// What a line hands to write_setting beside the store.
#[derive(Clone, Copy)]
pub struct Writer<'a> {
    version: u32,
    name: &'a [u8],
    value: Setting,
}

impl<'a> Writer<'a> {
    pub fn of(arguments: &Arguments<'a>) -> Option<Writer<'a>> {
        let version = caseline::four_bytes(arguments[1])?;
        let kind = caseline::four_bytes(arguments[3])?;
        let value = values::setting_of(kind, caseline::four_bytes(arguments[4])?);
        Some(Writer {
            version,
            name: arguments[2],
            value,
        })
    }

    pub fn write(self, settings: &mut [u8]) -> Result<(), Refusal> {
        write_setting::write_setting(settings, self.version, self.name, self.value)
    }
}

// write_setting SETTINGS VERSION NAME KIND VALUE -> REFUSAL KIND VALUE SETTINGS
pub fn write_setting(case: Case, room: &mut [u8], out: &mut [u8]) -> bool {
    let Some(writer) = Writer::of(&case.arguments) else {
        return false;
    };
    let before = case.arguments[0];
    let n = caseline::load(out, before);
    let settings = &mut out[..n];
    let a = writer.write(settings);
    case.agrees(answers::told_done(a)) && case.tells(3, room, settings, before)
}

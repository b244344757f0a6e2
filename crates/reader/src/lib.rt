// `Reader` (01, Sections): a section and a position in it. A read takes what stands there and moves behind it, or takes nothing and stays.

#![tactic(auto)]

ghost use Rattle.std.specs.Prelude.{◌≡◌};
ghost use Rattle.reader.specs.Reader.{byte_at, number_at, Takes, TakesText};

#[derive(Drop)]
pub struct Reader<'a> {
    pub bytes: &'a [u8],
    pub pos: usize,
}

impl<'a> Reader<'a> {
    // A reader at the start of a section.
    pub fn new(bytes: &'a [u8]) -> Reader<'a>
        ensures { (result.bytes ≡ bytes.entry) × (result.pos ≡ 0) }
    {
        Reader { bytes, pos: 0 }
    }

    pub fn position(&self) -> usize
        ensures { result ≡ self.now.pos }
    {
        self.pos
    }

    // The reader at another position.
    pub fn moved(self, pos: usize) -> Reader<'a>
        ensures { (result.bytes ≡ self.entry.bytes) × (result.pos ≡ pos) }
    {
        Reader { pos, ..self }
    }

    #[tactic(auto, unfolding(crate::specs::Reader::byte_at))]
    pub fn read_byte(&mut self) -> Option<u8>
        ensures bytes { self.new.bytes ≡ self.old.bytes }
        ensures taken { Takes (byte_at self.old.bytes.now self.old.pos) self.old.pos result self.new.pos }
    {
        let b = *self.bytes.get(self.pos)?;
        self.pos += 1;
        Some(b)
    }

    #[tactic(auto, unfolding(crate::specs::Reader::number_at))]
    pub fn read_number(&mut self) -> Option<usize>
        ensures bytes { self.new.bytes ≡ self.old.bytes }
        ensures taken { Takes (number_at self.old.bytes.now self.old.pos) self.old.pos result self.new.pos }
    {
        if self.bytes.len() < 4 || self.bytes.len() - 4 < self.pos {
            return None;
        }
        let n = records::u32_at(self.bytes, self.pos) as usize;
        self.pos += 4;
        Some(n)
    }

    // The text of a string, of any bytes.
    #[tactic(auto, unfolding(crate::specs::Reader::string_at, crate::specs::Reader::fits))]
    pub fn read_string(&mut self) -> Option<&'a [u8]>
        ensures bytes { self.new.bytes ≡ self.old.bytes }
        ensures taken { TakesText self.old.bytes.now self.old.pos result self.new.pos }
    {
        let n = usize::from(*self.bytes.get(self.pos)?);
        let from = self.pos + 1;
        if 15 < n || self.bytes.len() - from < n {
            return None;
        }
        self.pos = from + n;
        Some(&self.bytes[from..self.pos])
    }
}

// The reader of rank sheets: it holds the text and its place in it. Each method calls a function on the text and the place, and moves on.
#![tactic(auto)]

ghost use Rattle.std.specs.Prelude.{◌≡◌};
ghost use Rattle.lines.specs.Fields.{field_of};
ghost use Rattle.lines.specs.Lines.{line_of};
ghost use Rattle.reader.specs.Reader.{begin_of, header_read, line_read, place_of};
ghost use Rattle.sheet.specs.Judging.{verdict_of, judged};

use lines::{Entry, Fault, Read};
use sheet::Bad;

// A reader of a sheet: the text, and the place in it where the reader stands.
#[derive(Clone, Copy)]
pub struct SheetReader<'a> {
    pub text: &'a [u8],
    pub at: usize,
}

// Where a step leaves the reader: past what was read, or at the fault's place.
fn place<T>(read: &Result<Read<T>, Fault>) -> usize
    ensures { result ≡ place_of read.now }
{
    match read {
        Ok(read) => read.next,
        Err(fault) => fault.at,
    }
}

impl<'a> SheetReader<'a> {
    // A reader at the text's start.
    #[tactic(auto, unfolding(crate::specs::Reader::begin_of))]
    pub fn begin(text: &'a [u8]) -> SheetReader<'a>
        ensures { result ≡ begin_of text.entry }
    {
        SheetReader { text, at: 0 }
    }

    // The sheet that begins where the reader stands, judged: its first bad line, where one is.
    pub fn judge(&self) -> Result<(), Bad>
        ensures { verdict_of result ≡ judged self.now.text.now self.now.at }
    {
        sheet::judged(self.text, self.at)
    }

    // The header where the reader stands.
    #[tactic(auto, unfolding(crate::specs::Reader::header_read, crate::specs::Reader::moved))]
    pub fn header(&mut self) -> Result<Read<u32>, Fault>
        ensures { (field_of result ≡ (header_read self.old).field) × (self.new ≡ (header_read self.old).rest) }
    {
        let header = sheet::header_at(self.text, self.at);
        self.at = place(&header);
        header
    }

    // The next note line.
    #[tactic(auto, unfolding(crate::specs::Reader::line_read, crate::specs::Reader::moved))]
    pub fn next_line(&mut self) -> Result<Read<Entry>, Fault>
        ensures { (line_of result ≡ (line_read self.old).line) × (self.new ≡ (line_read self.old).rest) }
    {
        let line = lines::note_line(self.text, self.at);
        self.at = place(&line);
        line
    }
}

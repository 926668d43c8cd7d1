// A rank sheet as text: its header and its lines, how long they are, and laid in a lent buffer.
#![tactic(auto)]

ghost use Rattle.std.specs.Prelude.{◌≡◌, [], ◌∷◌, ◌+◌, ◌≤◌, leb, length};
ghost use Rattle.buffers.specs.Copy.{copied};
ghost use Rattle.decimal.specs.Writing.{decimal};
ghost use Rattle.writing.specs.Texts.{field_text, digest_text, line_text, header_text};
ghost use Rattle.writing.specs.Putting.{HasRoom, Put};

use lines::{Entry, LF, TAB};

// How many figures a number has.
fn figures(n: u32) -> usize
    ensures { (result ≡ length (decimal n)) × (result ≤ 10) }
{
    n.max(1).ilog10() as usize + 1
}

// How many bytes line 1 has: RANK and the edition with a tab behind each, the number of notes, LF.
#[tactic(auto, using(crate::proofs::Sizes::header_size))]
pub fn header_size(count: u32) -> usize
    ensures { result ≡ length (header_text count) }
{
    8 + figures(count)
}

// How many bytes a note's line has: four numbers with a tab behind each, 64 digits, LF.
#[tactic(auto, using(crate::proofs::Sizes::line_size))]
pub fn line_size(e: Entry) -> usize
    ensures { result ≡ length (line_text e) }
{
    figures(e.note)
        + figures(e.sample.length)
        + figures(e.sample.loop_start)
        + figures(e.sample.loop_end)
        + 69
}

// Whether so many bytes fit behind a place. What room is left is compared with it: their sum could pass 2^64.
fn fits(room: usize, at: usize, size: usize) -> bool
    ensures { result ≡ leb (at + size) room }
{
    size <= room && at <= room - size
}

// A line that is laid in a lent buffer, and where its next byte goes.
#[derive(Drop)]
struct Line<'a> {
    buffer: &'a mut [u8],
    at: usize,
}

impl Line<'_> {
    #[tactic(auto, using(crate::proofs::Putting::sizes))]
    fn put_byte(&mut self, byte: u8)
        requires { HasRoom self.old (byte ∷ []) }
        ensures { Put self.old (byte ∷ []) self.new }
    {
        self.buffer[self.at] = byte;
        self.at += 1;
    }

    fn put_bytes(&mut self, bytes: &[u8])
        requires { HasRoom self.old bytes.now }
        ensures { Put self.old bytes.now self.new }
    {
        buffers::copy(self.buffer, self.at, bytes);
        self.at += bytes.len();
    }

    fn put_number(&mut self, value: u32)
        requires { HasRoom self.old (decimal value) }
        ensures { Put self.old (decimal value) self.new }
    {
        let figures = decimal::write(self.buffer, self.at, value as u64);
        self.at += figures;
    }

    // A number, and the byte that ends its field.
    #[tactic(auto, using(crate::proofs::Putting::sizes), unfolding(crate::specs::Texts::field_text))]
    fn put_field(&mut self, value: u32, ending: u8)
        requires { HasRoom self.old (field_text value ending) }
        ensures { Put self.old (field_text value ending) self.new }
    {
        self.put_number(value);
        self.put_byte(ending);
    }

    // A digest's digits, two for each byte.
    #[tactic(auto, using(crate::proofs::Putting::sizes))]
    fn put_digest(&mut self, digest: &[u8])
        requires { HasRoom self.old (digest_text digest.now) }
        ensures { Put self.old (digest_text digest.now) self.new }
    {
        for byte in digest {
            self.put_byte(hex_digits::letter_of(byte / 16));
            self.put_byte(hex_digits::letter_of(byte % 16));
        }
    }
}

// Writes line 1 from a place on, where all of it fits, and nothing where it does not. Answers how many bytes it has, also then.
#[tactic(auto, using(crate::proofs::Putting::sizes), unfolding(crate::specs::Texts::header_text))]
pub fn put_header(buffer: &mut [u8], at: usize, count: u32) -> usize
    ensures { (result ≡ length (header_text count)) × (buffer.new ≡ copied buffer.old at (header_text count)) }
{
    let size = header_size(count);
    if fits(buffer.len(), at, size) {
        let mut line = Line { buffer, at };
        line.put_bytes(b"RANK\t1\t");
        line.put_field(count, LF);
    }
    size
}

// Writes a note's line from a place on, where all of it fits, and nothing where it does not. Answers how many bytes it has, also then.
#[tactic(auto, using(crate::proofs::Putting::sizes), unfolding(crate::specs::Texts::line_text))]
pub fn put_line(buffer: &mut [u8], at: usize, e: Entry) -> usize
    ensures { (result ≡ length (line_text e)) × (buffer.new ≡ copied buffer.old at (line_text e)) }
{
    let size = line_size(e);
    if fits(buffer.len(), at, size) {
        let mut line = Line { buffer, at };
        line.put_field(e.note, TAB);
        line.put_field(e.sample.length, TAB);
        line.put_field(e.sample.loop_start, TAB);
        line.put_field(e.sample.loop_end, TAB);
        line.put_digest(&e.sample.digest);
        line.put_byte(LF);
    }
    size
}

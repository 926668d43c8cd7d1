// The fields and lines of a rank sheet, read by place through the lent text. Each step answers what it read and the next place, where the
// step behind it goes on, or its fault: so the first fault of a line is the line's.
#![tactic(auto)]

ghost use Rattle.std.specs.Prelude.{◌≡◌};
ghost use Rattle.lines.specs.Reading.{number_by, stop_of, is_good, has_at, mark_at, word_at};
ghost use Rattle.lines.specs.Fields.{field_of, field_at, digit_read, digest_of, digest_at};
ghost use Rattle.lines.specs.Lines.{line_of, note_line, header_line};

use rules::Record;

// What a step can want: the word RANK or the edition; a number; a tab or line end; a digest's digit.
#[derive(Clone, Copy, Debug, PartialEq, Eq)]
pub enum Wanted {
    Word = 1,
    Number = 2,
    Separator = 3,
    Digit = 4,
}

// What a step wanted where it found something else, and that place.
#[derive(Clone, Copy, Debug, PartialEq, Eq)]
pub struct Fault {
    pub wanted: Wanted,
    pub at: usize,
}

// What a step read, and the next place.
#[derive(Clone, Copy)]
pub struct Read<T> {
    pub value: T,
    pub next: usize,
}

// What a note line says.
#[derive(Clone, Copy)]
pub struct Entry {
    pub note: u32,
    pub sample: Record,
}

// The same by numbers, as the definitions have it, and of any number: what a step wanted, nothing more where all was well; and where it
// stopped.
#[derive(Clone, Copy)]
pub struct Stop {
    pub wanted: u8,
    pub at: usize,
}

// All was well up to the place.
const NOTHING: u8 = 0;

// By numbers, what a number's step answers.
#[derive(Clone, Copy)]
pub struct Field {
    pub stop: Stop,
    pub value: u32,
}

// By numbers, what a note line's answers.
#[derive(Clone, Copy)]
pub struct NoteLine {
    pub stop: Stop,
    pub entry: Entry,
}

// Whether all was well: what is wanted may be any number.
pub fn is_good(s: Stop) -> bool
    ensures { result ≡ is_good s }
{
    s.wanted == NOTHING
}

impl From<Result<Read<u32>, Fault>> for Field {
    ghost from_gives = { λ answer field. field ≡ field_of answer };

    fn from(answer: Result<Read<u32>, Fault>) -> Field {
        match answer {
            Ok(read) => Field {
                stop: Stop {
                    wanted: NOTHING,
                    at: read.next,
                },
                value: read.value,
            },
            Err(fault) => Field {
                stop: Stop {
                    wanted: fault.wanted as u8,
                    at: fault.at,
                },
                value: 0,
            },
        }
    }
}

pub const TAB: u8 = b'\t';

pub const LF: u8 = b'\n';

// Whether the text has a given byte at a place.
fn has_at(text: &[u8], at: usize, byte: u8) -> bool
    ensures { result ≡ has_at text.now at byte }
{
    text.get(at) == Some(&byte)
}

// One given byte: the next place.
#[tactic(auto, using(crate::proofs::Marks::has_below), unfolding(crate::specs::Reading::mark_at))]
pub fn mark_at(text: &[u8], at: usize, mark: u8, wanted: Wanted) -> Result<usize, Fault>
    ensures { stop_of result ≡ mark_at text.now at mark (number_by wanted) }
{
    if has_at(text, at, mark) {
        Ok(at + 1)
    } else {
        Err(Fault { wanted, at })
    }
}

// Given bytes, one after the other.
#[tactic(auto, using(crate::proofs::Marks::word_steps))]
pub fn word_at(text: &[u8], at: usize, letters: &[u8], wanted: Wanted) -> Result<usize, Fault>
    ensures { stop_of result ≡ word_at text.now at letters.now (number_by wanted) }
{
    let mut next = at;
    for letter in letters {
        next = mark_at(text, next, *letter, wanted)?;
    }
    Ok(next)
}

// A number and the byte that ends its field.
#[tactic(auto, using(crate::proofs::Places::field_steps))]
pub fn field_at(text: &[u8], at: usize, ending: u8) -> Result<Read<u32>, Fault>
    ensures { field_of result ≡ field_at text.now at ending }
{
    let Some(number) = decimal::read(text, at) else {
        return Err(Fault {
            wanted: Wanted::Number,
            at,
        });
    };
    let next = mark_at(text, number.next, ending, Wanted::Separator)?;
    Ok(Read {
        value: number.value,
        next,
    })
}

// The value of the digit at a place. There is none past the end, as where the table has 255.
#[tactic(auto, using(crate::proofs::Digests::digit_steps))]
fn digit_at(text: &[u8], at: usize) -> Result<u8, Fault>
    ensures { result ≡ digit_read text.now at }
{
    let value = match text.get(at) {
        Some(code) => hex_digits::value_of(*code),
        None => 255,
    };
    if value < 16 {
        Ok(value)
    } else {
        Err(Fault {
            wanted: Wanted::Digit,
            at,
        })
    }
}

// The 64 digits that begin at a place, two for each byte.
#[tactic(auto, using(crate::proofs::Digests::digest_steps), unfolding(crate::specs::Fields::digest_at))]
pub fn digest_at(text: &[u8], at: usize) -> Result<Read<[u8; 32]>, Fault>
    ensures { digest_of result ≡ digest_at text.now at }
{
    let mut digest = [0u8; 32];
    let mut next = at;
    for byte in &mut digest {
        let high = digit_at(text, next)?;
        let low = digit_at(text, next + 1)?;
        *byte = high * 16 + low;
        next += 2;
    }
    Ok(Read {
        value: digest,
        next,
    })
}

// A note line: note, length in bytes, loop start and end in frames, digest.
#[tactic(auto, using(crate::proofs::Whole::line_steps))]
pub fn note_line(text: &[u8], at: usize) -> Result<Read<Entry>, Fault>
    ensures { line_of result ≡ note_line text.now at }
{
    let note = field_at(text, at, TAB)?;
    let length = field_at(text, note.next, TAB)?;
    let start = field_at(text, length.next, TAB)?;
    let end = field_at(text, start.next, TAB)?;
    let digest = digest_at(text, end.next)?;
    let next = mark_at(text, digest.next, LF, Wanted::Separator)?;
    let bytes = digest.value;
    let sample = Record {
        length: length.value,
        loop_start: start.value,
        loop_end: end.value,
        digest: bytes,
    };
    Ok(Read {
        value: Entry {
            note: note.value,
            sample,
        },
        next,
    })
}

// The header at a place: RANK, the edition, which is a figure, and the number of notes.
#[tactic(auto, using(crate::proofs::Whole::header_steps))]
pub fn header_line(text: &[u8], at: usize, edition: u8) -> Result<Read<u32>, Fault>
    ensures { field_of result ≡ header_line text.now at edition }
{
    let rank = word_at(text, at, b"RANK", Wanted::Word)?;
    let first = mark_at(text, rank, TAB, Wanted::Separator)?;
    let figure = mark_at(text, first, edition, Wanted::Word)?;
    let second = mark_at(text, figure, TAB, Wanted::Separator)?;
    field_at(text, second, LF)
}

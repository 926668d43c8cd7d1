// What the program prints, as texts: a line for each listed note of a session, or one line for a refused sheet.
#![tactic(auto)]

ghost use Rattle.std.specs.Prelude.{◌≡◌};
ghost use Rattle.texts.specs.Texts.{with_part, text_of};
ghost use Rattle.report.specs.Report.{word, note_line, refused_line, line_of, report};

use refusal::ACCEPTED;
use session::Session;
use slots::{Answer, OPENED, WAITING};
use texts::Text;

// The word of a status.
#[tactic(auto, unfolding(crate::specs::Report::word))]
fn word(status: u8) -> &'static [u8]
    ensures { result.now ≡ word status }
{
    match status {
        WAITING => b"waiting",
        OPENED => b"open",
        _ => b"shut",
    }
}

// The line of a note: note, word, bytes taken, tab-parted.
pub fn note_line(note: u64, a: Answer) -> Text
    ensures { result ≡ text_of (note_line note a) }
{
    let noted = texts::with(texts::with_number(texts::empty(), note), b"\t");
    let worded = texts::with(texts::with(noted, word(a.status)), b"\t");
    texts::with(texts::with_number(worded, a.taken), b"\n")
}

// The line of a refused sheet: its number and its line, tab-parted.
pub fn refused_line(number: u8, line: u32) -> Text
    ensures { result ≡ text_of (refused_line number line) }
{
    let begun = texts::with(texts::with(texts::empty(), b"refused"), b"\t");
    let numbered = texts::with(texts::with_number(begun, number as u64), b"\t");
    texts::with(texts::with_number(numbered, line as u64), b"\n")
}

// The text with a note's line behind it, if the note is listed.
#[tactic(auto, using(texts::proofs::Parts::text_within))]
fn with_note(text: Text, note: u64, a: Answer) -> Text
    ensures { result ≡ with_part text (line_of note a) }
{
    if a.number != ACCEPTED {
        return text;
    }
    let line = note_line(note, a);
    texts::with(text, &line.bytes[..line.length])
}

// The lines of a session's listed notes, rising.
pub fn session_lines(session: Session) -> Text
    ensures { result ≡ text_of (report session) }
{
    let mut text = texts::empty();
    for (index, slot) in session.slots.iter().enumerate() {
        let note = index as u64 + 1;
        text = with_note(text, note, slots::ask_at(*slot, note));
    }
    text
}

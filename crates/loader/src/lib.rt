// The program's work, over a folder: a rank's sheet and its notes' files, and the text that is printed of them. What a file holds is not
// in the logic; what is made of it is.
#![tactic(auto)]

ghost use Rattle.std.specs.Prelude.{◌≡◌, ◌≤◌, length};
ghost use Rattle.loader.specs.Loading.{Fed, NoteLoaded, Loaded, OfSlot, SheetRead, Shown};

use refusal::ACCEPTED;
use session::Session;
use sheet::Sheet;
use slots::Slot;
use std::io;
use std::io::Read;
use std::rt::Files;
use texts::Text;

mod path;

// A file is delivered in full pieces of so many bytes, the last one shorter; a sheet is the first so many bytes of its file.
const PIECE: usize = 4096;

// So many notes can be listed.
const NOTES: u64 = 32;

// Reads until buf is full, the file ends or a read fails, and returns how many bytes it put at the start of buf. std's `read_exact` does not
// say how many came before the end, and `read_to_end` asks for memory, where it can fail and this cannot.
fn read_full<F: Read>(file: &mut F, buf: &mut [u8]) -> usize
    ensures { result ≤ length buf.new }
{
    let mut done = 0;
    while done < buf.len() {
        match file.read(&mut buf[done..]) {
            Ok(n) if n > 0 => done += n,
            _ => break,
        }
    }
    done
}

// A note's slot after the whole of its file, or after as much of it as comes before the first refusal. Each full piece that is accepted
// leaves fewer bytes to come, so the loop ends.
fn feed<F: Read>(file: &mut F, note: u64, slot: Slot) -> Slot
    ensures { OfSlot (Fed note) note slot result }
{
    let mut now = slot;
    let mut piece = [0u8; PIECE];
    loop {
        let n = read_full(file, &mut piece);
        if n == 0 {
            return now;
        }
        let step = slots::deliver_at(now, note, &piece[..n]);
        if step.answer.number != ACCEPTED {
            return now;
        }
        now = step.slot;
        if n < PIECE {
            return now;
        }
    }
}

// A note's slot once the note is loaded. What is not listed is left, and what cannot be opened delivers nothing.
fn load<R: Files>(rt: &R, folder: &[u8], note: u64, slot: Slot) -> Slot
    ensures { OfSlot (NoteLoaded note) note slot result }
{
    if slots::ask_at(slot, note).number != ACCEPTED {
        return slot;
    }
    let Some(mut file) = path::open_note(rt, folder, note) else {
        return slot;
    };
    feed(&mut file, note, slot)
}

// The session once its listed notes are loaded, rising. One slot is copied at a time.
#[tactic(auto, using(session::proofs::Putting::index_lt))]
fn load_all<R: Files>(rt: &R, folder: &[u8], mut session: Session) -> Session
    ensures { Loaded session result }
{
    for note in 1..=NOTES {
        let index = session::slot_index(note);
        let slot = session.slots[index];
        let after = load(rt, folder, note, slot);
        session.slots[index] = after;
        session.opened = session::open_after(session.opened, slot.status, after.status);
    }
    session
}

// The sheet of a file that is open, or of an empty text where there is none.
fn sheet_of<F: Read + Drop>(file: Option<F>) -> Sheet
    ensures { SheetRead result }
{
    let Some(mut open) = file else {
        return sheet::read(b"");
    };
    let mut text = [0u8; PIECE];
    let n = read_full(&mut open, &mut text);
    sheet::read(&text[..n])
}

// The text to print of a folder: of its rank.txt, and of the files of its notes. Public so that another crate's theorem can say what its
// contract means.
pub fn shown<R: Files>(rt: &R, folder: &[u8]) -> Text
    ensures { Shown result }
{
    let sheet = sheet_of(path::open_sheet(rt, folder));
    let verdict = sheet.verdict;
    if verdict.number != ACCEPTED {
        return report::refused_line(verdict.number, verdict.line);
    }
    report::session_lines(load_all(rt, folder, sheet.session))
}

// Prints that text, or fails where it cannot be written. The folder's name ends in `/`, or is empty for the folder that the program is run
// in.
pub fn run<R: Files + Print>(rt: &R, folder: &[u8]) -> io::Result<()> {
    let Text { bytes, length } = shown(rt, folder);
    rt.write_all(&bytes[..length])
}

// The rank sheet of a session that is lent, and only read, written into a lent buffer. The slots are gone through twice: nothing is written
// before all of it is known to fit.
#![tactic(auto)]

ghost use Rattle.std.specs.Prelude.{◌≡◌, ◌+◌, ◌<◌, ◌≤◌, length, IfOk};
ghost use Rattle.std.specs.Option.{option_to_list};
ghost use Rattle.refusal.specs.Table.{written_of};
ghost use Rattle.writing.specs.Texts.{line_text};
ghost use Rattle.writing.specs.Writing.{entry_of, sheet_written, with_sheet};
ghost use Rattle.writer.specs.Survey.{survey};

use lines::Entry;
use refusal::Refusal;
use session::Session;
use slots::{NONE, Slot};

// What slots come to: how many are listed, and how many bytes their lines have.
#[derive(Clone, Copy)]
struct Found {
    notes: u32,
    size: usize,
}

// What a sheet says of the slot at an index: nothing of one that is not listed.
#[tactic(auto, using(writing::proofs::Notes::entry_listed, writing::proofs::Notes::entry_unlisted))]
fn entry_at(index: usize, slot: &Slot) -> Option<Entry>
    requires { index < 32 }
    ensures { option_to_list result ≡ entry_of (index + 1) slot.now }
{
    if slot.status == NONE {
        return None;
    }
    Some(Entry {
        note: index as u32 + 1,
        sample: slot.sample,
    })
}

// How many bytes a line has: at most 109, four numbers of ten figures and 69 bytes beside them.
fn size_of(e: Entry) -> usize
    ensures { (result ≡ length (line_text e)) × (result ≤ 109) }
{
    writing::line_size(e)
}

// What all 32 slots come to; refused where a listed one is not in order.
fn survey(s: &Session) -> Result<Found, Refusal>
    ensures { (result ≡ survey s.now) × IfOk result (λ found. found.size ≤ 3488) }
{
    let mut found = Found { notes: 0, size: 0 };
    for (index, slot) in s.slots.iter().enumerate() {
        let Some(entry) = entry_at(index, slot) else {
            continue;
        };
        if !slots::slot_in_order(*slot) {
            return Err(Refusal::SlotNotInOrder);
        }
        found.notes += 1;
        found.size += size_of(entry);
    }
    Ok(found)
}

// Writes the sheet of a session, and answers how many bytes it has; refused, the buffer stays as it was.
pub fn write(s: &Session, buffer: &mut [u8]) -> Result<usize, Refusal>
    ensures { (written_of result ≡ sheet_written s.now (length buffer.old))
        × (buffer.new ≡ with_sheet s.now buffer.old) }
{
    let found = survey(s)?;
    if found.notes == 0 {
        return Err(Refusal::NoneListed);
    }
    let size = writing::header_size(found.notes) + found.size;
    if buffer.len() < size {
        return Err(Refusal::ShortBuffer);
    }
    let mut at = writing::put_header(buffer, 0, found.notes);
    for (index, slot) in s.slots.iter().enumerate() {
        if let Some(entry) = entry_at(index, slot) {
            at += writing::put_line(buffer, at, entry);
        }
    }
    Ok(size)
}

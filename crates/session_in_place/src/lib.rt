// The loading session in place, in a session that is lent: what a board calls. Only the note's own slot is copied, and written back.
#![tactic(auto)]

ghost use Rattle.std.specs.Prelude.{◌≡◌};
ghost use Rattle.session.specs.Sessions.{empty_session};
ghost use Rattle.session.specs.Light.{ready as lit};
ghost use Rattle.session.specs.Operations.{deliver as delivered, ask as asked};
ghost use Rattle.sheet.specs.Judging.{verdict_of, entries_at, with_notes, sheet_of};

use lines::Field;
use reader::SheetReader;
use session::{Session, slot_index};
use sheet::{Bad, Verdict};
use slots::{Answer, ask_at, deliver_at};

// A delivery into a lent session. A refusal puts back what was there, and opens nothing.
pub fn deliver(s: &mut Session, note: u64, piece: &[u8]) -> Answer
    ensures { (result ≡ (delivered s.old note piece.now).answer)
        × (s.new ≡ (delivered s.old note piece.now).session) }
{
    let index = slot_index(note);
    let slot = s.slots[index];
    let step = deliver_at(slot, note, piece);
    s.slots[index] = step.slot;
    s.opened = session::open_after(s.opened, slot.status, step.slot.status);
    step.answer
}

// Asking through a lent session.
pub fn ask(s: &Session, note: u64) -> Answer
    ensures { result ≡ asked s.now note }
{
    let index = slot_index(note);
    ask_at(s.slots[index], note)
}

// The rank-ready light of a lent session: the two counts are read, and no slot is.
pub fn ready(s: &Session) -> bool
    ensures { result ≡ lit s.now }
{
    session::all_open(s.listed, s.opened)
}

// Lists no note in a lent session, and none is open.
pub fn list_none(s: &mut Session)
    ensures { s.new ≡ empty_session }
{
    for slot in &mut s.slots {
        *slot = slots::empty_slot();
    }
    s.listed = 0;
    s.opened = 0;
}

// Lists the notes of so many lines, from a place, in a lent session.
#[tactic(auto, using(sheet::proofs::Filling::listing_steps))]
fn fill(s: &mut Session, text: &[u8], at: usize, notes: u32)
    ensures { s.new ≡ with_notes s.old (entries_at notes text.now at) }
{
    let mut next = at;
    for _ in 0..notes {
        let listing = sheet::listing_at(text, next);
        s.slots[listing.index] = listing.slot;
        next = listing.next;
    }
}

// A rank sheet, read into a lent session by a reader that holds the text: judged, and then listed; none of its notes if a line is bad.
#[tactic(auto, using(crate::proofs::Sheets::reading_steps))]
pub fn read_into(s: &mut Session, text: &[u8]) -> Result<(), Bad>
    ensures { (verdict_of result ≡ (sheet_of text.now).verdict) × (s.new ≡ (sheet_of text.now).session) }
{
    let mut reader = SheetReader::begin(text);
    let judged = reader.judge();
    let from = sheet::start_of(Field::from(reader.header()), Verdict::from(judged));
    list_none(s);
    fill(s, text, from.at, from.notes);
    s.listed = from.listed;
    judged
}

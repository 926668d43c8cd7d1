// The rank sheet, judged line by line, and the session that it gives.
#![tactic(auto)]

ghost use Rattle.std.specs.Prelude.{◌≡◌};
ghost use Rattle.lines.specs.Fields.{field_of};
ghost use Rattle.sheet.specs.Judging.{header_at, header_number, note_number, header_judged, entry_judged, line_judged};
ghost use Rattle.sheet.specs.Judging.{verdict_of, judged, entries_at, with_notes, sheet_of};
ghost use Rattle.sheet.specs.Filling.{start, listing, with_listed};
ghost use Rattle.session.specs.Sessions.{empty_session};

use lines::{Entry, Fault, Field, NoteLine, Read, is_good};
use refusal::{ACCEPTED, Refusal};
use session::Session;
use slots::Slot;

// The edition of these sheets: the figure 1.
const EDITION: u8 = b'1';

// A bad line: why it is refused, and its number, from 1.
#[derive(Clone, Copy, Debug, PartialEq, Eq)]
pub struct Bad {
    pub refusal: Refusal,
    pub line: u32,
}

// What a C host is told of a judged sheet: the refusal's number and the bad line's; both 0 where none is bad.
#[repr(C)]
#[derive(Clone, Copy)]
pub struct Verdict {
    pub number: u8,
    pub line: u32,
}

impl From<Result<(), Bad>> for Verdict {
    ghost from_gives = { λ judged v. v ≡ verdict_of judged };

    #[tactic(auto, unfolding(crate::specs::Judging::verdict_of, crate::specs::Judging::verdict_at, crate::specs::Judging::all_good))]
    fn from(judged: Result<(), Bad>) -> Verdict {
        match judged {
            Ok(()) => Verdict {
                number: ACCEPTED,
                line: 0,
            },
            Err(bad) => Verdict {
                number: bad.refusal.number(),
                line: bad.line,
            },
        }
    }
}

// What reading a sheet answers a C host.
#[repr(C)]
#[derive(Clone, Copy)]
pub struct Sheet {
    pub verdict: Verdict,
    pub session: Session,
}

// Where a sheet's note lines begin, and how many there are; the same as a session carries it.
#[derive(Clone, Copy)]
pub struct Start {
    pub at: usize,
    pub notes: u32,
    pub listed: u8,
}

// What a note line puts into a session: the slot, its index, and where the next line begins.
#[derive(Clone, Copy)]
pub struct Listing {
    pub index: usize,
    pub slot: Slot,
    pub next: usize,
}

// Line 1 of the sheet that begins at a place.
pub fn header_at(text: &[u8], at: usize) -> Result<Read<u32>, Fault>
    ensures { field_of result ≡ header_at text.now at }
{
    lines::header_line(text, at, EDITION)
}

// Line 1's refusal number, of what its step answers by numbers: form, then count.
#[tactic(auto, unfolding(crate::specs::Judging::header_number))]
pub fn header_number(h: Field) -> u8
    ensures { result ≡ header_number h }
{
    if !is_good(h.stop) {
        return Refusal::Form.number();
    }
    if rules::count_rule(h.value) {
        ACCEPTED
    } else {
        Refusal::CountOrNote.number()
    }
}

// Line 1, or why it is refused: form, then count.
#[tactic(auto, unfolding(crate::specs::Judging::header_judged))]
pub fn header_judged(header: Result<Read<u32>, Fault>) -> Result<Read<u32>, Refusal>
    ensures { result ≡ header_judged header }
{
    let Ok(read) = header else {
        return Err(Refusal::Form);
    };
    if rules::count_rule(read.value) {
        Ok(read)
    } else {
        Err(Refusal::CountOrNote)
    }
}

// Why a well-formed note line is refused: note, then length, then loop.
#[tactic(auto, unfolding(crate::specs::Judging::entry_judged))]
pub fn entry_number(last: u32, e: Entry) -> Result<(), Refusal>
    ensures { result ≡ entry_judged last e }
{
    if !rules::note_rule(last, e.note) {
        return Err(Refusal::CountOrNote);
    }
    if !rules::good_length(e.sample) {
        return Err(Refusal::BadLength);
    }
    if !rules::good_loop(e.sample) {
        return Err(Refusal::BadLoop);
    }
    Ok(())
}

// A note line's refusal number, of what its step answers by numbers: form first.
#[tactic(auto, using(crate::proofs::Verdicts::entry_numbered), unfolding(crate::specs::Judging::note_number))]
pub fn note_number(last: u32, l: NoteLine) -> u8
    ensures { result ≡ note_number last l }
{
    if is_good(l.stop) {
        refusal::number_of(entry_number(last, l.entry))
    } else {
        Refusal::Form.number()
    }
}

// A note line, or why it is refused: form first.
#[tactic(auto, unfolding(crate::specs::Judging::line_judged))]
pub fn line_judged(last: u32, line: Result<Read<Entry>, Fault>) -> Result<Read<Entry>, Refusal>
    ensures { result ≡ line_judged last line }
{
    let Ok(read) = line else {
        return Err(Refusal::Form);
    };
    entry_number(last, read.value)?;
    Ok(read)
}

// The sheet that begins at a place of a text, judged: its first bad line, where one is.
#[tactic(auto, using(crate::proofs::Verdicts::line_steps))]
pub fn judged(text: &[u8], at: usize) -> Result<(), Bad>
    ensures { verdict_of result ≡ judged text.now at }
{
    let header = header_judged(header_at(text, at)).map_err(|refusal| Bad { refusal, line: 1 })?;
    let mut next = header.next;
    let mut last = 0;
    for line in 2..header.value + 2 {
        let read = lines::note_line(text, next);
        let note = line_judged(last, read).map_err(|refusal| Bad { refusal, line })?;
        last = note.value.note;
        next = note.next;
    }
    if next < text.len() {
        return Err(Bad {
            refusal: Refusal::Form,
            line: header.value + 2,
        });
    }
    Ok(())
}

// Where the note lines begin behind a header, and how many there are: none of a refused sheet. An accepted one has at most 32.
#[tactic(auto, unfolding(crate::specs::Filling::start))]
pub fn start_of(h: Field, v: Verdict) -> Start
    ensures { result ≡ start h v }
{
    let notes = if v.number == ACCEPTED { h.value } else { 0 };
    Start {
        at: h.stop.at,
        notes,
        listed: (notes % 256) as u8,
    }
}

// What the line at a place puts into a session; an ill-formed one would be of note 0.
#[tactic(auto, unfolding(crate::specs::Filling::listing, lines::specs::Lines::no_entry))]
pub fn listing_at(text: &[u8], at: usize) -> Listing
    ensures { result ≡ listing text.now at }
{
    let (entry, next) = match lines::note_line(text, at) {
        Ok(line) => (line.value, line.next),
        Err(fault) => {
            let sample = rules::zero_record();
            (Entry { note: 0, sample }, fault.at)
        }
    };
    Listing {
        index: session::slot_index(entry.note as u64),
        slot: slots::waiting_slot(entry.sample),
        next,
    }
}

// The session that lists the notes of so many lines, from a place, and carries this count of them. The slots are filled before the session
// is made of them: filled in it, they would be copied once more.
#[tactic(auto, using(crate::proofs::Filling::listing_steps))]
pub fn filled(text: &[u8], at: usize, notes: u32, listed: u8) -> Session
    ensures { result ≡ with_listed (with_notes empty_session (entries_at notes text.now at)) listed }
{
    let none = slots::empty_slot();
    let mut slots = [none; 32];
    let mut next = at;
    for _ in 0..notes {
        let listing = listing_at(text, next);
        slots[listing.index] = listing.slot;
        next = listing.next;
    }
    Session {
        slots,
        listed,
        opened: 0,
    }
}

// A rank sheet: its lines are judged, and then the session is filled from them; from none of them if one is bad.
#[tactic(auto, using(crate::proofs::Filling::sheet_session))]
pub fn read(text: &[u8]) -> Sheet
    ensures { result ≡ sheet_of text.now }
{
    let verdict = Verdict::from(judged(text, 0));
    let from = start_of(Field::from(header_at(text, 0)), verdict);
    let session = filled(text, from.at, from.notes, from.listed);
    Sheet { verdict, session }
}

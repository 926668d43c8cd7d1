// One note's slot: whether it is in order, what a delivery makes of it, and what asking gives.
#![tactic(auto)]

ghost use Rattle.std.specs.Prelude.{◌≡◌};
ghost use Rattle.refusal.specs.Table.{number_by, number_of};
ghost use Rattle.slots.specs.Slots.{state_in_order, slot_in_order, bytes_taken, empty_slot, waiting_slot};
ghost use Rattle.slots.specs.Delivery.{bare_refusal, as_it_stands, decided_slot, with_piece, deliver_to, ask_of, is_listed, deliver_at, ask_at};

use hash::Hash;
use refusal::Refusal;
use rules::Record;

// One note's place in the session.
#[repr(C)]
#[derive(Clone, Copy)]
pub struct Slot {
    pub sample: Record,
    pub state: Hash,
    pub status: u8,
}

// What a delivery and asking answer, but for the session.
#[repr(C)]
#[derive(Clone, Copy)]
pub struct Answer {
    pub number: u8,
    pub status: u8,
    pub taken: u64,
}

// What an operation on one slot answers, and the slot after it.
#[derive(Clone, Copy)]
pub struct Step {
    pub answer: Answer,
    pub slot: Slot,
}

// A slot's status. Any other is listed and not in order.
pub const NONE: u8 = 0;

pub const WAITING: u8 = 1;

pub const OPENED: u8 = 2;

pub const SHUT: u8 = 3;

// Whether a slot's hash state fits its status.
#[tactic(auto, unfolding(crate::specs::Slots::state_in_order, crate::specs::Slots::is_decided))]
fn state_in_order(s: Slot) -> bool
    ensures { result ≡ state_in_order s }
{
    match s.status {
        WAITING => s.state.in_order() && s.state.total < s.sample.length as u64,
        OPENED | SHUT => s.state.is_fresh(),
        _ => false,
    }
}

#[tactic(auto, unfolding(crate::specs::Slots::slot_in_order))]
pub fn slot_in_order(s: Slot) -> bool
    ensures { result ≡ slot_in_order s }
{
    rules::obeys(s.sample) && state_in_order(s)
}

// Bytes taken.
#[tactic(auto, unfolding(crate::specs::Slots::bytes_taken))]
fn bytes_taken(s: Slot) -> u64
    ensures { result ≡ bytes_taken s }
{
    if s.status == WAITING {
        s.state.total
    } else {
        s.sample.length as u64
    }
}

// A listed note's slot, of which nothing has come yet.
#[tactic(auto, unfolding(crate::specs::Slots::waiting_slot))]
pub fn waiting_slot(r: Record) -> Slot
    ensures { result ≡ waiting_slot r }
{
    Slot {
        sample: r,
        state: Hash::fresh(),
        status: WAITING,
    }
}

// A slot of no note.
#[tactic(auto, unfolding(crate::specs::Slots::empty_slot, crate::specs::Slots::waiting_slot))]
pub fn empty_slot() -> Slot
    ensures { result ≡ empty_slot }
{
    Slot {
        status: NONE,
        ..waiting_slot(rules::zero_record())
    }
}

// A refusal that tells nothing of a slot.
#[tactic(auto, unfolding(crate::specs::Delivery::bare_refusal))]
fn bare_refusal(refusal: Refusal) -> Answer
    ensures { result ≡ bare_refusal (number_by refusal) }
{
    Answer {
        number: refusal.number(),
        status: NONE,
        taken: 0,
    }
}

#[tactic(auto, unfolding(crate::specs::Delivery::as_it_stands))]
fn as_it_stands(answer: Result<(), Refusal>, s: Slot) -> Answer
    ensures { result ≡ as_it_stands (number_of answer) s }
{
    Answer {
        number: refusal::number_of(answer),
        status: s.status,
        taken: bytes_taken(s),
    }
}

// The note is decided: h has all of its bytes.
fn decided_slot(s: Slot, h: Hash) -> Slot
    ensures { result ≡ decided_slot s h }
{
    // No refusal: h came of an accepted update, so it is in order, and a record's digest has 32 bytes.
    let digest = s.sample.digest;
    let same = h.matches(&digest).unwrap_or(false);
    Slot {
        state: Hash::fresh(),
        status: if same { OPENED } else { SHUT },
        ..s
    }
}

// A piece that does not run past the length.
#[tactic(auto, using(crate::proofs::Deliver::pieces))]
fn with_piece(s: Slot, piece: &[u8]) -> Slot
    ensures { result ≡ with_piece s piece.now }
{
    // No refusal: a slot in order has a state in order, and the piece ends within the length, which is far below 2^61.
    let state = s.state.update(piece).unwrap_or(s.state);
    if state.total < s.sample.length as u64 {
        Slot {
            state,
            status: WAITING,
            ..s
        }
    } else {
        decided_slot(s, state)
    }
}

// A delivery to a listed slot.
#[tactic(auto, using(crate::proofs::Deliver::deliveries))]
fn deliver_to(s: Slot, piece: &[u8]) -> Step
    ensures { result ≡ deliver_to s piece.now }
{
    if !slot_in_order(s) {
        let answer = bare_refusal(Refusal::SlotNotInOrder);
        return Step { answer, slot: s };
    }
    if s.status != WAITING {
        let answer = as_it_stands(Err(Refusal::Decided), s);
        return Step { answer, slot: s };
    }
    // A sum could wrap, a difference cannot: a waiting slot in order has taken less than its length.
    let room = s.sample.length as u64 - s.state.total;
    if piece.len() as u64 > room {
        let answer = as_it_stands(Err(Refusal::PastLength), s);
        return Step { answer, slot: s };
    }
    let slot = with_piece(s, piece);
    let answer = as_it_stands(Ok(()), slot);
    Step { answer, slot }
}

// Asking a listed slot.
#[tactic(auto, unfolding(crate::specs::Delivery::ask_of))]
fn ask_of(s: Slot) -> Answer
    ensures { result ≡ ask_of s }
{
    if slot_in_order(s) {
        as_it_stands(Ok(()), s)
    } else {
        bare_refusal(Refusal::SlotNotInOrder)
    }
}

// Whether the number is a note and the slot at its place is listed.
#[tactic(auto, unfolding(crate::specs::Delivery::is_listed))]
fn is_listed(s: Slot, note: u64) -> bool
    ensures { result ≡ is_listed s note }
{
    rules::is_note(note) && s.status != NONE
}

// A delivery to the slot at a note's place.
#[tactic(auto, unfolding(crate::specs::Delivery::deliver_at, crate::specs::Delivery::on_slot))]
pub fn deliver_at(s: Slot, note: u64, piece: &[u8]) -> Step
    ensures { result ≡ deliver_at s note piece.now }
{
    if is_listed(s, note) {
        deliver_to(s, piece)
    } else {
        let answer = bare_refusal(Refusal::Unlisted);
        Step { answer, slot: s }
    }
}

// Asking the slot at a note's place.
#[tactic(auto, unfolding(crate::specs::Delivery::ask_at))]
pub fn ask_at(s: Slot, note: u64) -> Answer
    ensures { result ≡ ask_at s note }
{
    if is_listed(s, note) {
        ask_of(s)
    } else {
        bare_refusal(Refusal::Unlisted)
    }
}

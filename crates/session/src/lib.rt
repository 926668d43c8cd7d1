// The loading session: 32 slots, one a note, and the rank-ready light's two counts.
#![tactic(auto)]

ghost use Rattle.std.specs.Prelude.{◌≡◌};
ghost use Rattle.session.specs.Sessions.{empty_session, slot_index};
ghost use Rattle.session.specs.Light.{open_after, all_open, ready};
ghost use Rattle.session.specs.Operations.{deliver, ask};

use slots::{Answer, OPENED, Slot};

// 32 slots, one a note; how many notes are listed, and how many are open.
#[repr(C)]
#[derive(Clone, Copy)]
pub struct Session {
    pub slots: [Slot; 32],
    pub listed: u8,
    pub opened: u8,
}

// What a delivery answers, and the session after it.
#[repr(C)]
#[derive(Clone, Copy)]
pub struct Delivered {
    pub answer: Answer,
    pub session: Session,
}

// A session with no note listed.
#[tactic(auto, unfolding(crate::specs::Sessions::empty_session))]
pub fn empty_session() -> Session
    ensures { result ≡ empty_session }
{
    Session {
        slots: [slots::empty_slot(); 32],
        listed: 0,
        opened: 0,
    }
}

// The index of a note's slot, and 0 for a number that is no note.
pub fn slot_index(note: u64) -> usize
    ensures { result ≡ slot_index note }
{
    if rules::is_note(note) {
        (note - 1) as usize
    } else {
        0
    }
}

// The open count, by a note's status before and after what was done to it. It goes no further than the notes.
#[tactic(auto, unfolding(crate::specs::Light::open_after, crate::specs::Light::opens, crate::specs::Light::one_more))]
pub fn open_after(count: u8, before: u8, after: u8) -> u8
    ensures { result ≡ open_after count before after }
{
    if before != OPENED && after == OPENED && count < rules::NOTES as u8 {
        count + 1
    } else {
        count
    }
}

// The light, by the two counts alone.
#[tactic(auto, unfolding(crate::specs::Light::all_open))]
pub fn all_open(listed: u8, opened: u8) -> bool
    ensures { result ≡ all_open listed opened }
{
    listed == opened && opened != 0
}

impl Session {
    pub fn deliver(mut self, note: u64, piece: &[u8]) -> Delivered
        ensures { result ≡ deliver self note piece.now }
    {
        let index = slot_index(note);
        let slot = self.slots[index];
        let step = slots::deliver_at(slot, note, piece);
        self.slots[index] = step.slot;
        self.opened = open_after(self.opened, slot.status, step.slot.status);
        Delivered {
            answer: step.answer,
            session: self,
        }
    }

    pub fn ask(self, note: u64) -> Answer
        ensures { result ≡ ask self note }
    {
        let index = slot_index(note);
        slots::ask_at(self.slots[index], note)
    }

    // Whether every listed note is open: the rank-ready light.
    #[tactic(auto, unfolding(crate::specs::Light::ready))]
    pub fn ready(self) -> bool
        ensures { result ≡ ready self }
    {
        all_open(self.listed, self.opened)
    }
}

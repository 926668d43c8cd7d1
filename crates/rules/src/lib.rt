// Rules 2 to 4 of a rank sheet. A line is judged by all of them, and a slot in order obeys rules 3 and 4.
#![tactic(auto)]

ghost use Rattle.std.specs.Prelude.{◌≡◌};
ghost use Rattle.rules.specs.Rules.{count_rule, is_note, note_rule, length_rule, loop_rule, good_length, good_loop, obeys, zero_record};

use units::{Bytes, Frames};

// What a sheet's line says of a note: length in bytes, loop start and end in frames, digest.
#[repr(C)]
#[derive(Clone, Copy, Debug, PartialEq, Eq)]
pub struct Record {
    pub length: u32,
    pub loop_start: u32,
    pub loop_end: u32,
    pub digest: [u8; 32],
}

// Notes are 1..32, and a sheet has 1 to 32 of them.
pub const NOTES: u32 = 32;

// A sample's bytes.
const SHORTEST_SAMPLE: u64 = 2;

const LONGEST_SAMPLE: u64 = 4294967294;

// Rule 2, on the number of notes.
#[tactic(auto, unfolding(crate::specs::Rules::count_rule))]
pub fn count_rule(count: u32) -> bool
    ensures { result ≡ count_rule count }
{
    (1..=NOTES).contains(&count)
}

// Whether a number is a note. It is not cut down: 261 is none.
#[tactic(auto, unfolding(crate::specs::Rules::is_note))]
pub fn is_note(note: u64) -> bool
    ensures { result ≡ is_note note }
{
    (1..=NOTES as u64).contains(&note)
}

// Rule 2, on a note and the one before it.
#[tactic(auto, unfolding(crate::specs::Rules::note_rule))]
pub fn note_rule(last: u32, note: u32) -> bool
    ensures { result ≡ note_rule last note }
{
    is_note(note as u64) && last < note
}

// Rule 3, on a sample's length.
#[tactic(auto, unfolding(crate::specs::Rules::length_rule))]
pub fn length_rule(length: Bytes) -> bool
    ensures { result ≡ length_rule length.0 }
{
    length.0 % 2 == 0 && (SHORTEST_SAMPLE..=LONGEST_SAMPLE).contains(&length.0)
}

// Rule 4, on a sample's length and its loop: here bytes and frames meet. The end is the last frame that sounds, so it lies below the
// number of frames. A byte that is no whole frame is left out: rule 3 refuses it.
pub fn loop_rule(length: Bytes, start: Frames, end: Frames) -> bool
    ensures { result ≡ loop_rule length.0 start.0 end.0 }
{
    let whole = Bytes(length.0 - length.0 % 2);
    let Some(frames) = whole.frames() else {
        return false;
    };
    start.0 <= end.0 && end.0 < frames.0
}

// Rule 3, and rule 4, of a record.
pub fn good_length(r: Record) -> bool
    ensures { result ≡ good_length r }
{
    length_rule(Bytes(r.length as u64))
}

pub fn good_loop(r: Record) -> bool
    ensures { result ≡ good_loop r }
{
    loop_rule(
        Bytes(r.length as u64),
        Frames(r.loop_start as u64),
        Frames(r.loop_end as u64),
    )
}

// Rules 3 and 4.
#[tactic(auto, unfolding(crate::specs::Rules::obeys))]
pub fn obeys(r: Record) -> bool
    ensures { result ≡ obeys r }
{
    good_length(r) && good_loop(r)
}

// The record of no note.
#[tactic(auto, unfolding(crate::specs::Rules::zero_record))]
pub fn zero_record() -> Record
    ensures { result ≡ zero_record }
{
    Record {
        length: 0,
        loop_start: 0,
        loop_end: 0,
        digest: [0; 32],
    }
}

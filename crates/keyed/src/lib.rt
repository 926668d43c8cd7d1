// The keyed sheet: a rank sheet and one more line, the MAC line, with the code of all bytes before it. The code is judged before any line
// of the sheet is.
#![tactic(auto)]

ghost use Rattle.std.specs.Prelude.{◌≡◌, ◌≤◌, length};
ghost use Rattle.refusal.specs.Table.{number_of};
ghost use Rattle.lines.specs.Fields.{digest_of};
ghost use Rattle.sheet.specs.Judging.{verdict_of};
ghost use Rattle.keyed.specs.Keyed.{begins_line, mac_line_at, whole, code_number, mac_number, covered, keyed_verdict, keyed_of};

use lines::{Fault, Field, LF, Read, TAB, Wanted};
use refusal::{ACCEPTED, Refusal};
use sheet::{Bad, Sheet, Verdict};
use units::LONGEST;

// The bytes of a MAC line, its LF too.
const MAC_LINE: usize = 69;

// Whether a line begins at a place: at the text's start, or behind an LF.
#[tactic(auto, using(crate::proofs::Judging::begins_first, crate::proofs::Judging::begins_behind))]
fn begins_line(text: &[u8], at: usize) -> bool
    requires { at ≤ length text.now }
    ensures { result ≡ begins_line text.now at }
{
    at == 0 || text[at - 1] == LF
}

// A MAC line at a place: its code, and where it ends; or where it has a fault.
#[tactic(auto, using(crate::proofs::Judging::mac_steps))]
fn mac_line(text: &[u8], at: usize) -> Result<Read<[u8; 32]>, Fault>
    ensures { digest_of result ≡ whole (mac_line_at text.now at) }
{
    let word = lines::word_at(text, at, b"MAC", Wanted::Word)?;
    let tab = lines::mark_at(text, word, TAB, Wanted::Separator)?;
    let code = lines::digest_at(text, tab)?;
    let next = lines::mark_at(text, code.next, LF, Wanted::Separator)?;
    let value = code.value;
    Ok(Read { value, next })
}

// Refusals 10 and 18: the bytes before the MAC line, and the code that stands in it.
#[tactic(auto, using(crate::proofs::Judging::code_steps))]
fn code_number(key: &[u8], bytes: &[u8], code: &[u8; 32]) -> Result<(), Refusal>
    ensures { number_of result ≡ code_number key.now bytes.now code.now }
{
    if mac::matches(key, bytes, code)? {
        Ok(())
    } else {
        Err(Refusal::OtherCode)
    }
}

// Key, MAC line and code: refusals 10 for the key, 17, 10 for the text, 18. A key that is too long and a text under 69 bytes are refused
// unread, a text that is too long after its last 70 bytes.
#[tactic(auto, using(crate::proofs::Judging::number_steps))]
pub fn mac_number(key: &[u8], text: &[u8]) -> Result<(), Refusal>
    ensures { number_of result ≡ mac_number key.now text.now }
{
    if LONGEST < key.len() as u64 {
        return Err(Refusal::TooLong);
    }
    if text.len() < MAC_LINE {
        return Err(Refusal::NoMacLine);
    }
    let at = text.len() - MAC_LINE;
    if !begins_line(text, at) {
        return Err(Refusal::NoMacLine);
    }
    let Ok(line) = mac_line(text, at) else {
        return Err(Refusal::NoMacLine);
    };
    code_number(key, &text[..at], &line.value)
}

// The bytes before the MAC line, where the number is no refusal (no text that was accepted is shorter than that line); else none: they are
// never read as a sheet.
#[tactic(auto, using(crate::proofs::Judging::cover_steps))]
pub fn covered(text: &[u8], number: u8) -> &[u8]
    ensures result_value { result.now ≡ covered text.now number }
    ensures ref_ptr_value { result.ref_ptr ≡ text.entry.ref_ptr }
{
    if number == ACCEPTED && MAC_LINE <= text.len() {
        &text[..text.len() - MAC_LINE]
    } else {
        &text[..0]
    }
}

// What a C host is told of the keyed sheet, from the MAC line's number and what it would be told of the sheet before it.
#[tactic(auto, unfolding(crate::specs::Keyed::keyed_verdict, sheet::specs::Judging::verdict_at))]
pub fn verdict_of(number: u8, sheet: Verdict) -> Verdict
    ensures { result ≡ keyed_verdict number sheet }
{
    if number == ACCEPTED {
        sheet
    } else {
        Verdict { number, line: 0 }
    }
}

// The keyed sheet, judged: the MAC line, which is refused on line 0, and then the sheet before it.
#[tactic(auto, using(crate::proofs::Judging::verdict_steps))]
pub fn judged(mac: Result<(), Refusal>, sheet: Result<(), Bad>) -> Result<(), Bad>
    ensures { verdict_of result ≡ keyed_verdict (number_of mac) (verdict_of sheet) }
{
    match mac {
        Ok(()) => sheet,
        Err(refusal) => Err(Bad { refusal, line: 0 }),
    }
}

// A keyed sheet: its MAC line is judged, and then what it covers is read, step by step as `sheet::read` does. (With a call of that from
// here too it is no longer put in place where a host calls it, and both would hold two sessions.)
pub fn read(key: &[u8], text: &[u8]) -> Sheet
    ensures { result ≡ keyed_of key.now text.now }
{
    let number = refusal::number_of(mac_number(key, text));
    let rest = covered(text, number);
    let verdict = Verdict::from(sheet::judged(rest, 0));
    let from = sheet::start_of(Field::from(sheet::header_at(rest, 0)), verdict);
    let session = sheet::filled(rest, from.at, from.notes, from.listed);
    Sheet {
        verdict: verdict_of(number, verdict),
        session,
    }
}

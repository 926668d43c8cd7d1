// The calls that work in place, on a state or a session that the host lends.
ghost use Rattle.std.specs.Prelude.{◌≡◌, length};
ghost use Rattle.hash.specs.Update.{update as updated};
ghost use Rattle.mac.specs.Codes.{update as code_updated};
ghost use Rattle.session.specs.Light.{ready as lit};
ghost use Rattle.session.specs.Operations.{deliver as delivered, ask as asked};
ghost use Rattle.sheet.specs.Judging.{sheet_of};
ghost use Rattle.keyed.specs.Keyed.{keyed_of};
ghost use Rattle.writing.specs.Writing.{sheet_written, with_sheet};

use hash::Hash;
use mac::Code;
use refusal::{Written, number_of};
use session::Session;
use sheet::Verdict;
use slots::Answer;

// Folds a piece into a lent hash state, and answers the number.
#[unsafe(no_mangle)]
pub extern "C" fn vs_update_in_place(state: &mut Hash, piece: &[u8]) -> u8
    ensures { (result ≡ (updated state.old piece.now).number)
        × (state.new ≡ (updated state.old piece.now).state) }
{
    number_of(hash_in_place::update(state, piece))
}

// Takes a piece into a lent code state, and answers the number.
#[unsafe(no_mangle)]
pub extern "C" fn vs_code_update_in_place(state: &mut Code, piece: &[u8]) -> u8
    ensures { (result ≡ (code_updated state.old piece.now).number)
        × (state.new ≡ (code_updated state.old piece.now).state) }
{
    number_of(mac_in_place::update(state, piece))
}

// A delivery into a lent session.
#[unsafe(no_mangle)]
pub extern "C" fn vs_deliver_in_place(session: &mut Session, note: u64, piece: &[u8]) -> Answer
    ensures { (result ≡ (delivered session.old note piece.now).answer)
        × (session.new ≡ (delivered session.old note piece.now).session) }
{
    session_in_place::deliver(session, note, piece)
}

// Asking through a lent session.
#[unsafe(no_mangle)]
pub extern "C" fn vs_ask_in_place(session: &Session, note: u64) -> Answer
    ensures { result ≡ asked session.now note }
{
    session_in_place::ask(session, note)
}

// The rank-ready light of a lent session.
#[unsafe(no_mangle)]
pub extern "C" fn vs_ready(session: &Session) -> bool
    ensures { result ≡ lit session.now }
{
    session_in_place::ready(session)
}

// A rank sheet, read into a lent session.
#[unsafe(no_mangle)]
pub extern "C" fn vs_sheet_read_in_place(session: &mut Session, text: &[u8]) -> Verdict
    ensures { (result ≡ (sheet_of text.now).verdict) × (session.new ≡ (sheet_of text.now).session) }
{
    session_in_place::read_into(session, text).into()
}

// A keyed sheet, read into a lent session.
#[unsafe(no_mangle)]
pub extern "C" fn vs_keyed_read_in_place(session: &mut Session, key: &[u8], text: &[u8]) -> Verdict
    ensures { (result ≡ (keyed_of key.now text.now).verdict)
        × (session.new ≡ (keyed_of key.now text.now).session) }
{
    keyed_in_place::read_into(session, key, text).into()
}

// The rank sheet of a lent session, which is only read, into a lent buffer.
#[unsafe(no_mangle)]
pub extern "C" fn vs_sheet_write(session: &Session, buffer: &mut [u8]) -> Written
    ensures { (result ≡ sheet_written session.now (length buffer.old))
        × (buffer.new ≡ with_sheet session.now buffer.old) }
{
    writer::write(session, buffer).into()
}

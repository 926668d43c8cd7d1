// What a C host calls (host/veenstipper.h). Nothing here decides anything: each function passes on, and its contract is that of what it
// passes on to. A library exports nothing to C: the crate `door_c` is the static library, and exports each of these under its own name.
#![tactic(auto)]

mod codes;
mod in_place;

ghost use Rattle.std.specs.Prelude.{◌≡◌};
ghost use Rattle.standard.specs.Standard.{folded};
ghost use Rattle.padding.specs.Writing.{written, buffer_after};
ghost use Rattle.padded.specs.Viewing.{view_number, view_place};
ghost use Rattle.padded.specs.Removing.{remove_number, remove_length};
ghost use Rattle.hash.specs.State.{fresh};
ghost use Rattle.hash.specs.Update.{update};
ghost use Rattle.hash.specs.Digests.{finish, digest, compare_message, compare_state};
ghost use Rattle.session.specs.Operations.{deliver, ask};
ghost use Rattle.sheet.specs.Judging.{sheet_of};
ghost use Rattle.keyed.specs.Keyed.{keyed_of};

pub use codes::{
    vs_code_finish, vs_code_of, vs_code_start, vs_code_update, vs_compare_code, vs_compare_code_of,
};
use hash::{Compared, Digest, Hash, Updated};
pub use in_place::{
    vs_ask_in_place, vs_code_update_in_place, vs_deliver_in_place, vs_keyed_read_in_place,
    vs_ready, vs_sheet_read_in_place, vs_sheet_write, vs_update_in_place,
};
use padded::Place;
use refusal::{Written, number_of};
use session::{Delivered, Session};
use sheet::Sheet;
use slots::Answer;
use standard::Words;

// SM3

#[unsafe(no_mangle)]
pub extern "C" fn vs_fold(words: Words, bytes: &[u8]) -> Words
    ensures { result ≡ folded words bytes.now }
{
    folding::fold(words, bytes)
}

#[unsafe(no_mangle)]
pub extern "C" fn vs_fresh() -> Hash
    ensures { result ≡ fresh }
{
    Hash::fresh()
}

#[unsafe(no_mangle)]
pub extern "C" fn vs_update(state: Hash, piece: &[u8]) -> Updated
    ensures { result ≡ update state piece.now }
{
    Updated::told(state, state.update(piece))
}

#[unsafe(no_mangle)]
pub extern "C" fn vs_finish(state: Hash) -> Digest
    ensures { result ≡ finish state }
{
    state.finish().into()
}

#[unsafe(no_mangle)]
pub extern "C" fn vs_digest_of(message: &[u8]) -> Digest
    ensures { result ≡ digest message.now }
{
    hash::digest_of(message).into()
}

#[unsafe(no_mangle)]
pub extern "C" fn vs_compare_message(message: &[u8], expected: &[u8]) -> Compared
    ensures { result ≡ compare_message message.now expected.now }
{
    hash::matches(message, expected).into()
}

#[unsafe(no_mangle)]
pub extern "C" fn vs_compare_state(state: Hash, expected: &[u8]) -> Compared
    ensures { result ≡ compare_state state expected.now }
{
    state.matches(expected).into()
}

// Padded blocks

#[unsafe(no_mangle)]
pub extern "C" fn vs_pad_write(message: &[u8], buffer: &mut [u8]) -> Written
    ensures value { result ≡ written message.now buffer.old }
    ensures buffer_after { buffer.new ≡ buffer_after message.now buffer.old }
{
    padding::write(message, buffer).into()
}

#[unsafe(no_mangle)]
pub extern "C" fn vs_block_number(message: &[u8], buffer: &[u8], i: usize) -> u8
    ensures { result ≡ view_number message.now buffer.now i }
{
    number_of(padded::view_number(message, buffer, i))
}

// A part goes out as its place in what was lent.
#[unsafe(no_mangle)]
pub extern "C" fn vs_block_part(message: &[u8], buffer: &[u8], i: usize) -> Place
    ensures { result ≡ view_place message.now buffer.now i }
{
    padded::view_place(message, buffer, i).into()
}

#[unsafe(no_mangle)]
pub extern "C" fn vs_remove_number(bytes: &[u8]) -> u8
    ensures { result ≡ remove_number bytes.now }
{
    number_of(padded::remove_number(bytes))
}

// The part is the first so many of the bytes.
#[unsafe(no_mangle)]
pub extern "C" fn vs_remove_part(bytes: &[u8]) -> usize
    ensures { result ≡ remove_length bytes.now }
{
    padded::remove_length(bytes)
}

// The rank sheet and the loading session

#[unsafe(no_mangle)]
pub extern "C" fn vs_sheet_read(text: &[u8]) -> Sheet
    ensures { result ≡ sheet_of text.now }
{
    sheet::read(text)
}

#[unsafe(no_mangle)]
pub extern "C" fn vs_keyed_read(key: &[u8], text: &[u8]) -> Sheet
    ensures { result ≡ keyed_of key.now text.now }
{
    keyed::read(key, text)
}

#[unsafe(no_mangle)]
pub extern "C" fn vs_deliver(session: Session, note: u64, piece: &[u8]) -> Delivered
    ensures { result ≡ deliver session note piece.now }
{
    session.deliver(note, piece)
}

#[unsafe(no_mangle)]
pub extern "C" fn vs_ask(session: Session, note: u64) -> Answer
    ensures { result ≡ ask session note }
{
    session.ask(note)
}

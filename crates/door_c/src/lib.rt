// The static library that a C host links (host/veenstipper.h): the functions of `door`, exported to C. Each calls the one of its name, and
// its contract is that one's. They stand twice because the kit exports from a static library alone, and no theorem can speak of what stands
// in one (docs/PORT.md).
#![tactic(auto)]

mod codes;
mod in_place;

ghost use Rattle.std.specs.Prelude.{◌≡◌};
ghost use Rattle.standard.specs.Standard.{folded};
ghost use Rattle.padding.specs.Writing.{written, buffer_after};
ghost use Rattle.padded.specs.Viewing.{view_number, view_place};
ghost use Rattle.padded.specs.Removing.{remove_number, remove_length};
ghost use Rattle.hash.specs.State.{fresh};
ghost use Rattle.hash.specs.Update.{update};
ghost use Rattle.hash.specs.Digests.{finish, digest, compare_message, compare_state};
ghost use Rattle.session.specs.Operations.{deliver, ask};
ghost use Rattle.sheet.specs.Judging.{sheet_of};
ghost use Rattle.keyed.specs.Keyed.{keyed_of};

use hash::{Compared, Digest, Hash, Updated};
use padded::Place;
use refusal::Written;
use session::{Delivered, Session};
use sheet::Sheet;
use slots::Answer;
use standard::Words;

// SM3

#[unsafe(no_mangle)]
pub extern "C" fn vs_fold(words: Words, bytes: &[u8]) -> Words
    ensures { result ≡ folded words bytes.now }
{
    door::vs_fold(words, bytes)
}

#[unsafe(no_mangle)]
pub extern "C" fn vs_fresh() -> Hash
    ensures { result ≡ fresh }
{
    door::vs_fresh()
}

#[unsafe(no_mangle)]
pub extern "C" fn vs_update(state: Hash, piece: &[u8]) -> Updated
    ensures { result ≡ update state piece.now }
{
    door::vs_update(state, piece)
}

#[unsafe(no_mangle)]
pub extern "C" fn vs_finish(state: Hash) -> Digest
    ensures { result ≡ finish state }
{
    door::vs_finish(state)
}

#[unsafe(no_mangle)]
pub extern "C" fn vs_digest_of(message: &[u8]) -> Digest
    ensures { result ≡ digest message.now }
{
    door::vs_digest_of(message)
}

#[unsafe(no_mangle)]
pub extern "C" fn vs_compare_message(message: &[u8], expected: &[u8]) -> Compared
    ensures { result ≡ compare_message message.now expected.now }
{
    door::vs_compare_message(message, expected)
}

#[unsafe(no_mangle)]
pub extern "C" fn vs_compare_state(state: Hash, expected: &[u8]) -> Compared
    ensures { result ≡ compare_state state expected.now }
{
    door::vs_compare_state(state, expected)
}

// Padded blocks

#[unsafe(no_mangle)]
pub extern "C" fn vs_pad_write(message: &[u8], buffer: &mut [u8]) -> Written
    ensures value { result ≡ written message.now buffer.old }
    ensures buffer_after { buffer.new ≡ buffer_after message.now buffer.old }
{
    door::vs_pad_write(message, buffer)
}

#[unsafe(no_mangle)]
pub extern "C" fn vs_block_number(message: &[u8], buffer: &[u8], i: usize) -> u8
    ensures { result ≡ view_number message.now buffer.now i }
{
    door::vs_block_number(message, buffer, i)
}

// A part goes out as its place in what was lent.
#[unsafe(no_mangle)]
pub extern "C" fn vs_block_part(message: &[u8], buffer: &[u8], i: usize) -> Place
    ensures { result ≡ view_place message.now buffer.now i }
{
    door::vs_block_part(message, buffer, i)
}

#[unsafe(no_mangle)]
pub extern "C" fn vs_remove_number(bytes: &[u8]) -> u8
    ensures { result ≡ remove_number bytes.now }
{
    door::vs_remove_number(bytes)
}

// The part is the first so many of the bytes.
#[unsafe(no_mangle)]
pub extern "C" fn vs_remove_part(bytes: &[u8]) -> usize
    ensures { result ≡ remove_length bytes.now }
{
    door::vs_remove_part(bytes)
}

// The rank sheet and the loading session

#[unsafe(no_mangle)]
pub extern "C" fn vs_sheet_read(text: &[u8]) -> Sheet
    ensures { result ≡ sheet_of text.now }
{
    door::vs_sheet_read(text)
}

#[unsafe(no_mangle)]
pub extern "C" fn vs_keyed_read(key: &[u8], text: &[u8]) -> Sheet
    ensures { result ≡ keyed_of key.now text.now }
{
    door::vs_keyed_read(key, text)
}

#[unsafe(no_mangle)]
pub extern "C" fn vs_deliver(session: Session, note: u64, piece: &[u8]) -> Delivered
    ensures { result ≡ deliver session note piece.now }
{
    door::vs_deliver(session, note, piece)
}

#[unsafe(no_mangle)]
pub extern "C" fn vs_ask(session: Session, note: u64) -> Answer
    ensures { result ≡ ask session note }
{
    door::vs_ask(session, note)
}

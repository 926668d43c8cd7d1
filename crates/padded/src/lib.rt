// Padded messages: the view of their blocks, and the remover.
#![tactic(auto)]

ghost use Rattle.std.specs.Prelude.{◌≡◌, ◌+◌, ◌/◌, ◌≤◌, length, cond, Some, None};
ghost use Rattle.refusal.specs.Table.{number_of};
ghost use Rattle.buffers.specs.Same.{same};
ghost use Rattle.units.specs.Units.{longest};
ghost use Rattle.padding.specs.Writing.{tail_of, tail_size};
ghost use Rattle.padded.specs.Viewing.{view_number, view_part, view_place, view_address, place_of};
ghost use Rattle.padded.specs.Removing.{stated_bits, right_fill, is_padded, remove_number, remove_length, remove_part};

use padding::{block_count, tail_answer};
use refusal::Refusal;
use units::{Bits, Bytes};

// Where the 64 bytes of a block lie: from which byte on, of the message or of the tail buffer.
#[derive(Clone, Copy, Debug, PartialEq, Eq)]
pub enum Block {
    InMessage(usize),
    InBuffer(usize),
}

// The same for a host that cannot be handed a slice, nor an enum: which of the two it is part of, from which byte, and how many.
#[repr(C)]
#[derive(Clone, Copy)]
pub struct Place {
    pub which: u8,
    pub offset: usize,
    pub length: usize,
}

pub const IN_NEITHER: u8 = 0;

pub const IN_MESSAGE: u8 = 1;

pub const IN_BUFFER: u8 = 2;

impl From<Option<Block>> for Place {
    ghost from_gives = { λ block place. place ≡ place_of block };

    fn from(block: Option<Block>) -> Place {
        match block {
            None => Place {
                which: IN_NEITHER,
                offset: 0,
                length: 0,
            },
            Some(Block::InMessage(offset)) => Place {
                which: IN_MESSAGE,
                offset,
                length: 64,
            },
            Some(Block::InBuffer(offset)) => Place {
                which: IN_BUFFER,
                offset,
                length: 64,
            },
        }
    }
}

// The bits that the last eight bytes state.
fn stated_bits(bytes: &[u8]) -> Bits
    requires { 8 ≤ length bytes.now }
    ensures { result.0 ≡ stated_bits bytes.now }
{
    Bits(u64::from_be_bytes(*bytes.last_chunk().unwrap()))
}

// Whether byte m is 80 hex and all bytes between it and the last eight are zero.
fn right_fill(bytes: &[u8], m: usize) -> bool
    requires { m + 9 ≤ length bytes.now }
    ensures { result ≡ right_fill m bytes.now }
{
    bytes[m] == 0x80 && buffers::all_zero(&bytes[m + 1..bytes.len() - 8])
}

// Whether the tail is what the writer puts there. It is compared where it lies.
fn holds_tail(message: &[u8], tail: &[u8]) -> bool
    requires { (length message.now ≤ longest) × (length tail.now ≡ tail_size (length message.now)) }
    ensures { result ≡ same tail.now (tail_of message.now) }
{
    let m = message.len();
    let kept = m % 64;
    buffers::same(&tail[..kept], &message[m / 64 * 64..])
        && right_fill(tail, kept)
        && Some(stated_bits(tail)) == Bytes(m as u64).bits()
}

// Whether block i of the padded message can be viewed. A block inside the message still needs the right tail.
pub fn view_number(message: &[u8], buffer: &[u8], i: usize) -> Result<(), Refusal>
    ensures { number_of result ≡ view_number message.now buffer.now i }
{
    let m = Bytes(message.len() as u64);
    let size = tail_answer(m, buffer.len())?;
    if !holds_tail(message, &buffer[..size]) {
        return Err(Refusal::OtherTail);
    }
    if (i as u64) < block_count(m) {
        Ok(())
    } else {
        Err(Refusal::NoSuchBlock)
    }
}

// Where block i lies: in the message where it lies wholly inside it, else in the tail buffer; a refused one in neither.
pub fn view_place(message: &[u8], buffer: &[u8], i: usize) -> Option<Block>
    ensures { place_of result ≡ view_place message.now buffer.now i }
{
    view_number(message, buffer, i).ok()?;
    let inside = message.len() / 64;
    if i < inside {
        Some(Block::InMessage(64 * i))
    } else {
        Some(Block::InBuffer(64 * (i - inside)))
    }
}

// The bytes of block i, where they lie. Nothing is copied; a refused part is empty, at the buffer's front.
pub fn view_part<'a>(message: &'a [u8], buffer: &'a [u8], i: usize) -> &'a [u8]
    ensures result_value { result.now ≡ view_part message.now buffer.now i }
    ensures ref_ptr_value { result.ref_ptr ≡ view_address message.entry buffer.entry i }
{
    match view_place(message, buffer, i) {
        Some(Block::InMessage(from)) => &message[from..from + 64],
        Some(Block::InBuffer(from)) => &buffer[from..from + 64],
        None => &buffer[..0],
    }
}

// How many of the bytes are the message, where they are a padded message.
fn message_length(bytes: &[u8]) -> Option<usize>
    ensures { result ≡ cond (is_padded bytes.now) (Some (stated_bits bytes.now / 8)) None }
{
    if bytes.is_empty() || bytes.len() % 64 != 0 {
        return None;
    }
    let m = stated_bits(bytes).bytes()?;
    if 64 * block_count(m) != bytes.len() as u64 {
        return None;
    }
    right_fill(bytes, m.0 as usize).then_some(m.0 as usize)
}

// Whether the bytes are a padded message.
fn is_padded(bytes: &[u8]) -> bool
    ensures { result ≡ is_padded bytes.now }
{
    message_length(bytes).is_some()
}

pub fn remove_number(bytes: &[u8]) -> Result<(), Refusal>
    ensures { number_of result ≡ remove_number bytes.now }
{
    if is_padded(bytes) {
        Ok(())
    } else {
        Err(Refusal::NotPadded)
    }
}

// How many of the bytes are the message, 0 where they are no padded message: it begins at the first of them.
pub fn remove_length(bytes: &[u8]) -> usize
    ensures { result ≡ remove_length bytes.now }
{
    message_length(bytes).unwrap_or(0)
}

// The message, as a part of what was lent.
pub fn remove_part(bytes: &[u8]) -> &[u8]
    ensures result_value { result.now ≡ remove_part bytes.now }
    ensures ref_ptr_value { result.ref_ptr ≡ bytes.entry.ref_ptr }
{
    &bytes[..remove_length(bytes)]
}

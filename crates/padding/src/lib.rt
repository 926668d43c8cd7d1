// Padding: its block count and the writer.
#![tactic(auto)]

ghost use Rattle.std.specs.Prelude.{◌≡◌, ◌∷◌, ◌++◌, ◌+◌, ◌-◌, ◌≤◌, ◌<◌, length, take, drop, replicate};
ghost use Rattle.refusal.specs.Table.{written_of};
ghost use Rattle.word.specs.BigEndian.{big_endian};
ghost use Rattle.padding.specs.Padding.{block_count};
ghost use Rattle.padding.specs.Writing.{tail_size, tail_answer, tail_after, written, buffer_after};

use refusal::Refusal;
use units::Bytes;

// The blocks of a padded message of m bytes. No sum here can overflow, as m + 8 could.
#[tactic(auto, unfolding(crate::specs::Padding::block_count))]
pub fn block_count(m: Bytes) -> u64
    ensures { result ≡ block_count m.0 }
{
    let m = m.0;
    m / 64 + (m % 64 + 8) / 64 + 1
}

// One block holds up to 55 bytes, the 80 byte and the length.
#[tactic(auto, unfolding(crate::specs::Writing::tail_size))]
fn tail_size(m: Bytes) -> usize
    ensures { result ≡ tail_size m.0 }
{
    if m.0 % 64 < 56 { 64 } else { 128 }
}

// The size of the tail that is written for a message of m bytes, where a buffer has room for so many. Nothing is written.
pub fn tail_answer(m: Bytes, room: usize) -> Result<usize, Refusal>
    ensures { written_of result ≡ tail_answer m.0 room }
{
    if m.bits().is_none() {
        return Err(Refusal::TooLong);
    }
    let count = tail_size(m);
    if room < count {
        return Err(Refusal::WrongSize);
    }
    Ok(count)
}

// The byte 80 at one index, zeros up to another, and from there a number as eight bytes.
fn close(dst: &mut [u8], from: usize, to: usize, number: u64)
    requires { (from < to) × (to + 8 ≤ length dst.old) }
    ensures { dst.new
        ≡ take from dst.old
        ++ ((0x80 ∷ (replicate (to - (from + 1)) 0 ++ big_endian 8 number)) ++ drop (to + 8) dst.old) }
{
    dst[from] = 0x80;
    dst[from + 1..to].fill(0);
    dst[to..to + 8].copy_from_slice(&word::eight_bytes_of(number));
}

// Writes the padding of m bytes behind the m mod 64 bytes that stand at the front of the buffer.
pub fn pad(buffer: &mut [u8], m: Bytes) -> Result<usize, Refusal>
    ensures value { written_of result ≡ tail_answer m.0 (length buffer.old) }
    ensures buffer_after { buffer.new ≡ tail_after m.0 buffer.old }
{
    let Some(length) = m.bits() else {
        return Err(Refusal::TooLong);
    };
    let count = tail_answer(m, buffer.len())?;
    close(buffer, (m.0 % 64) as usize, count - 8, length.0);
    Ok(count)
}

// Lays bytes over a buffer's front, one by one. (Two lots that a host lends may overlap for all that the compiler knows, and of
// `copy_from_slice` it makes memmove, which no firmware has to supply.)
fn lay(buffer: &mut [u8], bytes: &[u8])
    requires { length bytes.now ≤ length buffer.old }
    ensures { buffer.new ≡ bytes.now ++ drop (length bytes.now) buffer.old }
{
    for (i, byte) in bytes.iter().enumerate() {
        buffer[i] = *byte;
    }
}

// Writes the last m mod 64 bytes of the message and the padding. At most 63 bytes are copied.
pub fn write(message: &[u8], buffer: &mut [u8]) -> Result<usize, Refusal>
    ensures value { written_of result ≡ written message.now buffer.old }
    ensures buffer_after { buffer.new ≡ buffer_after message.now buffer.old }
{
    let m = Bytes(message.len() as u64);
    tail_answer(m, buffer.len())?;
    let whole = message.len() / 64 * 64;
    lay(buffer, &message[whole..]);
    pad(buffer, m)
}

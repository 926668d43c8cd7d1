// Decimal numbers as text: read at a place of a lent text, and written into a lent buffer.
#![tactic(auto)]

ghost use Rattle.std.specs.Prelude.{◌≡◌, length};
ghost use Rattle.buffers.specs.Copy.{copied};
ghost use Rattle.decimal.specs.Reading.{goes_on, numeral_at};
ghost use Rattle.decimal.specs.Writing.{decimal, figures_of};

// A number that begins at a place, and the place after it.
#[derive(Clone, Copy, Debug, PartialEq, Eq)]
pub struct Numeral {
    pub value: u32,
    pub next: usize,
}

// A number's figures: the last of these bytes, from an index on. They are no String: a library has no heap.
#[derive(Clone, Copy, Debug, PartialEq, Eq)]
pub struct Figures {
    pub bytes: [u8; 20],
    pub from: usize,
}

// Whether a number goes on with a byte: not where it is 0, and not where it would be too large.
fn goes_on(value: u32, byte: u8) -> bool
    ensures { result ≡ goes_on value byte }
{
    if !byte.is_ascii_digit() {
        return false;
    }
    let more = value as u64 * 10 + (byte - b'0') as u64;
    1 <= value && more <= u32::MAX as u64
}

// The number that begins at a place: the longest one; None where none does.
pub fn read(text: &[u8], at: usize) -> Option<Numeral>
    ensures { result ≡ numeral_at text.now at }
{
    if text.len() <= at {
        return None;
    }
    let first = text[at];
    if !first.is_ascii_digit() {
        return None;
    }
    let mut value = (first - b'0') as u32;
    let mut next = at + 1;
    for &byte in &text[at + 1..] {
        if !goes_on(value, byte) {
            break;
        }
        value = value * 10 + (byte - b'0') as u32;
        next += 1;
    }
    Some(Numeral { value, next })
}

// The figures of a number, the last one first. A number of 64 bits has at most twenty. The loop ends where the number does and not where
// the bytes do, so it is no `for`.
pub fn figures_of(n: u64) -> Figures
    ensures { result ≡ figures_of n }
{
    let mut bytes = [0u8; 20];
    let mut from: usize = 19;
    bytes[from] = b'0' + (n % 10) as u8;
    let mut left = n / 10;
    while 0 < left {
        from -= 1;
        bytes[from] = b'0' + (left % 10) as u8;
        left /= 10;
    }
    Figures { bytes, from }
}

// Writes a number's figures from an index on, and answers how many there are; writes nothing where they do not fit.
pub fn write(dst: &mut [u8], at: usize, n: u64) -> usize
    ensures { (result ≡ length (decimal n)) × (dst.new ≡ copied dst.old at (decimal n)) }
{
    let figures = figures_of(n);
    buffers::copy(dst, at, &figures.bytes[figures.from..]);
    20 - figures.from
}

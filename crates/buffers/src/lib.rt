// Steps on lent bytes: compared, copied, cleared.
#![tactic(auto)]

ghost use Rattle.std.specs.Prelude.{◌≡◌, ℕ, ◌-◌, replicate, fold, zip, bit_or, bit_xor};
ghost use Rattle.buffers.specs.Same.{same, all_zero};
ghost use Rattle.buffers.specs.Copy.{copied};

// Whether two lots of bytes are the same. The differences of all the bytes are gathered, and looked at only after the last.
pub fn same(a: &[u8], b: &[u8]) -> bool
    ensures { result ≡ same a.now b.now }
{
    a.len() == b.len() && differences(a, b) == 0
}

// The bits in which two lots of bytes differ, those of all the bytes gathered in one.
fn differences(a: &[u8], b: &[u8]) -> u8
    ensures { result ≡ fold (λ (found : ℕ) (pair : ℕ × ℕ). bit_or found (bit_xor pair.0 pair.1)) 0 (zip a.now b.now) }
{
    a.iter().zip(b).fold(0, |found, (x, y)| found | (x ^ y))
}

// Whether every byte is zero. All bits are gathered first: that is fewer instructions than a test for each byte.
pub fn all_zero(s: &[u8]) -> bool
    ensures { result ≡ all_zero s.now }
{
    s.iter().fold(0, |found, byte| found | byte) == 0
}

// Copies all of src to dst, from index at on; nothing where it does not fit. What room is left is compared with at: their sum could pass
// 2^64.
pub fn copy(dst: &mut [u8], at: usize, src: &[u8])
    ensures { dst.new ≡ copied dst.old at src.now }
{
    if src.len() <= dst.len() && at <= dst.len() - src.len() {
        dst[at..at + src.len()].copy_from_slice(src);
    }
}

// Zeros from one index up to another; nothing where the other is past the end.
pub fn clear(dst: &mut [u8], from: usize, to: usize)
    ensures { dst.new ≡ copied dst.old from (replicate (to - from) 0) }
{
    if from < to && to <= dst.len() {
        dst[from..to].fill(0);
    }
}

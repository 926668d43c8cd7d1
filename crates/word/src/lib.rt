// Words of 32 bits: the standard's rotation and sum, and words from and to bytes, most significant first.
#![tactic(auto)]

ghost use Rattle.std.specs.Prelude.{◌≡◌, [], ◌∷◌};
ghost use Rattle.word.specs.Rotation.{◌⊞◌, ◌<<<◌};
ghost use Rattle.word.specs.BigEndian.{big_endian, number_of};

// x <<< k. The compiler makes one instruction of it where k is known.
pub fn rotate(x: u32, k: u32) -> u32
    ensures { result ≡ x <<< k }
{
    x.rotate_left(k)
}

// x + y modulo 2^32.
pub fn sum(x: u32, y: u32) -> u32
    ensures { result ≡ x ⊞ y }
{
    x.wrapping_add(y)
}

// Four bytes as a word, most significant first.
pub fn word_of(b0: u8, b1: u8, b2: u8, b3: u8) -> u32
    ensures { result ≡ number_of (b0 ∷ b1 ∷ b2 ∷ b3 ∷ []) }
{
    u32::from_be_bytes([b0, b1, b2, b3])
}

// A word as four bytes, most significant first.
pub fn bytes_of(w: u32) -> [u8; 4]
    ensures { result ≡ big_endian 4 w }
{
    w.to_be_bytes()
}

// A number of 64 bits as eight bytes, most significant first.
pub fn eight_bytes_of(n: u64) -> [u8; 8]
    ensures { result ≡ big_endian 8 n }
{
    n.to_be_bytes()
}

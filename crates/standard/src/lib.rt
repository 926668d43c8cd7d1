// The SM3 standard's page: the functions that it names. Their names, and what each of them means, are those of specs/Standard.antt.
#![tactic(auto)]

ghost use Rattle.std.specs.Prelude.{◌≡◌, ◌+◌, ◌%◌};
ghost use Rattle.word.specs.Rotation.{◌<<<◌};
ghost use Rattle.standard.specs.Standard.{◌xor◌, FF, GG, P0, P1, T, round, xor_words, hash_value};

// The eight words of a chaining value, or the eight registers of a round.
#[repr(C)]
#[derive(Clone, Copy, Debug, PartialEq, Eq)]
pub struct Words {
    pub a: u32,
    pub b: u32,
    pub c: u32,
    pub d: u32,
    pub e: u32,
    pub f: u32,
    pub g: u32,
    pub h: u32,
}

// Tj <<< (j mod 32). Of a literal j the compiler leaves one number. (One rotation of a T that is chosen before it makes a block 2,901
// instructions, over bench/run's 2,900; so it has 2,891.)
fn constant(j: u32) -> u32
    ensures { result ≡ T j <<< (j % 32) }
{
    if j < 16 {
        word::rotate(0x79cc4519, j % 32)
    } else {
        word::rotate(0x7a879d8a, j % 32)
    }
}

// FFj: for j from 16 on, the majority of three bits.
fn ff(j: u32, x: u32, y: u32, z: u32) -> u32
    ensures { result ≡ FF j x y z }
{
    if j < 16 {
        x ^ y ^ z
    } else {
        (x & y) | (x & z) | (y & z)
    }
}

// GGj: for j from 16 on, x chooses y or z bit by bit. This form has one operation less than the standard's, and no complement
// (`chosen` in proofs/Choice.antt joins the two).
fn gg(j: u32, x: u32, y: u32, z: u32) -> u32
    ensures { result ≡ GG j x y z }
{
    if j < 16 { x ^ y ^ z } else { ((y ^ z) & x) ^ z }
}

// The permutation of the compression, x ^ rotate(x, 9) ^ rotate(x, 17).
fn p0(x: u32) -> u32
    ensures { result ≡ P0 x }
{
    permuted(x, 9)
}

// The permutation of the expansion, x ^ rotate(x, 15) ^ rotate(x, 23).
pub fn p1(x: u32) -> u32
    ensures { result ≡ P1 x }
{
    permuted(x, 15)
}

// x ^ rotate(x, k) ^ rotate(x, 8 + k). With one rotation inside the other the word is copied once less (`rotations_nested` in
// proofs/Rotation.antt of `word` joins the two).
fn permuted(x: u32, k: u32) -> u32
    ensures { result ≡ x xor (x <<< k) xor (x <<< (8 + k)) }
{
    x ^ word::rotate(x ^ word::rotate(x, 8), k)
}

// Round j on the registers r, with Wj and W'j.
pub fn round(j: u32, r: Words, w: u32, w1: u32) -> Words
    ensures { result ≡ round j r w w1 }
{
    let a12 = word::rotate(r.a, 12);
    let ss1 = word::rotate(word::sum(word::sum(a12, r.e), constant(j)), 7);
    let ss2 = ss1 ^ a12;
    let tt1 = word::sum(word::sum(word::sum(ff(j, r.a, r.b, r.c), r.d), ss2), w1);
    let tt2 = word::sum(word::sum(word::sum(gg(j, r.e, r.f, r.g), r.h), ss1), w);
    Words {
        a: tt1,
        b: r.a,
        c: word::rotate(r.b, 9),
        d: r.c,
        e: p0(tt2),
        f: r.e,
        g: word::rotate(r.f, 19),
        h: r.g,
    }
}

// Two lots of eight words, xored word by word.
pub fn xored(x: Words, y: Words) -> Words
    ensures { result ≡ xor_words x y }
{
    Words {
        a: x.a ^ y.a,
        b: x.b ^ y.b,
        c: x.c ^ y.c,
        d: x.d ^ y.d,
        e: x.e ^ y.e,
        f: x.f ^ y.f,
        g: x.g ^ y.g,
        h: x.h ^ y.h,
    }
}

// The eight words as 32 bytes.
pub fn hash_value(v: Words) -> [u8; 32]
    ensures { result ≡ hash_value v }
{
    let words = [
        word::bytes_of(v.a),
        word::bytes_of(v.b),
        word::bytes_of(v.c),
        word::bytes_of(v.d),
        word::bytes_of(v.e),
        word::bytes_of(v.f),
        word::bytes_of(v.g),
        word::bytes_of(v.h),
    ];
    let mut bytes = [0; 32];
    bytes.copy_from_slice(words.as_flattened());
    bytes
}

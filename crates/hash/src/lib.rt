// The hash state: what is known of a message of which a part has come.
#![tactic(auto)]

ghost use Rattle.std.specs.Prelude.{◌≡◌, true, ◌++◌, ◌+◌, ◌≤◌, length};
ghost use Rattle.hash.specs.State.{fresh, is_fresh, in_order, as_tail};
ghost use Rattle.standard.specs.Standard.{folded, rest, hash_value};
ghost use Rattle.units.specs.Units.{longest};
ghost use Rattle.hash.specs.Update.{after_piece, update};
ghost use Rattle.hash.specs.Digests.{finish, digest, compared, compare_message, compare_state};
ghost use Rattle.hash.specs.Told.{updated_of, told_digest, compared_of};

use refusal::{ACCEPTED, Refusal};
use standard::Words;
use units::{Bytes, LONGEST};

// "Eight words, a total of bytes taken, and 64 tail bytes."
#[repr(C)]
#[derive(Clone, Copy)]
pub struct Hash {
    pub words: Words,
    pub total: u64,
    pub tail: [u8; 64],
}

impl Hash {
    // "The fresh start and the block size of 64 belong to the state."
    pub const START: Words = Words {
        a: 0x7380166f,
        b: 0x4914b2b9,
        c: 0x172442d7,
        d: 0xda8a0600,
        e: 0xa96f30bc,
        f: 0x163138aa,
        g: 0xe38dee4d,
        h: 0xb0fb0e4e,
    };

    pub const BLOCK: usize = 64;

    pub fn fresh() -> Hash
        ensures { result ≡ fresh }
    {
        Hash {
            words: Hash::START,
            total: 0,
            tail: [0; Hash::BLOCK],
        }
    }

    // Whether this is the fresh start: a decided note's state has to be. Of a state in order that has taken nothing, the tail is 64 zeros.
    // (`==` of two states is unrolled, and the tail is then taken apart byte by byte: 240 instructions more for each delivery.)
    pub fn is_fresh(self) -> bool
        ensures { result ≡ is_fresh self }
    {
        self.in_order() & (self.total == 0) & (self.words == Hash::START)
    }

    // "total is at most 2^61 - 1 and those trailing bytes are zero"
    pub fn in_order(self) -> bool
        ensures { result ≡ in_order self }
    {
        let kept = (self.total % 64) as usize;
        // copied: where the tail of a state by value is lent, it is laid down byte by byte
        let tail = self.tail;
        (self.total <= LONGEST) & buffers::all_zero(&tail[kept..])
    }

    // Refusals 9 and 10. What room is left is compared with the piece: their sum could pass 2^64.
    #[tactic(auto, using(crate::proofs::Updating::updates))]
    pub fn update(self, piece: &[u8]) -> Result<Hash, Refusal>
        ensures { updated_of self result ≡ update self piece.now }
    {
        if !self.in_order() {
            return Err(Refusal::StateNotInOrder);
        }
        if LONGEST - self.total < piece.len() as u64 {
            return Err(Refusal::TooLong);
        }
        Ok(self.after_piece(piece))
    }

    // At most 63 bytes of the piece fill the tail up to a block, at most 63 are left over in the end: no others are copied.
    fn after_piece(self, piece: &[u8]) -> Hash
        requires { (in_order self ≡ true) × (self.total + length piece.now ≤ longest) }
        ensures { result ≡ after_piece self piece.now }
    {
        let words = self.words;
        let total = self.total + piece.len() as u64;
        let kept = (self.total % 64) as usize;
        if kept == 0 {
            return after_blocks(words, total, piece);
        }
        let mut tail = self.tail;
        let room = Hash::BLOCK - kept;
        if piece.len() < room {
            buffers::copy(&mut tail, kept, piece);
            return Hash { words, total, tail };
        }
        buffers::copy(&mut tail, kept, &piece[..room]);
        let full = folding::fold(words, &tail);
        after_blocks(full, total, &piece[room..])
    }

    // Refusal 9. The state is as it was: it came by value.
    pub fn finish(self) -> Result<[u8; 32], Refusal>
        ensures { told_digest result ≡ finish self }
    {
        let ordered = self.in_order();
        if !ordered {
            return Err(Refusal::StateNotInOrder);
        }
        let tail = self.tail;
        let mut last = [0u8; 2 * Hash::BLOCK];
        buffers::copy(&mut last, 0, &tail);
        let count = padding::pad(&mut last, Bytes(self.total)).unwrap();
        Ok(ended(self.words, &last[..count]))
    }

    // Final, held against an expected digest: refusals 9 and 11.
    pub fn matches(self, expected: &[u8]) -> Result<bool, Refusal>
        ensures { compared_of result ≡ compare_state self expected.now }
    {
        compare(self.finish(), expected)
    }
}

// A state that has taken the whole blocks of these bytes, read where they lie, and keeps what remains.
fn after_blocks(words: Words, total: u64, bytes: &[u8]) -> Hash
    ensures { result ≡ record { words = folded words bytes.now; total = total; tail = as_tail (rest bytes.now) } }
{
    let whole = bytes.len() / Hash::BLOCK * Hash::BLOCK;
    Hash {
        words: folding::fold(words, bytes),
        total,
        tail: tail_of(&bytes[whole..]),
    }
}

// Bytes at the front of a tail, zeros after them.
fn tail_of(bytes: &[u8]) -> [u8; 64]
    requires { length bytes.now ≤ 64 }
    ensures { result ≡ as_tail bytes.now }
{
    let mut tail = [0u8; Hash::BLOCK];
    buffers::copy(&mut tail, 0, bytes);
    tail
}

// One call for a whole message: refusal 10. Its whole blocks are folded where they lie.
pub fn digest_of(message: &[u8]) -> Result<[u8; 32], Refusal>
    ensures { told_digest result ≡ digest message.now }
{
    let mut last = [0u8; 2 * Hash::BLOCK];
    let count = padding::write(message, &mut last)?;
    Ok(ended(folding::fold(Hash::START, message), &last[..count]))
}

// The one call, held against an expected digest: refusals 10 and 11.
pub fn matches(message: &[u8], expected: &[u8]) -> Result<bool, Refusal>
    ensures { compared_of result ≡ compare_message message.now expected.now }
{
    compare(digest_of(message), expected)
}

// The digest of a message that comes in two pieces, and in three: refusal 10 goes by all of them. No piece is copied to stand by another.
pub fn digest_of_two(first: &[u8], second: &[u8]) -> Result<[u8; 32], Refusal>
    ensures { told_digest result ≡ digest (first.now ++ second.now) }
{
    Hash::fresh().update(first)?.update(second)?.finish()
}

pub fn digest_of_three(first: &[u8], second: &[u8], third: &[u8]) -> Result<[u8; 32], Refusal>
    ensures { told_digest result ≡ digest (first.now ++ (second.now ++ third.now)) }
{
    Hash::fresh()
        .update(first)?
        .update(second)?
        .update(third)?
        .finish()
}

// The digest once the last bytes, the padding with them, are folded.
fn ended(words: Words, last: &[u8]) -> [u8; 32]
    ensures { result ≡ hash_value (folded words last.now) }
{
    standard::hash_value(folding::fold(words, last))
}

// A digest held against an expected one: what the digest was refused for comes first, then 11.
#[tactic(auto, using(crate::proofs::Comparing::comparisons))]
pub fn compare(digest: Result<[u8; 32], Refusal>, expected: &[u8]) -> Result<bool, Refusal>
    ensures { compared_of result ≡ compared (told_digest digest) expected.now }
{
    let bytes = digest?;
    if expected.len() != 32 {
        return Err(Refusal::WrongSize);
    }
    Ok(buffers::same(&bytes, expected))
}

// The same of a digest as a C host is told of it, which may hold any number.
#[tactic(auto, using(crate::proofs::Comparing::compared_refused))]
pub fn against(d: Digest, expected: &[u8]) -> Compared
    ensures { result ≡ compared d expected.now }
{
    if d.number == ACCEPTED {
        compare(Ok(d.bytes), expected).into()
    } else {
        Compared {
            number: d.number,
            same: false,
        }
    }
}

// What a C host is told of an update.
#[repr(C)]
#[derive(Clone, Copy)]
pub struct Updated {
    pub number: u8,
    pub state: Hash,
}

impl Updated {
    // Of a state that a piece was given: refused, the state is as it was.
    pub fn told(before: Hash, answer: Result<Hash, Refusal>) -> Updated
        ensures { result ≡ updated_of before answer }
    {
        match answer {
            Ok(after) => Updated {
                number: ACCEPTED,
                state: after,
            },
            Err(refusal) => Updated {
                number: refusal.number(),
                state: before,
            },
        }
    }
}

// What it is told of finish and of the one call. A refused digest: "all zero".
#[repr(C)]
#[derive(Clone, Copy)]
pub struct Digest {
    pub number: u8,
    pub bytes: [u8; 32],
}

impl From<Result<[u8; 32], Refusal>> for Digest {
    ghost from_gives = { λ answer d. d ≡ told_digest answer };

    #[tactic(auto, unfolding(crate::specs::Digests::no_digest))]
    fn from(answer: Result<[u8; 32], Refusal>) -> Digest {
        match answer {
            Ok(digest) => Digest {
                number: ACCEPTED,
                bytes: digest,
            },
            Err(refusal) => Digest {
                number: refusal.number(),
                bytes: [0; 32],
            },
        }
    }
}

// What it is told of a comparison: a refused one says no.
#[repr(C)]
#[derive(Clone, Copy)]
pub struct Compared {
    pub number: u8,
    pub same: bool,
}

impl From<Result<bool, Refusal>> for Compared {
    ghost from_gives = { λ answer c. c ≡ compared_of answer };

    fn from(answer: Result<bool, Refusal>) -> Compared {
        match answer {
            Ok(equal) => Compared {
                number: ACCEPTED,
                same: equal,
            },
            Err(refusal) => Compared {
                number: refusal.number(),
                same: false,
            },
        }
    }
}

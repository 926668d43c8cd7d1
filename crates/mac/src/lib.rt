// HMAC over SM3, as RFC 2104 defines it: a code of 32 bytes for a key and a message.
#![tactic(auto)]

ghost use Rattle.std.specs.Prelude.{◌≡◌, [], replicate};
ghost use Rattle.hash.specs.State.{fresh};
ghost use Rattle.hash.specs.Update.{update as hash_update};
ghost use Rattle.hash.specs.Told.{told_digest, compared_of};
ghost use Rattle.mac.specs.Hmac.{◌⊕◌};
ghost use Rattle.mac.specs.Codes.{block_of, started, start, in_order, update, finish, code_of, compare_state, compare_message};
ghost use Rattle.mac.specs.Told.{code_updated_of};

use hash::Hash;
use refusal::{ACCEPTED, Refusal};

// A code state is two hash states: the inner has taken the key's block and then the message, the outer the key's other block.
#[repr(C)]
#[derive(Clone, Copy)]
pub struct Code {
    pub inner: Hash,
    pub outer: Hash,
}

const IPAD: u8 = 0x36;

const OPAD: u8 = 0x5c;

// Each byte of a block xored with the same one.
fn xored(block: [u8; 64], pad: u8) -> [u8; 64]
    ensures { result ≡ block ⊕ replicate 64 pad }
{
    let mut mixed = block;
    for byte in &mut mixed {
        *byte ^= pad;
    }
    mixed
}

// The hash state that has taken one block.
fn after_block(block: [u8; 64]) -> Hash
    ensures { result ≡ (hash_update fresh block).state }
{
    Hash {
        words: folding::fold(Hash::START, &block),
        total: 64,
        ..Hash::fresh()
    }
}

// The key with zeros behind it; of one over 64 bytes, its digest. Refusal 10, of one too long for a digest.
#[tactic(auto, using(crate::proofs::Blocks::blocks))]
fn key_block(key: &[u8]) -> Result<[u8; 64], Refusal>
    ensures { result ≡ block_of key.now }
{
    let mut block = [0u8; Hash::BLOCK];
    if key.len() <= Hash::BLOCK {
        buffers::copy(&mut block, 0, key);
    } else {
        let digest = hash::digest_of(key)?;
        buffers::copy(&mut block, 0, &digest);
    }
    Ok(block)
}

// From a key of any length, the empty one too. Refusal 10.
pub fn start(key: &[u8]) -> Result<Code, Refusal>
    ensures { code_updated_of (started []) result ≡ start key.now }
{
    let block = key_block(key)?;
    Ok(Code {
        inner: after_block(xored(block, IPAD)),
        outer: after_block(xored(block, OPAD)),
    })
}

impl Code {
    // In order: none of "a hash state isn't in order, the inner has under 64 bytes or the outer other than 64".
    pub fn in_order(self) -> bool
        ensures { result ≡ in_order self }
    {
        self.inner.in_order()
            & self.outer.in_order()
            & (64 <= self.inner.total)
            & (self.outer.total == 64)
    }

    // Refusals 9 and 10. The inner's total has the key's block in it, so the inner's own 10 is the message's.
    pub fn update(self, piece: &[u8]) -> Result<Code, Refusal>
        ensures { code_updated_of self result ≡ update self piece.now }
    {
        if !self.in_order() {
            return Err(Refusal::StateNotInOrder);
        }
        let inner = self.inner.update(piece)?;
        Ok(Code { inner, ..self })
    }

    // Refusal 9. The state is as it was: it came by value.
    pub fn finish(self) -> Result<[u8; 32], Refusal>
        ensures { told_digest result ≡ finish self }
    {
        let ordered = self.in_order();
        if !ordered {
            return Err(Refusal::StateNotInOrder);
        }
        let inside = self.inner.finish()?;
        self.outer.update(&inside)?.finish()
    }

    // Finish, held against an expected code: refusals 9 and 11.
    pub fn matches(self, expected: &[u8]) -> Result<bool, Refusal>
        ensures { compared_of result ≡ compare_state self expected.now }
    {
        hash::compare(self.finish(), expected)
    }
}

// One call for a key and a message, by the formula: refusal 10, of the key and then of the message. It keeps no code state on the stack.
pub fn code_of(key: &[u8], message: &[u8]) -> Result<[u8; 32], Refusal>
    ensures { told_digest result ≡ code_of key.now message.now }
{
    let block = key_block(key)?;
    let inside = hash::digest_of_two(&xored(block, IPAD), message)?;
    hash::digest_of_two(&xored(block, OPAD), &inside)
}

// The one call, held against an expected code: refusals 10 and 11.
pub fn matches(key: &[u8], message: &[u8], expected: &[u8]) -> Result<bool, Refusal>
    ensures { compared_of result ≡ compare_message key.now message.now expected.now }
{
    hash::compare(code_of(key, message), expected)
}

// What a C host is told of start and update.
#[repr(C)]
#[derive(Clone, Copy)]
pub struct CodeUpdated {
    pub number: u8,
    pub state: Code,
}

impl CodeUpdated {
    // Of a state that a piece was given: refused, the state is as it was.
    pub fn told(before: Code, answer: Result<Code, Refusal>) -> CodeUpdated
        ensures { result ≡ code_updated_of before answer }
    {
        match answer {
            Ok(after) => CodeUpdated {
                number: ACCEPTED,
                state: after,
            },
            Err(refusal) => CodeUpdated {
                number: refusal.number(),
                state: before,
            },
        }
    }

    // Of a key: refused, it is the empty key's state.
    pub fn started(key: &[u8]) -> CodeUpdated
        ensures { result ≡ start key.now }
    {
        let (number, state) = match start(key) {
            Ok(state) => (ACCEPTED, state),
            Err(refusal) => (refusal.number(), start(&key[..0]).unwrap()),
        };
        CodeUpdated { number, state }
    }
}

// What the standard's steps give for a message, through the proved library: padded blocks, expansion, rounds, chaining values, digest.
// A word that there is none of is None.
use hash::Hash;
use standard::Words;

// Block n of a message, once that is padded.
#[derive(Clone, Copy)]
pub struct Block<'a> {
    message: &'a [u8],
    n: usize,
    bytes: [u8; 64],
}

// The bytes of block i of the padded message, by the padding writer and the block view.
fn block_bytes(message: &[u8], i: usize) -> Option<[u8; 64]> {
    let mut tail = [0u8; 128];
    padding::write(message, &mut tail).ok()?;
    padded::view_part(message, &tail, i).as_array().copied()
}

// Word i of eight.
fn word_of(v: Words, i: usize) -> Option<u32> {
    [v.a, v.b, v.c, v.d, v.e, v.f, v.g, v.h].get(i).copied()
}

impl<'a> Block<'a> {
    pub fn of(message: &'a [u8], n: usize) -> Option<Block<'a>> {
        let bytes = block_bytes(message, n)?;
        Some(Block { message, n, bytes })
    }

    // V(n), the chaining value before it. Every block before is folded for it: so only where it is asked for.
    fn before(&self) -> Option<Words> {
        let mut value = Hash::START;
        for i in 0..self.n {
            value = folding::fold_block(value, &block_bytes(self.message, i)?);
        }
        Some(value)
    }

    // Wi. Of a word that there is none of no block is expanded.
    pub fn expanded(&self, i: usize) -> Option<u32> {
        if 68 <= i {
            return None;
        }
        folding::expanded(&self.bytes).get(i).copied()
    }

    // W'i.
    pub fn primed(&self, i: usize) -> Option<u32> {
        if 64 <= i {
            return None;
        }
        let w = folding::expanded(&self.bytes);
        w.iter().zip(&w[4..]).map(|(w, w4)| w ^ w4).nth(i)
    }

    // Register i after the first `rounds` rounds, round by round, as the standard's page has them; row 0 is the state before round 0.
    pub fn register(&self, rounds: usize, i: usize) -> Option<u32> {
        if 64 < rounds {
            return None;
        }
        let w = folding::expanded(&self.bytes);
        let row = (0..64u32).zip(w.iter().zip(&w[4..])).take(rounds).fold(
            self.before()?,
            |r, (j, (w, w4))| standard::round(j, r, *w, w ^ w4),
        );
        word_of(row, i)
    }

    // Word i of V(n + 1).
    pub fn next_value(&self, i: usize) -> Option<u32> {
        word_of(folding::fold_block(self.before()?, &self.bytes), i)
    }
}

// Word i of the message's digest.
pub fn digest(message: &[u8], i: usize) -> Option<u32> {
    let bytes = hash::digest_of(message).ok()?;
    bytes
        .chunks_exact(4)
        .nth(i)?
        .as_array()
        .map(|word| u32::from_be_bytes(*word))
}

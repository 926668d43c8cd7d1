// SM3's folding of blocks, each read where it lies, by a ring of sixteen words (specs/Ring.antt).
#![tactic(auto)]

ghost use Rattle.std.specs.Prelude.{◌≡◌, ◌+◌, ◌*◌, ◌<◌, ◌≤◌, take, drop};
ghost use Rattle.word.specs.BigEndian.{number_of};
ghost use Rattle.standard.specs.Standard.{split, expansion, CF, folded};
ghost use Rattle.folding.specs.Ring.{IsWord, Turned, Goes};

use standard::{Words, p1, round, xored};

// Four bytes of a block: Wj, for j up to 15.
fn block_word(block: &[u8; 64], j: usize) -> u32
    requires { j < 16 }
    ensures { result ≡ number_of (take 4 (drop (j * 4) block.now)) }
{
    let i = j * 4;
    word::word_of(block[i], block[i + 1], block[i + 2], block[i + 3])
}

// The sixteen words that are held of a block. Wk stands at place k mod 16.
#[derive(Drop)]
struct Ring {
    words: [u32; 16],
}

impl Ring {
    // The ring before round 0: W0 .. W15 of a block.
    fn new(block: &[u8; 64]) -> Ring
        ensures { result.words ≡ split 16 block.now }
    {
        let mut words = [0; 16];
        for (j, word) in words.iter_mut().enumerate() {
            *word = block_word(block, j);
        }
        Ring { words }
    }

    // Wj from the sixteen words before it, for j from 16 to 67.
    fn next_word(&self, j: usize) -> u32
        requires { (16 ≤ j) × (j < 68) }
        ensures { IsWord j self.now.words result }
    {
        let w = &self.words;
        let inner = p1(w[(j - 16) % 16] ^ w[(j - 9) % 16] ^ word::rotate(w[(j - 3) % 16], 15));
        inner ^ word::rotate(w[(j - 13) % 16], 7) ^ w[(j - 6) % 16]
    }

    // The ring before round j, turned on to round j + 1: Wj+16 over Wj, the oldest. From j = 52 on it stays, for W67 is the last word.
    fn turn(&mut self, j: usize)
        requires { j < 68 }
        ensures { Turned j self.old.words self.new.words }
    {
        if j < 52 {
            self.words[j % 16] = self.next_word(j + 16);
        }
    }

    // Round j. Its words are read before the ring is turned, for the new word lies over Wj.
    fn step(&mut self, r: Words, j: usize) -> Words
        requires { j < 64 }
        ensures { Goes j (j + 1) self.old.words r self.new.words result }
    {
        let wj = self.words[j % 16];
        let w1 = wj ^ self.words[(j + 4) % 16];
        self.turn(j);
        round(j as u32, r, wj, w1)
    }

    // Rounds j to j + 3.
    fn four(&mut self, r: Words, j: usize) -> Words
        requires { j < 61 }
        ensures { Goes j (j + 4) self.old.words r self.new.words result }
    {
        let r = self.step(r, j);
        let r = self.step(r, j + 1);
        let r = self.step(r, j + 2);
        self.step(r, j + 3)
    }

    // All 64 rounds. Each is called by a literal number, so that its constant, its Boolean functions and its places in the ring are settled
    // when this is compiled (four at a time, since the compiler leaves eight as a call).
    fn all_rounds(&mut self, v: Words) -> Words
        ensures { Goes 0 64 self.old.words v self.new.words result }
    {
        let r = self.four(v, 0);
        let r = self.four(r, 4);
        let r = self.four(r, 8);
        let r = self.four(r, 12);
        let r = self.four(r, 16);
        let r = self.four(r, 20);
        let r = self.four(r, 24);
        let r = self.four(r, 28);
        let r = self.four(r, 32);
        let r = self.four(r, 36);
        let r = self.four(r, 40);
        let r = self.four(r, 44);
        let r = self.four(r, 48);
        let r = self.four(r, 52);
        let r = self.four(r, 56);
        self.four(r, 60)
    }
}

// W0 .. W67 of a block, as they go through the ring: for whoever wants to see them. Folding never holds more than sixteen.
pub fn expanded(block: &[u8; 64]) -> [u32; 68]
    ensures { result ≡ expansion block.now }
{
    let mut ring = Ring::new(block);
    let mut all = [0; 68];
    for (j, word) in all.iter_mut().enumerate() {
        *word = ring.words[j % 16];
        ring.turn(j);
    }
    all
}

// One block folded into eight words.
pub fn fold_block(v: Words, block: &[u8; 64]) -> Words
    ensures { result ≡ CF v block.now }
{
    let r = Ring::new(block).all_rounds(v);
    xored(r, v)
}

// All whole blocks of a lent slice folded into eight words, each read where it lies. (`for` over `as_chunks` or its `fold` takes 2,903
// instructions a block, and this 2,891, which bench/run limits to 2,900.)
pub fn fold(v: Words, bytes: &[u8]) -> Words
    ensures { result ≡ folded v bytes.now }
{
    let mut r = v;
    let mut rest = bytes;
    while let Some((block, after)) = rest.split_first_chunk::<64>() {
        r = fold_block(r, block);
        rest = after;
    }
    r
}

// One data file, line by line: what each line prints is held against what the library gives.
use crate::trace::Block;
use crate::{text, trace};
use arrayvec::ArrayVec;
use std::fmt;

// How many of each were compared, and how many lines differ.
#[derive(Clone, Copy, Default)]
pub struct Tally {
    messages: u64,
    words: u64,
    primed: u64,
    rows: u64,
    chained: u64,
    padded: u64,
    digests: u64,
    differ: u64,
}

impl fmt::Display for Tally {
    fn fmt<W: fmt::Write>(&self, f: &mut fmt::Formatter<W>) -> fmt::Result {
        write!(
            f,
            "messages {}\twords {}\tprimed {}\trows {}",
            self.messages, self.words, self.primed, self.rows
        )?;
        write!(
            f,
            "\tchained {}\tpadded {}\tdigests {}\tdiffer {}",
            self.chained, self.padded, self.digests, self.differ
        )
    }
}

// What a line of words lists: words of the padded message, the expansion's words W and W', a row of registers, a chaining value, the
// message's digest.
#[derive(Clone, Copy, PartialEq, Eq, Debug)]
enum Kind {
    Padded,
    Expanded,
    Primed,
    Row,
    Chained,
    Digest,
}

// What a line is.
#[derive(Clone, Copy, PartialEq, Eq, Debug)]
enum Line {
    Comment,
    Message,
    Block,
    Words(Kind),
}

// A line that begins with another byte.
#[derive(Clone, Copy, PartialEq, Eq, Debug)]
struct UnknownLine;

impl TryFrom<u8> for Line {
    type Error = UnknownLine;

    fn try_from(first: u8) -> Result<Line, UnknownLine> {
        match first {
            0 | b'#' => Ok(Line::Comment),
            b'M' => Ok(Line::Message),
            b'K' => Ok(Line::Block),
            b'B' => Ok(Line::Words(Kind::Padded)),
            b'W' => Ok(Line::Words(Kind::Expanded)),
            b'P' => Ok(Line::Words(Kind::Primed)),
            b'R' => Ok(Line::Words(Kind::Row)),
            b'V' => Ok(Line::Words(Kind::Chained)),
            b'D' => Ok(Line::Words(Kind::Digest)),
            _ => Err(UnknownLine),
        }
    }
}

// The most bytes of a message, and of one line of it.
const MESSAGE_BYTES: usize = 256;

const LINE_BYTES: usize = 64;

// The most words of a line, and how many bytes of the line each takes: a byte that parts it from what is before it, and eight digits.
const LINE_WORDS: usize = 8;

const WORD_ROOM: usize = 9;

// Where the run stands: the message, whether the line before was of it, the blocks begun, and how many words of each kind were seen of
// this block (of the message, for padded words). No memory is asked for: a run cannot fail for want of it.
#[derive(Drop)]
pub struct Run {
    message: ArrayVec<u8, MESSAGE_BYTES>,
    joining: bool,
    begun: usize,
    expanded: usize,
    primed: usize,
    rows: usize,
    padded: usize,
    pub tally: Tally,
}

impl Run {
    pub fn new() -> Run {
        Run {
            message: ArrayVec::new(),
            joining: false,
            begun: 0,
            expanded: 0,
            primed: 0,
            rows: 0,
            padded: 0,
            tally: Tally::default(),
        }
    }

    // Takes one line of a data file, and says whether it agrees.
    pub fn line(&mut self, line: &[u8]) -> bool {
        let agrees = self.agrees(line);
        if !agrees {
            self.tally.differ = self.tally.differ.saturating_add(1);
        }
        agrees
    }

    fn agrees(&mut self, line: &[u8]) -> bool {
        let joining = self.joining;
        self.joining = false;
        let Some((first, rest)) = line.split_first() else {
            return true;
        };
        match Line::try_from(*first) {
            Ok(Line::Comment) => true,
            Ok(Line::Message) => {
                self.joining = true;
                self.message_line(joining, rest)
            }
            Ok(Line::Block) => {
                self.new_block();
                true
            }
            Ok(Line::Words(kind)) => self.words_line(kind, rest),
            Err(UnknownLine) => false,
        }
    }

    // More bytes of the message, or the first ones of a new message: whether they are bytes and have room. What is no byte counts as 0.
    fn message_line(&mut self, joining: bool, rest: &[u8]) -> bool {
        if !joining {
            self.message.clear();
            self.begun = 0;
            self.padded = 0;
            self.tally.messages = self.tally.messages.saturating_add(1);
        }
        let mut agrees = true;
        for pair in rest.get(1..).unwrap_or(b"").chunks(2).take(LINE_BYTES) {
            let byte = text::byte(pair);
            let fits = self.message.try_push(byte.unwrap_or(0)).is_ok();
            agrees &= fits && byte.is_some();
        }
        agrees
    }

    fn new_block(&mut self) {
        self.begun = self.begun.saturating_add(1);
        self.expanded = 0;
        self.primed = 0;
        self.rows = 0;
    }

    // Up to eight words of a line, each beside the library's.
    fn words_line(&mut self, kind: Kind, rest: &[u8]) -> bool {
        let mut agrees = rest.len() <= LINE_WORDS * WORD_ROOM;
        for (i, part) in (0..LINE_WORDS).zip(rest.chunks(WORD_ROOM)) {
            let own = self.wanted(kind, i);
            agrees &= own.is_some() && part.get(1..).and_then(text::word) == own;
        }
        self.count(kind, rest.len().div_ceil(WORD_ROOM).min(LINE_WORDS));
        agrees
    }

    // The block that was begun last.
    fn block(&self) -> Option<Block<'_>> {
        Block::of(&self.message, self.begun.checked_sub(1)?)
    }

    // What the library has for word i of a line of this kind, counted as the run stands.
    fn wanted(&self, kind: Kind, i: usize) -> Option<u32> {
        match kind {
            Kind::Padded => {
                let i = self.padded.saturating_add(i);
                Block::of(&self.message, i / 16)?.expanded(i % 16)
            }
            Kind::Expanded => self.block()?.expanded(self.expanded.saturating_add(i)),
            Kind::Primed => self.block()?.primed(self.primed.saturating_add(i)),
            Kind::Row => self.block()?.register(self.rows, i),
            Kind::Chained => self.block()?.next_value(i),
            Kind::Digest => trace::digest(&self.message, i),
        }
    }

    // Counts a line of so many words.
    fn count(&mut self, kind: Kind, words: usize) {
        let tally = &mut self.tally;
        match kind {
            Kind::Padded => {
                tally.padded = tally.padded.saturating_add(words as u64);
                self.padded = self.padded.saturating_add(words);
            }
            Kind::Expanded => {
                tally.words = tally.words.saturating_add(words as u64);
                self.expanded = self.expanded.saturating_add(words);
            }
            Kind::Primed => {
                tally.primed = tally.primed.saturating_add(words as u64);
                self.primed = self.primed.saturating_add(words);
            }
            Kind::Row => {
                tally.rows = tally.rows.saturating_add(1);
                self.rows = self.rows.saturating_add(1);
            }
            Kind::Chained => tally.chained = tally.chained.saturating_add(1),
            Kind::Digest => tally.digests = tally.digests.saturating_add(1),
        }
    }
}

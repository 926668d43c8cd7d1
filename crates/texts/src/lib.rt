// Texts to print, put together by value before anything is written out.
#![tactic(auto)]

ghost use Rattle.std.specs.Prelude.{◌≡◌};
ghost use Rattle.decimal.specs.Writing.{decimal};
ghost use Rattle.texts.specs.Texts.{empty_text, with_part};

// The text is the first so many of these bytes. It is no String: to put it together cannot fail, and takes no memory of the heap.
#[derive(Clone, Copy)]
pub struct Text {
    pub bytes: [u8; 1024],
    pub length: usize,
}

// A text has at most so many bytes.
pub const MOST: usize = 1024;

#[tactic(auto, unfolding(crate::specs::Texts::empty_text))]
pub fn empty() -> Text
    ensures { result ≡ empty_text }
{
    Text {
        bytes: [0; 1024],
        length: 0,
    }
}

// The text with a part behind it; as it was where the part does not fit.
pub fn with(mut text: Text, part: &[u8]) -> Text
    ensures { result ≡ with_part text part.now }
{
    let at = text.length;
    if part.len() <= MOST && at <= MOST - part.len() {
        buffers::copy(&mut text.bytes, at, part);
        text.length = at + part.len();
    }
    text
}

// The text with a number's figures behind it.
pub fn with_number(text: Text, n: u64) -> Text
    ensures { result ≡ with_part text (decimal n) }
{
    let figures = decimal::figures_of(n);
    with(text, &figures.bytes[figures.from..])
}

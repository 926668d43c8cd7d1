// Reading the data files: the bytes and words that hex digits spell.

// The value of a small hex digit. `to_digit` takes capitals too, which no data file has.
fn digit(b: u8) -> Option<u32> {
    match b {
        b'0'..=b'9' | b'a'..=b'f' => char::from(b).to_digit(16),
        _ => None,
    }
}

// The number that so many digits spell, and no other bytes.
fn spelled(digits: &[u8], count: usize) -> Option<u32> {
    if digits.len() != count {
        return None;
    }
    digits
        .iter()
        .try_fold(0u32, |number, b| Some(number << 4 | digit(*b)?))
}

// The byte that two digits spell.
pub fn byte(digits: &[u8]) -> Option<u8> {
    u8::try_from(spelled(digits, 2)?).ok()
}

// The word that eight digits spell.
pub fn word(digits: &[u8]) -> Option<u32> {
    spelled(digits, 8)
}

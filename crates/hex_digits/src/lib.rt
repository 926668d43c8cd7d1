// Hex digits: a constant table of 256 entries, one a byte code.
#![tactic(auto)]

ghost use Rattle.std.specs.Prelude.{◌≡◌, get_or};
ghost use Rattle.hex_digits.specs.Digits.{digits, letter_of};

// 255 for a byte that is no digit.
static DIGITS: [u8; 256] = [
    255, 255, 255, 255, 255, 255, 255, 255, 255, 255, 255, 255, 255, 255, 255, 255, 255, 255, 255,
    255, 255, 255, 255, 255, 255, 255, 255, 255, 255, 255, 255, 255, 255, 255, 255, 255, 255, 255,
    255, 255, 255, 255, 255, 255, 255, 255, 255, 255, 0, // 0
    1, // 1
    2, // 2
    3, // 3
    4, // 4
    5, // 5
    6, // 6
    7, // 7
    8, // 8
    9, // 9
    255, 255, 255, 255, 255, 255, 255, 255, // A
    255, // B
    255, // C
    255, // D
    255, // E
    255, // F
    255, 255, 255, 255, 255, 255, 255, 255, 255, 255, 255, 255, 255, 255, 255, 255, 255, 255, 255,
    255, 255, 255, 255, 255, 255, 255, 10, // a
    11, // b
    12, // c
    13, // d
    14, // e
    15, // f
    255, 255, 255, 255, 255, 255, 255, 255, 255, 255, 255, 255, 255, 255, 255, 255, 255, 255, 255,
    255, 255, 255, 255, 255, 255, 255, 255, 255, 255, 255, 255, 255, 255, 255, 255, 255, 255, 255,
    255, 255, 255, 255, 255, 255, 255, 255, 255, 255, 255, 255, 255, 255, 255, 255, 255, 255, 255,
    255, 255, 255, 255, 255, 255, 255, 255, 255, 255, 255, 255, 255, 255, 255, 255, 255, 255, 255,
    255, 255, 255, 255, 255, 255, 255, 255, 255, 255, 255, 255, 255, 255, 255, 255, 255, 255, 255,
    255, 255, 255, 255, 255, 255, 255, 255, 255, 255, 255, 255, 255, 255, 255, 255, 255, 255, 255,
    255, 255, 255, 255, 255, 255, 255, 255, 255, 255, 255, 255, 255, 255, 255, 255, 255, 255, 255,
    255, 255, 255, 255, 255, 255, 255, 255, 255, 255, 255, 255, 255, 255, 255, 255, 255, 255, 255,
    255,
];

// The table.
pub fn table() -> [u8; 256]
    ensures { result ≡ digits }
{
    DIGITS
}

// The digit of a byte, looked up in a lent table.
pub fn digit(table: &[u8; 256], code: u8) -> u8
    ensures { result ≡ get_or table.now code 0 }
{
    table[code as usize]
}

// The same in the table where it lies: nothing of it is copied.
pub fn value_of(code: u8) -> u8
    ensures { result ≡ get_or digits code 0 }
{
    digit(&DIGITS, code)
}

// The digit that stands for a value: a small letter from ten on. 0, which is none, for a value that is no digit's.
#[tactic(auto, unfolding(crate::specs::Digits::letter_of))]
pub fn letter_of(value: u8) -> u8
    ensures { result ≡ letter_of value }
{
    match value {
        0..=9 => b'0' + value,
        10..=15 => b'a' + (value - 10),
        _ => 0,
    }
}

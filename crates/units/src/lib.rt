// Three units of length that are never mixed: bits, bytes and sample frames. One frame is two bytes.
// A length in another unit is `None` where it has no exact value there.
#![tactic(auto)]

ghost use Rattle.std.specs.Prelude.{◌≡◌};
ghost use Rattle.units.specs.Units.{bits_of, bytes_of_bits, frames_of, bytes_of_frames};

#[derive(Clone, Copy, Debug, PartialEq, Eq, PartialOrd, Ord)]
pub struct Bits(pub u64);

#[derive(Clone, Copy, Debug, PartialEq, Eq, PartialOrd, Ord)]
pub struct Bytes(pub u64);

#[derive(Clone, Copy, Debug, PartialEq, Eq, PartialOrd, Ord)]
pub struct Frames(pub u64);

// The most bytes whose bits can be counted, 2^61 - 1: no message has more.
pub const LONGEST: u64 = 0x1fff_ffff_ffff_ffff;

// Two conversions go by a product, two by a quotient. They stay four: each is one line, and a trait over the units would be longer.
impl Bits {
    pub fn bytes(self) -> Option<Bytes>
        ensures { result ≡ bytes_of_bits self }
    {
        (self.0 % 8 == 0).then_some(Bytes(self.0 / 8))
    }
}

impl Bytes {
    pub fn bits(self) -> Option<Bits>
        ensures { result ≡ bits_of self }
    {
        self.0.checked_mul(8).map(Bits)
    }

    pub fn frames(self) -> Option<Frames>
        ensures { result ≡ frames_of self }
    {
        (self.0 % 2 == 0).then_some(Frames(self.0 / 2))
    }
}

impl Frames {
    pub fn bytes(self) -> Option<Bytes>
        ensures { result ≡ bytes_of_frames self }
    {
        self.0.checked_mul(2).map(Bytes)
    }
}

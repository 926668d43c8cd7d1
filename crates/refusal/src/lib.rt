// The refusals of the product's table, by name and by number, and what a call that writes into a buffer answers to a C host.
#![tactic(auto)]

ghost use Rattle.std.specs.Prelude.{◌≡◌, ◌∷◌, ◌++◌};
ghost use Rattle.refusal.specs.Table.{accepted, number_by, number_of, written_of};
ghost use Rattle.refusal.specs.Promises.{rows, later_rows};

// The number of an accepted call.
pub const ACCEPTED: u8 = 0;

// Why a call was refused.
#[derive(Clone, Copy, Debug, PartialEq, Eq)]
pub enum Refusal {
    // A sheet: its form; the count or a note; a length; a loop.
    Form = 1,
    CountOrNote = 2,
    BadLength = 3,
    BadLoop = 4,
    // A session: note 0, above 32 or unlisted; its slot not in order; a decided note; a piece past the length.
    Unlisted = 5,
    SlotNotInOrder = 6,
    Decided = 7,
    PastLength = 8,
    // A hash state not in order; a message past 2^61 - 1 bytes; a tail buffer too short, or an expected digest not of 32 bytes.
    StateNotInOrder = 9,
    TooLong = 10,
    WrongSize = 11,
    // A block view: no such block; a tail buffer that is not what the writer puts there. The remover: not a padded message.
    NoSuchBlock = 12,
    OtherTail = 13,
    NotPadded = 14,
    // From here on the numbers of document 02. 15 to 18 are given; each of the others is once its request has landed.
    // 1/13, the sheet's writer: no note listed; a buffer shorter than the sheet.
    NoneListed = 15,
    ShortBuffer = 16,
    // 4/13, keyed sheets: the MAC line missing or ill formed; a code that does not fit.
    NoMacLine = 17,
    OtherCode = 18,
    // 7/13, a sheet's form by what was expected: the word RANK or the edition; a number; a tab or line end; a digest's digit; text after
    // the sheet.
    NoWord = 19,
    NoNumber = 20,
    NoSeparator = 21,
    NoDigit = 22,
    TextAfter = 23,
    // 8/13, pages: a page number not below the count; a path of another length; a path buffer too short.
    NoSuchPage = 24,
    OtherPathLength = 25,
    ShortPathBuffer = 26,
    // 10/13, groups: a ninth level.
    TooDeep = 27,
    // 8/13 again: a page of another size.
    OtherPageSize = 28,
    // 10/13 again: a writer's list that is no accepted sheet's.
    OtherGroups = 29,
}

impl Refusal {
    // Its number in the table.
    pub fn number(self) -> u8
        ensures { result ≡ number_by self }
    {
        self as u8
    }
}

// What a call that writes into a lent buffer answers to a C host: its number, and how many bytes it wrote (0 where it refuses).
#[repr(C)]
#[derive(Clone, Copy)]
pub struct Written {
    pub number: u8,
    pub count: usize,
}

impl From<Result<usize, Refusal>> for Written {
    ghost from_gives = { λ answer w. w ≡ written_of answer };

    fn from(answer: Result<usize, Refusal>) -> Written {
        match answer {
            Ok(count) => Written {
                number: ACCEPTED,
                count,
            },
            Err(refusal) => Written {
                number: refusal.number(),
                count: 0,
            },
        }
    }
}

// The number of a call that answers nothing else.
pub fn number_of(answer: Result<(), Refusal>) -> u8
    ensures { result ≡ number_of answer }
{
    match answer {
        Ok(()) => ACCEPTED,
        Err(refusal) => refusal.number(),
    }
}

// Every number, in the order of the table.
pub fn numbers() -> [u8; 30]
    ensures { result ≡ accepted ∷ (rows ++ later_rows) }
{
    [
        ACCEPTED,
        Refusal::Form.number(),
        Refusal::CountOrNote.number(),
        Refusal::BadLength.number(),
        Refusal::BadLoop.number(),
        Refusal::Unlisted.number(),
        Refusal::SlotNotInOrder.number(),
        Refusal::Decided.number(),
        Refusal::PastLength.number(),
        Refusal::StateNotInOrder.number(),
        Refusal::TooLong.number(),
        Refusal::WrongSize.number(),
        Refusal::NoSuchBlock.number(),
        Refusal::OtherTail.number(),
        Refusal::NotPadded.number(),
        Refusal::NoneListed.number(),
        Refusal::ShortBuffer.number(),
        Refusal::NoMacLine.number(),
        Refusal::OtherCode.number(),
        Refusal::NoWord.number(),
        Refusal::NoNumber.number(),
        Refusal::NoSeparator.number(),
        Refusal::NoDigit.number(),
        Refusal::TextAfter.number(),
        Refusal::NoSuchPage.number(),
        Refusal::OtherPathLength.number(),
        Refusal::ShortPathBuffer.number(),
        Refusal::TooDeep.number(),
        Refusal::OtherPageSize.number(),
        Refusal::OtherGroups.number(),
    ]
}

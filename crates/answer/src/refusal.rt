// Why a call refuses: document 01's list, "Numbers on the panel", with document 02's 27.
ghost use Rattle.std.specs.Prelude.{◌≡◌};
ghost use Rattle.answer.specs.Refusal.{number_of, fault_at};

// Each with its number.
#[derive(Clone, Copy, Debug, PartialEq, Eq)]
pub enum Refusal {
    BlobTooLong = 1,
    BytesEnd = 2,
    MalformedNumber = 3,
    CountOutOfRange = 4,
    ByteNotAllowed = 5,
    TooDeep = 6,
    WrongTag = 7,
    RowOutOfRange = 8,
    BytesLeft = 9,
    TooManyNodes = 10,
    TooFewRecords = 11,
    UnknownKind = 12,
    TableTooLarge = 13,
    NoBlob = 14,
    OutputTooShort = 15,
    NoSuchRow = 16,
    NothingToAcknowledge = 17,
    AlreadyMarked = 18,
    SizeOutOfRange = 19,
    TooFewWords = 27,
}

impl From<Refusal> for u32 {
    ghost from_gives = { λ refusal n. n ≡ number_of refusal };

    fn from(refusal: Refusal) -> u32 {
        refusal as u32
    }
}

// A refusal with its place.
#[derive(Clone, Copy, Debug, PartialEq, Eq)]
pub struct Fault {
    pub refusal: Refusal,
    pub place: usize,
}

impl Refusal {
    pub fn at(self, place: usize) -> Fault
        ensures { result ≡ fault_at self place }
    {
        Fault {
            refusal: self,
            place,
        }
    }
}

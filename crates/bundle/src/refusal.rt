// The causes for which an operation turns its input away, and the refusal that names one with its place.
ghost use Rattle.std.specs.Prelude.{◌≡◌};
ghost use Rattle.bundle.specs.Answer.{number_of};

// Each cause with its number (docs/FORMAT.md).
#[derive(Clone, Copy, PartialEq, Eq)]
pub enum Cause {
    BundleTooLong = 1,
    UnknownCommand = 2,
    OperandsCutOff = 3,
    Misplaced = 4,
    OutOfRange = 5,
    LockMisused = 6,
    TooManyEntries = 7,
    ForkedBefore = 8,
    StrayChunk = 9,
    MissingChunk = 10,
    TooDeep = 11,
    BarrierCount = 12,
    WorkAreaTooSmall = 13,
    NoneSuch = 14,
    BadLabel = 15,
    UnequalSpans = 16,
    DoesNotFit = 17,
    PastEnd = 18,
    CutAhead = 19,
    OtherGroup = 20,
    SiteTooLarge = 21,
    TooFewRecords = 22,
    WrongRecord = 23,
}

impl From<Cause> for u8 {
    ghost from_gives = { λ cause number. number ≡ number_of cause };

    fn from(cause: Cause) -> u8 {
        cause as u8
    }
}

// Why an operation turns its input away, and the place in the input that it names.
#[derive(Clone, Copy, PartialEq, Eq)]
pub struct Refusal {
    pub place: usize,
    pub cause: Cause,
}

// The refusals of document 01's table, each by its name, with its number.
ghost use Rattle.std.specs.Prelude.{◌≡◌};
ghost use Rattle.format.specs.Refusals.{number_of, answered};

#[derive(Clone, Copy, PartialEq, Eq, Debug)]
pub enum Refusal {
    NoMark = 1,
    NoOrder = 2,
    ShortMeta1 = 3,
    BadFormat = 4,
    BadBlocksize = 5,
    BadTasks = 6,
    BadFiles = 7,
    BadRank = 8,
    BadSize = 9,
    NotClosed = 10,
    BadMaxchunks = 11,
    BadMeta2Place = 12,
    BadMeta2 = 13,
    NoTask = 14,
    TooLong = 15,
    NoChunkLeft = 16,
    BadRecord = 17,
    TooShort = 18,
    CellsDisagree = 19,
    BadPlanned = 20,
    LongPrefix = 21,
    NoChunk = 22,
    PastTotal = 23,
    BadMapping = 25,
}

impl Refusal {
    pub fn number(self) -> u32
        ensures { result ≡ number_of self }
    {
        self as u32
    }
}

// The number that a call answers with: 0 where it does its work.
pub fn answered(answer: Result<(), Refusal>) -> u32
    ensures { result ≡ answered answer }
{
    match answer {
        Ok(()) => 0,
        Err(refusal) => refusal.number(),
    }
}

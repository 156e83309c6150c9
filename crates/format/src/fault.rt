// What a load found broken (W-205): a field by its kind, where it stands, what it says, and from where to where it may be.
ghost use Rattle.std.specs.Prelude.{◌≡◌};
ghost use Rattle.format.specs.Refusals.{kind_of};

use crate::refusal::Refusal;

// A field that a load judges, by its kind; its number is what a fault says of it.
#[derive(Clone, Copy, PartialEq, Eq, Debug)]
pub enum Field {
    Mark = 1,
    Order = 2,
    // The image's end, which comes too early.
    Image = 3,
    Format = 4,
    Blocksize = 5,
    Tasks = 6,
    Files = 7,
    FileNumber = 8,
    Rank = 9,
    Size = 10,
    Maxchunks = 11,
    Start = 12,
    // The table that is lent, which has too few cells.
    Table = 13,
    Count = 14,
    Value = 15,
    // Of the mapping of a pair: mapping_size, and of an entry the file that it names, the task, and the rank that this task carries.
    MappingSize = 16,
    EntryFile = 17,
    EntryTask = 18,
    EntryRank = 19,
}

impl Field {
    pub fn kind(self) -> u32
        ensures { result ≡ kind_of self }
    {
        self as u32
    }
}

// `field` is the number of a kind, as C is handed it, and 0 where nothing is broken; then all else is 0 too. `task` and `chunk` are counted from 1,
// and 0 where the field is of none; an entry of a mapping has its rank and 1 as its task. The mark and the order number say nothing, and so the
// place of a mark and what all three numbers say is 0; an image's end and a table say their length, and both bounds are what is needed.
#[repr(C)]
#[derive(Clone, Copy, Default)]
pub struct Fault {
    pub place: u64,
    pub says: i64,
    pub least: i64,
    pub most: i64,
    pub field: u32,
    pub task: u32,
    pub chunk: u32,
}

// What a load answers where a test fails: the refusal, and the field that is broken.
#[derive(Clone, Copy)]
pub struct Broken {
    pub refusal: Refusal,
    pub fault: Fault,
}

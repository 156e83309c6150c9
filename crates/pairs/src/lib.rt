// Document 02, W-204, as definitions: here the structs that a pair's entries answer with; in specs/ the rules, in proofs/ their
// laws and numbers. A pair is two physical files, 0 and 1, each with its own record, image and table; a field whose name ends in 0 or 1 is of that
// file.
#![tactic(auto)]

ghost use Rattle.std.specs.Prelude.{◌≡◌};
ghost use Rattle.format.specs.declared.session.Session.{Session};
ghost use Rattle.pairs.specs.Answers.{pair_needed_of, pair_closed_of, pair_part_of};

use format::fault::Fault;
use format::head::LISTS;
use format::limit::MAX_TASKS;
use format::loaded::Loaded;
use format::refusal::Refusal;
use format::session::Session;

// The most tasks of a pair.
pub const PAIR_TASKS: usize = 2 * MAX_TASKS;

// What an opening of a pair needs: of each file, the bytes of its image and the cells of its table.
#[derive(Clone, Copy)]
pub struct PairRoom {
    pub image0: u64,
    pub cells0: u64,
    pub image1: u64,
    pub cells1: u64,
}

// The same for C, with the number of a refusal.
#[repr(C)]
#[derive(Clone, Copy)]
pub struct PairNeeded {
    pub refusal: u32,
    pub image0: u64,
    pub cells0: u64,
    pub image1: u64,
    pub cells1: u64,
}

// What an opening answers, with both records: C is handed it as it is made, since a result of it would copy the lists.
#[repr(C)]
#[derive(Drop)]
pub struct PairOpened {
    pub session0: Session,
    pub lists0: [u64; LISTS],
    pub session1: Session,
    pub lists1: [u64; LISTS],
    pub refusal: u32,
}

// What closing a pair answers: both sessions, marked closed, and the length of each file.
#[derive(Clone, Copy)]
pub struct PairFinished {
    pub session0: Session,
    pub session1: Session,
    pub length0: u64,
    pub length1: u64,
}

// The same for C, with the number of a refusal, and then the sessions as they were given.
#[repr(C)]
#[derive(Clone, Copy)]
pub struct PairClosed {
    pub refusal: u32,
    pub session0: Session,
    pub session1: Session,
    pub length0: u64,
    pub length1: u64,
}

// What loading a pair answers: `fault` says what is broken, and `file` in which of the two.
#[repr(C)]
#[derive(Drop)]
pub struct PairLoaded {
    pub loaded0: Loaded,
    pub lists0: [u64; LISTS],
    pub loaded1: Loaded,
    pub lists1: [u64; LISTS],
    pub refusal: u32,
    pub file: u32,
    pub fault: Fault,
}

// Where the written bytes of one chunk lie, in which of the two images: 0 or 1.
#[derive(Clone, Copy)]
pub struct PairPlace {
    pub file: u32,
    pub start: u64,
    pub length: u64,
}

// The same for C, with the number of a refusal.
#[repr(C)]
#[derive(Clone, Copy)]
pub struct PairPart {
    pub refusal: u32,
    pub file: u32,
    pub start: u64,
    pub length: u64,
}

impl From<Result<PairRoom, Refusal>> for PairNeeded {
    ghost from_gives = { λ answer needed. needed ≡ pair_needed_of answer };

    fn from(answer: Result<PairRoom, Refusal>) -> PairNeeded {
        match answer {
            Ok(room) => PairNeeded {
                refusal: 0,
                image0: room.image0,
                cells0: room.cells0,
                image1: room.image1,
                cells1: room.cells1,
            },
            Err(refusal) => PairNeeded {
                refusal: refusal.number(),
                image0: 0,
                cells0: 0,
                image1: 0,
                cells1: 0,
            },
        }
    }
}

impl PairClosed {
    pub fn of(s0: Session, s1: Session, answer: Result<PairFinished, Refusal>) -> PairClosed
        ensures { result ≡ pair_closed_of s0 s1 answer }
    {
        match answer {
            Ok(finished) => PairClosed {
                refusal: 0,
                session0: finished.session0,
                session1: finished.session1,
                length0: finished.length0,
                length1: finished.length1,
            },
            Err(refusal) => PairClosed {
                refusal: refusal.number(),
                session0: s0,
                session1: s1,
                length0: 0,
                length1: 0,
            },
        }
    }
}

impl From<Result<PairPlace, Refusal>> for PairPart {
    ghost from_gives = { λ answer part. part ≡ pair_part_of answer };

    fn from(answer: Result<PairPlace, Refusal>) -> PairPart {
        match answer {
            Ok(place) => PairPart {
                refusal: 0,
                file: place.file,
                start: place.start,
                length: place.length,
            },
            Err(refusal) => PairPart {
                refusal: refusal.number(),
                file: 0,
                start: 0,
                length: 0,
            },
        }
    }
}

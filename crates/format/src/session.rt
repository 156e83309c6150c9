// The record of a session, what an opening is given, and what a session's entries answer. A record is its numbers, by value, and its lists,
// `[u64; LISTS]` of `head`. In every answer `refusal` is 0 or a number of the module `refusal`.
ghost use Rattle.std.specs.Prelude.{◌≡◌};
ghost use Rattle.format.specs.Answers.{needed_of, closed_of};

use crate::head::{Head, LISTS};
use crate::refusal::Refusal;

// The numbers of a session: the planned blocks K, and the closed mark, 0 where it is unset. Its counts are the chunks begun by each task, in format 4
// at least 1.
#[repr(C)]
#[derive(Clone, Copy)]
pub struct Session {
    pub head: Head,
    pub planned: u32,
    pub closed: u32,
}

// What an opening is given beside ranks, sizes and prefix; `order` is 0 for little and 1 for big, `format` is fileformat_version.
#[repr(C)]
#[derive(Clone, Copy)]
pub struct Plan {
    pub order: u32,
    pub version: i32,
    pub patch: i32,
    pub format: u32,
    pub blocksize: u32,
    pub planned: u32,
}

// What an opening needs: the bytes of its image and the cells of its table.
#[derive(Clone, Copy)]
pub struct Room {
    pub image: u64,
    pub cells: u64,
}

// The same for C, with the number of a refusal.
#[repr(C)]
#[derive(Clone, Copy)]
pub struct Needed {
    pub refusal: u32,
    pub image: u64,
    pub cells: u64,
}

// What opening answers, with the whole record: C is handed it as it is made, since a result of it would copy the lists.
#[repr(C)]
#[derive(Drop)]
pub struct Opened {
    pub session: Session,
    pub lists: [u64; LISTS],
    pub refusal: u32,
}

// What closing answers: the session, marked closed, and the container's length.
#[derive(Clone, Copy)]
pub struct Finished {
    pub session: Session,
    pub length: u64,
}

// The same for C, with the number of a refusal, and then the session as it was given.
#[repr(C)]
#[derive(Clone, Copy)]
pub struct Closed {
    pub refusal: u32,
    pub session: Session,
    pub length: u64,
}

impl From<Result<Room, Refusal>> for Needed {
    ghost from_gives = { λ answer needed. needed ≡ needed_of answer };

    fn from(answer: Result<Room, Refusal>) -> Needed {
        match answer {
            Ok(room) => Needed {
                refusal: 0,
                image: room.image,
                cells: room.cells,
            },
            Err(refusal) => Needed {
                refusal: refusal.number(),
                image: 0,
                cells: 0,
            },
        }
    }
}

impl Closed {
    pub fn of(given: Session, answer: Result<Finished, Refusal>) -> Closed
        ensures { result ≡ closed_of given answer }
    {
        match answer {
            Ok(finished) => Closed {
                refusal: 0,
                session: finished.session,
                length: finished.length,
            },
            Err(refusal) => Closed {
                refusal: refusal.number(),
                session: given,
                length: 0,
            },
        }
    }
}

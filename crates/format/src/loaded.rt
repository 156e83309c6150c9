// The record of a loaded container, which is never mixed with a session's, and what loading and the reads answer.
ghost use Rattle.std.specs.Prelude.{◌≡◌};
ghost use Rattle.format.specs.Answers.{part_of, byte_count};

use crate::fault::Fault;
use crate::head::{Head, LISTS};
use crate::refusal::Refusal;

// A loaded container: the greatest of its counts, and the closed mark, 0 where it is unset. Its lists are lent beside it.
#[repr(C)]
#[derive(Clone, Copy)]
pub struct Loaded {
    pub head: Head,
    pub maxchunks: u32,
    pub closed: u32,
}

// What loading answers: C is handed it as it is made, since a result of it would copy the lists. `refusal` is 0 or a number of the module `refusal`;
// `fault` says what is broken where it is not 0.
#[repr(C)]
#[derive(Drop)]
pub struct LoadAnswer {
    pub loaded: Loaded,
    pub lists: [u64; LISTS],
    pub refusal: u32,
    pub fault: Fault,
}

// Where the written bytes of one chunk, or the filename prefix, lie in the image.
#[derive(Clone, Copy)]
pub struct Place {
    pub start: u64,
    pub length: u64,
}

// The same for C, with the number of a refusal.
#[repr(C)]
#[derive(Clone, Copy)]
pub struct Part {
    pub refusal: u32,
    pub start: u64,
    pub length: u64,
}

// For C: how many bytes were copied, a task's total, or the container's length, with the number of a refusal.
#[repr(C)]
#[derive(Clone, Copy)]
pub struct ByteCount {
    pub refusal: u32,
    pub bytes: u64,
}

impl From<Result<Place, Refusal>> for Part {
    ghost from_gives = { λ answer part. part ≡ part_of answer };

    fn from(answer: Result<Place, Refusal>) -> Part {
        match answer {
            Ok(place) => Part {
                refusal: 0,
                start: place.start,
                length: place.length,
            },
            Err(refusal) => Part {
                refusal: refusal.number(),
                start: 0,
                length: 0,
            },
        }
    }
}

impl From<Result<u64, Refusal>> for ByteCount {
    ghost from_gives = { λ answer count. count ≡ byte_count answer };

    fn from(answer: Result<u64, Refusal>) -> ByteCount {
        match answer {
            Ok(bytes) => ByteCount { refusal: 0, bytes },
            Err(refusal) => ByteCount {
                refusal: refusal.number(),
                bytes: 0,
            },
        }
    }
}

// Closing a session: META2, then META1's last two fields stored, the session marked closed, and the container's length.
#![tactic(auto)]

ghost use Rattle.std.specs.Prelude.{◌≡◌, ◌≤◌};
ghost use Rattle.format.specs.Limits.{max_tasks};
ghost use Rattle.format.specs.declared.head.Head.{Head};
ghost use Rattle.format.specs.declared.head.File.TheVariants.{Single};
ghost use Rattle.format.specs.Record.{size_of, end_at};
ghost use Rattle.format.specs.declared.session.Session.{Session};
ghost use Rattle.format.specs.Session.{state_of};
ghost use Rattle.lists.specs.Stores.{found};
ghost use Rattle.format.specs.Answers.{closed_of};
ghost use Rattle.format.specs.Close.{maxchunks_of, closing_stores, close_answer, close_image, close_found};
ghost use Rattle.format.specs.Passed.{Meta2Fits};

use format::head::{COUNTS, File, Head, LISTS};
use format::limit::ENDLESS;
use format::refusal::Refusal;
use format::session::{Finished, Session};
use layout::Layout;

// The greatest of the counts.
pub fn most_chunks(lists: &[u64; LISTS], n: u32) -> u64
    requires { n ≤ max_tasks }
    ensures { result ≡ maxchunks_of n lists.now }
{
    let counts = &lists[COUNTS..];
    tables::greatest(&counts[..n as usize])
}

// META2, then the fields that say how long it is and where: the end of META2.
pub fn finish(
    h: Head,
    lists: &[u64; LISTS],
    maxchunks: u32,
    image: &mut [u8],
    table: &[i64],
    budget: u64,
) -> u64
    requires { Meta2Fits h lists.now maxchunks image.old table.now }
    ensures image_after { image.new ≡ found budget image.old (closing_stores h lists.now maxchunks table.now) }
    ensures value { result ≡ end_at h (size_of lists.now) maxchunks }
{
    let big = h.order == 1;
    let start = Layout::of(h, lists).meta2_start(maxchunks);
    let counts = &lists[COUNTS..];
    let left = emit::meta2(
        image,
        start as usize,
        counts,
        table,
        h.n,
        maxchunks,
        big,
        budget,
    );
    emit::last_fields(image, h.n, big, maxchunks, start, left);
    start + layout::meta2_length(h.n, maxchunks)
}

// Closes a session: tests 17, 18 and 19. The numbers come back marked closed. Of the byte stores into the image only the first `budget` are made.
pub fn close_within(
    s: Session,
    lists: &[u64; LISTS],
    image: &mut [u8],
    table: &[i64],
    budget: u64,
) -> Result<Finished, Refusal>
    ensures value { closed_of s result ≡ close_answer (state_of Single s lists.now image.old table.now) }
    ensures image_after { image.new ≡ close_found (state_of Single s lists.now image.old table.now) budget }
{
    records::test_session(File::Single, s, lists, image, table)?;
    let maxchunks = most_chunks(lists, s.head.n) as u32;
    let length = finish(s.head, lists, maxchunks, image, table, budget);
    let session = Session { closed: 1, ..s };
    Ok(Finished { session, length })
}

// The same, with all of its stores.
pub fn close(
    s: Session,
    lists: &[u64; LISTS],
    image: &mut [u8],
    table: &[i64],
) -> Result<Finished, Refusal>
    ensures value { closed_of s result ≡ close_answer (state_of Single s lists.now image.old table.now) }
    ensures image_after { image.new ≡ close_image (state_of Single s lists.now image.old table.now) }
{
    close_within(s, lists, image, table, ENDLESS)
}

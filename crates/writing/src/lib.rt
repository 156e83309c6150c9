// A write to a session: the session's tests, then where the request's bytes go, and the stores that put them there. Tasks and chunks are
// counted from 1.
#![tactic(auto)]

ghost use Rattle.std.specs.Prelude.{◌≡◌, ◌+◌, ◌≤◌, ◌<◌, length, [], ◌∷◌};
ghost use Rattle.lists.specs.Stores.{store, found};
ghost use Rattle.format.specs.declared.head.Head.{Head};
ghost use Rattle.format.specs.declared.head.File.TheVariants.{Single};
ghost use Rattle.format.specs.Refusals.{first_failing, answered};
ghost use Rattle.format.specs.Record.{sizes_of, size_of, file_in, start_of};
ghost use Rattle.format.specs.declared.session.Session.{Session};
ghost use Rattle.format.specs.Session.{state_of, session_tests};
ghost use Rattle.format.specs.Write.{request_of, write_refusal, after_write, write_found};
ghost use Rattle.writing.specs.declared.Spot.{Spot};
ghost use Rattle.writing.specs.Writing.{next_chunk, ChunkThere, decision, placed, decided};

use format::head::{COUNTS, File, Head, LISTS};
use format::limit::ENDLESS;
use format::refusal::Refusal;
use format::session::Session;
use layout::Layout;
use stores::memory;

// Where a request's bytes go: a chunk of its task, and the bytes that stand there before them.
#[derive(Clone, Copy)]
struct Spot {
    chunk: u64,
    from: u64,
}

// The next chunk of a task, if its number is at most K.
fn next_chunk(planned: u32, begun: u64) -> Result<Spot, Refusal>
    requires { begun ≤ planned }
    ensures { placed result ≡ next_chunk planned begun }
{
    if planned as u64 <= begun {
        return Err(Refusal::NoChunkLeft);
    }
    Ok(Spot {
        chunk: begun + 1,
        from: 0,
    })
}

// Tests 15 and 16 of a request that has bytes, to a task of a session that passed its tests.
fn place(
    s: Session,
    lists: &[u64; LISTS],
    image: &[u8],
    table: &[i64],
    task: u64,
    bytes: &[u8],
) -> Result<Spot, Refusal>
    requires table_value { first_failing (session_tests (state_of (file_in s.head) s lists.now image.now table.now)) ≡ 0 }
    requires le_task { (1 ≤ task) × (task ≤ s.head.n) × (0 < length bytes.now) }
    ensures { placed result ≡ decision (state_of (file_in s.head) s lists.now image.now table.now) (request_of task bytes.now) }
{
    let i = (task - 1) as usize;
    let length = bytes.len() as u64;
    let holds = Layout::of(s.head, lists).chunk_holds(i);
    if holds < length {
        return Err(Refusal::TooLong);
    }
    let begun = lists[COUNTS + i];
    if begun == 0 {
        return next_chunk(s.planned, begun);
    }
    let at = (begun - 1) as usize * s.head.n as usize + i;
    let last = tables::written(table, at);
    if length <= holds - last {
        return Ok(Spot {
            chunk: begun,
            from: last,
        });
    }
    next_chunk(s.planned, begun)
}

// Where the bytes of a request to a session that passed its tests go, or why they are refused: test 14, then nothing to do for an empty
// request, then 15 and 16.
fn decide(
    s: Session,
    lists: &[u64; LISTS],
    image: &[u8],
    table: &[i64],
    task: u64,
    bytes: &[u8],
) -> Result<Option<Spot>, Refusal>
    requires { first_failing (session_tests (state_of (file_in s.head) s lists.now image.now table.now)) ≡ 0 }
    ensures { decided result ≡ decision (state_of (file_in s.head) s lists.now image.now table.now) (request_of task bytes.now) }
{
    if task < 1 || (s.head.n as u64) < task {
        return Err(Refusal::NoTask);
    }
    if bytes.is_empty() {
        return Ok(None);
    }
    let spot = place(s, lists, image, table, task, bytes)?;
    Ok(Some(spot))
}

// The bytes into a task's chunk, from its next free byte on: the unwritten rest of the chunk is lent to the copy.
fn put(
    image: &mut [u8],
    h: Head,
    lists: &[u64; LISTS],
    task: u64,
    spot: Spot,
    bytes: &[u8],
    budget: u64,
)
    requires { ChunkThere h (sizes_of lists.now) task spot.chunk spot.from bytes.now image.old }
    ensures { image.new ≡ found budget image.old (store (start_of h (size_of lists.now) task spot.chunk + spot.from) bytes.now ∷ []) }
{
    let layout = Layout::of(h, lists);
    let start = layout.chunk_start(task, spot.chunk) as usize;
    let free = start + spot.from as usize;
    let end = start + layout.chunk_holds((task - 1) as usize) as usize;
    memory::copy_within(&mut image[free..end], bytes, budget);
}

// The request of a write to a session that passed its tests: 14, an empty one accepted, 15, 16, and then the stores, of the bytes, of the
// task's cell and of its count.
pub fn request(
    s: Session,
    lists: &mut [u64; LISTS],
    image: &mut [u8],
    table: &mut [i64],
    task: u64,
    bytes: &[u8],
    budget: u64,
) -> Result<(), Refusal>
    requires { first_failing (session_tests (state_of (file_in s.head) s lists.old image.old table.old)) ≡ 0 }
    ensures value { answered result ≡ write_refusal (state_of (file_in s.head) s lists.old image.old table.old) (request_of task bytes.now) }
    ensures table_after { state_of (file_in s.head) s lists.new image.new table.new ≡ write_found (state_of (file_in s.head) s lists.old image.old table.old) (request_of task bytes.now) budget }
{
    let Some(spot) = decide(s, lists, image, table, task, bytes)? else {
        return Ok(());
    };
    let i = (task - 1) as usize;
    let at = (spot.chunk - 1) as usize * s.head.n as usize + i;
    put(image, s.head, lists, task, spot, bytes, budget);
    table[at] = tables::cell_of(spot.from + bytes.len() as u64);
    lists[COUNTS + i] = spot.chunk;
    Ok(())
}

// A write to a session: tests 17, 18 and 19, then its request. Only a count of the lists may change. Of the byte stores into the image only the first
// `budget` are made.
pub fn write_within(
    s: Session,
    lists: &mut [u64; LISTS],
    image: &mut [u8],
    table: &mut [i64],
    task: u64,
    bytes: &[u8],
    budget: u64,
) -> Result<(), Refusal>
    ensures value { answered result ≡ write_refusal (state_of Single s lists.old image.old table.old) (request_of task bytes.now) }
    ensures table_after { state_of Single s lists.new image.new table.new ≡ write_found (state_of Single s lists.old image.old table.old) (request_of task bytes.now) budget }
{
    records::test_session(File::Single, s, lists, image, table)?;
    request(s, lists, image, table, task, bytes, budget)
}

// The same, with all of its stores.
pub fn write(
    s: Session,
    lists: &mut [u64; LISTS],
    image: &mut [u8],
    table: &mut [i64],
    task: u64,
    bytes: &[u8],
) -> Result<(), Refusal>
    ensures value { answered result ≡ write_refusal (state_of Single s lists.old image.old table.old) (request_of task bytes.now) }
    ensures table_after { state_of Single s lists.new image.new table.new ≡ after_write (state_of Single s lists.old image.old table.old) (request_of task bytes.now) }
{
    write_within(s, lists, image, table, task, bytes, ENDLESS)
}

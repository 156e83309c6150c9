// One chunk of a loaded container: whether it may be read, its bytes as a part of the image, and the place of that part.
#![tactic(auto)]

ghost use Rattle.std.specs.Prelude.{◌≡◌, ◌+◌, ◌-◌, ◌*◌, ◌<◌, ◌≤◌, length, take, drop, not, pos, [], ◌∷◌, Ok, IfOk, MatchResult};
ghost use Rattle.endian.specs.Signed.{within};
ghost use Rattle.format.specs.Limits.{max_tasks};
ghost use Rattle.format.specs.Refusals.{test, first_failing, answered};
ghost use Rattle.format.specs.Answers.{part_of};
ghost use Rattle.format.specs.Record.{file_in, count_of};
ghost use Rattle.format.specs.declared.head.File.{File};
ghost use Rattle.format.specs.declared.head.File.TheVariants.{Single};
ghost use Rattle.format.specs.declared.loaded.Loaded.{Loaded};
ghost use Rattle.format.specs.declared.loaded.Place.{Place};
ghost use Rattle.format.specs.Reads.{container_of, read_tests, chunks_used, chunk_bytes, chunk_refusal, chunk_part, chunk_place, part_answer};
ghost use Rattle.format.specs.Passed.{Readable};

use format::head;
use format::head::{File, LISTS};
use format::loaded::{Loaded, Place};
use format::refusal::Refusal;
use layout::Layout;

// Tests 17, 18, 19 and 14, of the file that the call means.
pub fn test_read(
    file: File,
    l: Loaded,
    lists: &[u64; LISTS],
    image: &[u8],
    table: &[i64],
    task: u64,
) -> Result<(), Refusal>
    ensures { answered result ≡ first_failing (read_tests (container_of file l lists.now image.now table.now) task) }
{
    records::test_loaded(file, l, lists, image, table)?;
    if task < 1 || (l.head.n as u64) < task {
        return Err(Refusal::NoTask);
    }
    Ok(())
}

// Where the written bytes of a chunk that the tests allow lie in the image.
pub fn place_of(
    l: Loaded,
    lists: &[u64; LISTS],
    image: &[u8],
    table: &[i64],
    task: u64,
    chunk: u64,
) -> Place
    requires readable { Readable (container_of (file_in l.head) l lists.now image.now table.now) task }
    requires le_chunk { (1 ≤ chunk) × (chunk ≤ chunks_used (container_of (file_in l.head) l lists.now image.now table.now) task) }
    ensures value { part_of (Ok result) ≡ chunk_place (container_of (file_in l.head) l lists.now image.now table.now) task chunk }
    ensures length_in_bounds { result.start + result.length ≤ length image.now }
{
    let start = Layout::of(l.head, lists).chunk_start(task, chunk);
    let at = (chunk - 1) as usize * l.head.n as usize + (task - 1) as usize;
    let length = tables::written(table, at);
    Place { start, length }
}

fn bytes_at(image: &[u8], place: Place) -> &[u8]
    requires { place.start + place.length ≤ length image.now }
    ensures { result.now ≡ take place.length (drop place.start image.now) }
{
    let start = place.start as usize;
    &image[start..start + place.length as usize]
}

// These bytes themselves.
pub fn chunk_part<'a>(
    l: Loaded,
    lists: &[u64; LISTS],
    image: &'a [u8],
    table: &[i64],
    task: u64,
    chunk: u64,
) -> &'a [u8]
    requires readable { Readable (container_of (file_in l.head) l lists.now image.now table.now) task }
    requires le_chunk { (1 ≤ chunk) × (chunk ≤ chunks_used (container_of (file_in l.head) l lists.now image.now table.now) task) }
    ensures { result.now ≡ chunk_bytes (container_of (file_in l.head) l lists.now image.now table.now) task chunk }
{
    bytes_at(image, place_of(l, lists, image, table, task, chunk))
}

// Test 22: whether a task that is one uses this chunk.
pub fn test_used(lists: &[u64; LISTS], task: u64, chunk: u64) -> Result<(), Refusal>
    requires { (1 ≤ task) × (task ≤ max_tasks) }
    ensures { answered result ≡ first_failing (test 22 (not (within 1 (count_of lists.now (task - 1)) (pos chunk))) ∷ []) }
{
    let used = lists[head::COUNTS + (task - 1) as usize];
    if chunk < 1 || used < chunk {
        return Err(Refusal::NoChunk);
    }
    Ok(())
}

// Tests 17, 18, 19, 14 and 22 of a chunk.
pub fn test_chunk(
    l: Loaded,
    lists: &[u64; LISTS],
    image: &[u8],
    table: &[i64],
    task: u64,
    chunk: u64,
) -> Result<(), Refusal>
    ensures { answered result ≡ chunk_refusal (container_of Single l lists.now image.now table.now) task chunk }
{
    test_read(File::Single, l, lists, image, table, task)?;
    test_used(lists, task, chunk)
}

// Where the written bytes of one chunk lie in the image: for callers that cannot be handed a part of it.
pub fn part(
    l: Loaded,
    lists: &[u64; LISTS],
    image: &[u8],
    table: &[i64],
    task: u64,
    chunk: u64,
) -> Result<Place, Refusal>
    ensures value { part_of result ≡ part_answer (container_of Single l lists.now image.now table.now) task chunk }
    ensures length_in_bounds { IfOk result (λ place. place.start + place.length ≤ length image.now) }
{
    test_chunk(l, lists, image, table, task, chunk)?;
    Ok(place_of(l, lists, image, table, task, chunk))
}

// These bytes themselves, as a part of the image, or the refusal.
pub fn try_chunk<'a>(
    l: Loaded,
    lists: &[u64; LISTS],
    image: &'a [u8],
    table: &[i64],
    task: u64,
    chunk: u64,
) -> Result<&'a [u8], Refusal>
    ensures value { answered result ≡ chunk_refusal (container_of Single l lists.now image.now table.now) task chunk }
    ensures bytes { MatchResult result (λ part. part.now ≡ chunk_part (container_of Single l lists.now image.now table.now) task chunk) (λ _. [] ≡ chunk_part (container_of Single l lists.now image.now table.now) task chunk) }
{
    let place = part(l, lists, image, table, task, chunk)?;
    Ok(bytes_at(image, place))
}

// The same, and the empty part where it is refused: `test_chunk` says why.
pub fn chunk<'a>(
    l: Loaded,
    lists: &[u64; LISTS],
    image: &'a [u8],
    table: &[i64],
    task: u64,
    chunk: u64,
) -> &'a [u8]
    ensures { result.now ≡ chunk_part (container_of Single l lists.now image.now table.now) task chunk }
{
    match try_chunk(l, lists, image, table, task, chunk) {
        Ok(part) => part,
        Err(_) => &image[..0],
    }
}

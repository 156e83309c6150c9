// Reads of a loaded pair by global rank (W-204): one chunk as a part of whichever of the two images holds it, a task's total and the copying read. A
// parameter whose name ends in 0 or 1 is of that file.
#![tactic(auto)]

ghost use Rattle.std.specs.Prelude.{◌≡◌, cond, ◌+◌, ◌≤◌, eqb, length, [], IfOk, MatchResult};
ghost use Rattle.format.specs.declared.head.File.TheVariants.{First, Second};
ghost use Rattle.format.specs.declared.loaded.Loaded.{Loaded};
ghost use Rattle.format.specs.Refusals.{first_failing, answered};
ghost use Rattle.format.specs.Answers.{byte_count};
ghost use Rattle.format.specs.Record.{file_in};
ghost use Rattle.format.specs.Reads.{container_of};
ghost use Rattle.pairs.specs.Answers.{pair_part_of};
ghost use Rattle.pairs.specs.Reads.{loaded_pair, pair_read_tests, pair_chunk_refusal, pair_chunk, pair_part, pair_total, pair_read_answer, pair_read_output};
ghost use Rattle.pair_reads.specs.Found.{Found};

use format::head::LISTS;
use format::loaded::Loaded;
use format::refusal::Refusal;
use pairs::PairPlace;

// The file of a pair that has the task of a rank, by its number, and the task there, counted from 1.
#[derive(Clone, Copy)]
struct Carrier<'a> {
    file: u32,
    l: Loaded,
    lists: &'a [u64; LISTS],
    image: &'a [u8],
    table: &'a [i64],
    task: u64,
}

// Tests 17, 18 and 19 of both files, and 14.
fn carrier_of<'a>(
    l0: Loaded,
    lists0: &'a [u64; LISTS],
    image0: &'a [u8],
    table0: &'a [i64],
    l1: Loaded,
    lists1: &'a [u64; LISTS],
    image1: &'a [u8],
    table1: &'a [i64],
    rank: u64,
) -> Result<Carrier<'a>, Refusal>
    ensures value { answered result ≡ first_failing (pair_read_tests (loaded_pair (container_of First l0 lists0.now image0.now table0.now) (container_of Second l1 lists1.now image1.now table1.now)) rank) }
    ensures found { IfOk result (λ carrier. Found (loaded_pair (container_of First l0 lists0.now image0.now table0.now) (container_of Second l1 lists1.now image1.now table1.now)) rank carrier.file (container_of (file_in carrier.l.head) carrier.l carrier.lists.now carrier.image.now carrier.table.now) carrier.task) }
{
    pair_records::test_loaded(l0, lists0, image0, table0, l1, lists1, image1, table1)?;
    let task = ranks::task_of(lists0, l0.head.n, lists1, l1.head.n, rank).ok_or(Refusal::NoTask)?;
    let n = l0.head.n as u64;
    if n < task {
        return Ok(Carrier {
            file: 1,
            l: l1,
            lists: lists1,
            image: image1,
            table: table1,
            task: task - n,
        });
    }
    Ok(Carrier {
        file: 0,
        l: l0,
        lists: lists0,
        image: image0,
        table: table0,
        task,
    })
}

// Tests 17, 18 and 19 of both files, 14, and 22 of a chunk.
pub fn test_chunk(
    l0: Loaded,
    lists0: &[u64; LISTS],
    image0: &[u8],
    table0: &[i64],
    l1: Loaded,
    lists1: &[u64; LISTS],
    image1: &[u8],
    table1: &[i64],
    rank: u64,
    chunk: u64,
) -> Result<(), Refusal>
    ensures { answered result ≡ pair_chunk_refusal (loaded_pair (container_of First l0 lists0.now image0.now table0.now) (container_of Second l1 lists1.now image1.now table1.now)) rank chunk }
{
    let c = carrier_of(l0, lists0, image0, table0, l1, lists1, image1, table1, rank)?;
    chunks::test_used(c.lists, c.task, chunk)
}

// Where the written bytes of one chunk lie, in which of the two images: for callers that cannot be handed a part of it.
pub fn part(
    l0: Loaded,
    lists0: &[u64; LISTS],
    image0: &[u8],
    table0: &[i64],
    l1: Loaded,
    lists1: &[u64; LISTS],
    image1: &[u8],
    table1: &[i64],
    rank: u64,
    chunk: u64,
) -> Result<PairPlace, Refusal>
    ensures value { pair_part_of result ≡ pair_part (loaded_pair (container_of First l0 lists0.now image0.now table0.now) (container_of Second l1 lists1.now image1.now table1.now)) rank chunk }
    ensures length_in_bounds { IfOk result (λ place. place.start + place.length ≤ length (cond (eqb place.file 0) image0.now image1.now)) }
{
    let c = carrier_of(l0, lists0, image0, table0, l1, lists1, image1, table1, rank)?;
    chunks::test_used(c.lists, c.task, chunk)?;
    let place = chunks::place_of(c.l, c.lists, c.image, c.table, c.task, chunk);
    Ok(PairPlace {
        file: c.file,
        start: place.start,
        length: place.length,
    })
}

// These bytes themselves, as a part of the image that holds them, or the refusal.
pub fn try_chunk<'a>(
    l0: Loaded,
    lists0: &[u64; LISTS],
    image0: &'a [u8],
    table0: &[i64],
    l1: Loaded,
    lists1: &[u64; LISTS],
    image1: &'a [u8],
    table1: &[i64],
    rank: u64,
    chunk: u64,
) -> Result<&'a [u8], Refusal>
    ensures value { answered result ≡ pair_chunk_refusal (loaded_pair (container_of First l0 lists0.now image0.now table0.now) (container_of Second l1 lists1.now image1.now table1.now)) rank chunk }
    ensures bytes { MatchResult result (λ part. part.now ≡ pair_chunk (loaded_pair (container_of First l0 lists0.now image0.now table0.now) (container_of Second l1 lists1.now image1.now table1.now)) rank chunk) (λ _. [] ≡ pair_chunk (loaded_pair (container_of First l0 lists0.now image0.now table0.now) (container_of Second l1 lists1.now image1.now table1.now)) rank chunk) }
{
    let place = part(
        l0, lists0, image0, table0, l1, lists1, image1, table1, rank, chunk,
    )?;
    let image = if place.file == 0 { image0 } else { image1 };
    let start = place.start as usize;
    Ok(&image[start..start + place.length as usize])
}

// The same, and file 0's empty part where it is refused: `test_chunk` says why.
pub fn chunk<'a>(
    l0: Loaded,
    lists0: &[u64; LISTS],
    image0: &'a [u8],
    table0: &[i64],
    l1: Loaded,
    lists1: &[u64; LISTS],
    image1: &'a [u8],
    table1: &[i64],
    rank: u64,
    chunk: u64,
) -> &'a [u8]
    ensures { result.now ≡ pair_chunk (loaded_pair (container_of First l0 lists0.now image0.now table0.now) (container_of Second l1 lists1.now image1.now table1.now)) rank chunk }
{
    match try_chunk(
        l0, lists0, image0, table0, l1, lists1, image1, table1, rank, chunk,
    ) {
        Ok(part) => part,
        Err(_) => &image0[..0],
    }
}

// A task's bytes over all its chunks.
pub fn total(
    l0: Loaded,
    lists0: &[u64; LISTS],
    image0: &[u8],
    table0: &[i64],
    l1: Loaded,
    lists1: &[u64; LISTS],
    image1: &[u8],
    table1: &[i64],
    rank: u64,
) -> Result<u64, Refusal>
    ensures { byte_count result ≡ pair_total (loaded_pair (container_of First l0 lists0.now image0.now table0.now) (container_of Second l1 lists1.now image1.now table1.now)) rank }
{
    let c = carrier_of(l0, lists0, image0, table0, l1, lists1, image1, table1, rank)?;
    Ok(reads::total_of(c.l, c.lists, c.image, c.table, c.task))
}

// A task's stream from the place p on, copied into out across chunks: the bytes copied.
pub fn read(
    l0: Loaded,
    lists0: &[u64; LISTS],
    image0: &[u8],
    table0: &[i64],
    l1: Loaded,
    lists1: &[u64; LISTS],
    image1: &[u8],
    table1: &[i64],
    rank: u64,
    p: u64,
    out: &mut [u8],
) -> Result<usize, Refusal>
    ensures value { byte_count result ≡ pair_read_answer (loaded_pair (container_of First l0 lists0.now image0.now table0.now) (container_of Second l1 lists1.now image1.now table1.now)) rank p out.old }
    ensures out_after { out.new ≡ pair_read_output (loaded_pair (container_of First l0 lists0.now image0.now table0.now) (container_of Second l1 lists1.now image1.now table1.now)) rank p out.old }
    ensures in_bounds { IfOk result (λ copied. copied ≤ length out.old) }
{
    let c = carrier_of(l0, lists0, image0, table0, l1, lists1, image1, table1, rank)?;
    if reads::total_of(c.l, c.lists, c.image, c.table, c.task) < p {
        return Err(Refusal::PastTotal);
    }
    Ok(reads::copy_stream(c.l, c.lists, c.image, c.table, c.task, p, out))
}

// The copying read of a task's stream, and its total, over the chunks that `chunks` hands back.
#![tactic(auto)]

ghost use Rattle.std.specs.Prelude.{◌≡◌, ◌+◌, ◌-◌, ◌<◌, ◌≤◌, min, length, take, drop, IfOk};
ghost use Rattle.lists.specs.Splice.{splice};
ghost use Rattle.format.specs.declared.head.File.TheVariants.{Single};
ghost use Rattle.format.specs.Record.{file_in};
ghost use Rattle.format.specs.declared.loaded.Loaded.{Loaded};
ghost use Rattle.format.specs.Answers.{byte_count};
ghost use Rattle.format.specs.Reads.{container_of, stream_of, total_of, total_answer, read_answer, read_output};
ghost use Rattle.format.specs.Passed.{Readable};

use format::head;
use format::head::{File, LISTS};
use format::loaded::Loaded;
use format::refusal::Refusal;
use stores::memory;

// The bytes of a task that the tests allow, over all its chunks.
pub fn total_of(l: Loaded, lists: &[u64; LISTS], image: &[u8], table: &[i64], task: u64) -> u64
    requires { Readable (container_of (file_in l.head) l lists.now image.now table.now) task }
    ensures { result ≡ total_of (container_of (file_in l.head) l lists.now image.now table.now) task }
{
    let n = l.head.n as usize;
    let i = (task - 1) as usize;
    let count = lists[head::COUNTS + i];
    let mut sum = 0;
    for k in 0..count {
        sum += tables::written(table, k as usize * n + i);
    }
    sum
}

// A task's bytes over all its chunks.
pub fn total(
    l: Loaded,
    lists: &[u64; LISTS],
    image: &[u8],
    table: &[i64],
    task: u64,
) -> Result<u64, Refusal>
    ensures { byte_count result ≡ total_answer (container_of Single l lists.now image.now table.now) task }
{
    chunks::test_read(File::Single, l, lists, image, table, task)?;
    Ok(total_of(l, lists, image, table, task))
}

// Copies `part[skip..]` to `out[done..]`, as far as both go, and returns the new `done`.
fn copy_chunk(part: &[u8], skip: u64, out: &mut [u8], done: usize) -> usize
    requires { done ≤ length out.old }
    ensures out_after { out.new ≡ splice out.old done (take (length out.old - done) (drop skip part.now)) }
    ensures value { result ≡ done + min (length out.old - done) (length part.now - skip) }
{
    if part.len() as u64 <= skip {
        return done;
    }
    let rest = &part[skip as usize..];
    let room = out.len() - done;
    let copied = room.min(rest.len());
    memory::copy_in(&mut out[done..], &rest[..copied]);
    done + copied
}

// The stream of a task that the tests allow, from p on, into out, chunk by chunk until out is full: the bytes copied.
pub fn copy_stream(
    l: Loaded,
    lists: &[u64; LISTS],
    image: &[u8],
    table: &[i64],
    task: u64,
    p: u64,
    out: &mut [u8],
) -> usize
    requires { Readable (container_of (file_in l.head) l lists.now image.now table.now) task }
    ensures out_after { out.new ≡ splice out.old 0 (take (length out.old) (drop p (stream_of (container_of (file_in l.head) l lists.now image.now table.now) task))) }
    ensures value { result ≡ min (length out.old) (total_of (container_of (file_in l.head) l lists.now image.now table.now) task - p) }
{
    let i = (task - 1) as usize;
    let count = lists[head::COUNTS + i];
    let mut skip = p;
    let mut done = 0;
    for k in 0..count {
        if out.len() <= done {
            return done;
        }
        let part = chunks::chunk_part(l, lists, image, table, task, k + 1);
        done = copy_chunk(part, skip, out, done);
        skip = skip.saturating_sub(part.len() as u64);
    }
    done
}

// A task's stream from the place p on, copied into out across chunks: the bytes copied.
pub fn read(
    l: Loaded,
    lists: &[u64; LISTS],
    image: &[u8],
    table: &[i64],
    task: u64,
    p: u64,
    out: &mut [u8],
) -> Result<usize, Refusal>
    ensures value { byte_count result ≡ read_answer (container_of Single l lists.now image.now table.now) task p out.old }
    ensures out_after { out.new ≡ read_output (container_of Single l lists.now image.now table.now) task p out.old }
    ensures in_bounds { IfOk result (λ copied. copied ≤ length out.old) }
{
    chunks::test_read(File::Single, l, lists, image, table, task)?;
    if total_of(l, lists, image, table, task) < p {
        return Err(Refusal::PastTotal);
    }
    Ok(copy_stream(l, lists, image, table, task, p, out))
}

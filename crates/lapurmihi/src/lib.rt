// The container's entries for C and Rust, with their own promises. The header is include/lapurmihi.h. A record is its numbers by value and its
// lists as one lent array; a function whose name ends in `_lent` takes it so. A pair's entries are the crate `lapurmihi_pair`, in the same library.
#![tactic(auto)]

ghost use Rattle.std.specs.Prelude.{◌≡◌, ◌+◌, ◌≤◌, length};
ghost use Rattle.format.specs.declared.head.File.TheVariants.{Single};
ghost use Rattle.format.specs.declared.session.Session.{Session};
ghost use Rattle.format.specs.declared.session.Plan.{Plan};
ghost use Rattle.format.specs.declared.session.Needed.{Needed};
ghost use Rattle.format.specs.declared.session.Opened.{Opened};
ghost use Rattle.format.specs.declared.session.Closed.{Closed};
ghost use Rattle.format.specs.Session.{state_of};
ghost use Rattle.format.specs.Open.{opening_of, needs_answer, open_answer, open_image, open_table};
ghost use Rattle.format.specs.Write.{request_of, write_refusal, after_write};
ghost use Rattle.format.specs.Close.{close_answer, close_image};
ghost use Rattle.format.specs.declared.loaded.Loaded.{Loaded};
ghost use Rattle.format.specs.declared.loaded.LoadAnswer.{LoadAnswer};
ghost use Rattle.format.specs.declared.loaded.Part.{Part};
ghost use Rattle.format.specs.declared.loaded.ByteCount.{ByteCount};
ghost use Rattle.format.specs.Load.{load_answer, load_table};
ghost use Rattle.format.specs.About.{chunk_size_answer, length_answer, prefix_answer};
ghost use Rattle.format.specs.Reads.{container_of, part_answer, total_answer, read_answer, read_output};

use format::head::LISTS;
use format::loaded::{ByteCount, LoadAnswer, Loaded, Part};
use format::refusal;
use format::session::{Closed, Needed, Opened, Plan, Session};

// The library's version: 10,000 times the first number, 100 times the second, and the third.
pub const VERSION: u32 = 500;

#[unsafe(no_mangle)]
pub extern "C" fn lapur_version() -> u32
    ensures { result ≡ 500 }
{
    VERSION
}

#[unsafe(no_mangle)]
pub extern "C" fn lapur_chunk_size(size: u64, blocksize: u32) -> ByteCount
    ensures { result ≡ chunk_size_answer size blocksize }
{
    ByteCount::from(container::chunk_size(size, blocksize))
}

#[unsafe(no_mangle)]
pub extern "C" fn lapur_needs(plan: Plan, ranks: &[u64], sizes: &[u64], prefix: &[u8]) -> Needed
    ensures { result ≡ needs_answer (opening_of Single plan ranks.now sizes.now prefix.now) }
{
    Needed::from(container::needs(plan, ranks, sizes, prefix))
}

#[unsafe(no_mangle)]
pub extern "C" fn lapur_open(
    plan: Plan,
    ranks: &[u64],
    sizes: &[u64],
    prefix: &[u8],
    image: &mut [u8],
    table: &mut [i64],
) -> Opened
    ensures value { result ≡ open_answer (opening_of Single plan ranks.now sizes.now prefix.now) image.old table.old }
    ensures image_after { image.new ≡ open_image (opening_of Single plan ranks.now sizes.now prefix.now) image.old table.old }
    ensures table_after { table.new ≡ open_table (opening_of Single plan ranks.now sizes.now prefix.now) image.old table.old }
{
    container::open(plan, ranks, sizes, prefix, image, table)
}

#[unsafe(no_mangle)]
pub extern "C" fn lapur_write_lent(
    s: Session,
    lists: &mut [u64; LISTS],
    image: &mut [u8],
    table: &mut [i64],
    task: u64,
    bytes: &[u8],
) -> u32
    ensures value { result ≡ write_refusal (state_of Single s lists.old image.old table.old) (request_of task bytes.now) }
    ensures table_after { state_of Single s lists.new image.new table.new ≡ after_write (state_of Single s lists.old image.old table.old) (request_of task bytes.now) }
{
    refusal::answered(container::write(s, lists, image, table, task, bytes))
}

#[unsafe(no_mangle)]
pub extern "C" fn lapur_close_lent(
    s: Session,
    lists: &[u64; LISTS],
    image: &mut [u8],
    table: &[i64],
) -> Closed
    ensures value { result ≡ close_answer (state_of Single s lists.now image.old table.now) }
    ensures image_after { image.new ≡ close_image (state_of Single s lists.now image.old table.now) }
{
    Closed::of(s, container::close(s, lists, image, table))
}

#[unsafe(no_mangle)]
pub extern "C" fn lapur_load(image: &[u8], table: &mut [i64]) -> LoadAnswer
    ensures value { result ≡ load_answer Single image.now table.old }
    ensures table_after { table.new ≡ load_table Single image.now table.old }
{
    container::load(image, table)
}

#[unsafe(no_mangle)]
pub extern "C" fn lapur_chunk_lent(
    l: Loaded,
    lists: &[u64; LISTS],
    image: &[u8],
    table: &[i64],
    task: u64,
    chunk: u64,
) -> Part
    ensures value { result ≡ part_answer (container_of Single l lists.now image.now table.now) task chunk }
    ensures length_in_bounds { result.start + result.length ≤ length image.now }
{
    Part::from(container::part(l, lists, image, table, task, chunk))
}

#[unsafe(no_mangle)]
pub extern "C" fn lapur_total_lent(
    l: Loaded,
    lists: &[u64; LISTS],
    image: &[u8],
    table: &[i64],
    task: u64,
) -> ByteCount
    ensures { result ≡ total_answer (container_of Single l lists.now image.now table.now) task }
{
    ByteCount::from(container::total(l, lists, image, table, task))
}

#[unsafe(no_mangle)]
pub extern "C" fn lapur_read_lent(
    l: Loaded,
    lists: &[u64; LISTS],
    image: &[u8],
    table: &[i64],
    task: u64,
    p: u64,
    out: &mut [u8],
) -> ByteCount
    ensures value { result ≡ read_answer (container_of Single l lists.now image.now table.now) task p out.old }
    ensures out_after { out.new ≡ read_output (container_of Single l lists.now image.now table.now) task p out.old }
{
    let copied = container::read(l, lists, image, table, task, p, out);
    ByteCount::from(copied.map(|bytes| bytes as u64))
}

#[unsafe(no_mangle)]
pub extern "C" fn lapur_length_lent(
    l: Loaded,
    lists: &[u64; LISTS],
    image: &[u8],
    table: &[i64],
) -> ByteCount
    ensures { result ≡ length_answer (container_of Single l lists.now image.now table.now) }
{
    ByteCount::from(container::whole_length(l, lists, image, table))
}

#[unsafe(no_mangle)]
pub extern "C" fn lapur_prefix_lent(
    l: Loaded,
    lists: &[u64; LISTS],
    image: &[u8],
    table: &[i64],
) -> Part
    ensures value { result ≡ prefix_answer (container_of Single l lists.now image.now table.now) }
    ensures length_in_bounds { result.start + result.length ≤ length image.now }
{
    Part::from(container::prefix(l, lists, image, table))
}

// What a chunk holds; and a loaded container as a whole: its length in the image, and its filename prefix.
#![tactic(auto)]

ghost use Rattle.std.specs.Prelude.{◌≡◌, ◌+◌, ◌≤◌, pos, length, IfOk};
ghost use Rattle.endian.specs.Signed.{within};
ghost use Rattle.format.specs.declared.head.File.TheVariants.{Single};
ghost use Rattle.format.specs.declared.loaded.Loaded.{Loaded};
ghost use Rattle.format.specs.Limits.{max_size};
ghost use Rattle.format.specs.Reads.{container_of};
ghost use Rattle.format.specs.Answers.{byte_count, part_of};
ghost use Rattle.format.specs.About.{chunk_size_answer, before_zero, length_answer, prefix_answer};

use format::head::{File, LISTS};
use format::loaded::{Loaded, Place};
use format::refusal::Refusal;
use format::{field, limit};
use layout::Layout;
use rules::limits;

fn size_ok(size: u64) -> bool
    ensures { result ≡ within 1 max_size (pos size) }
{
    (1..=limit::MAX_SIZE).contains(&size)
}

// What a chunk of a task with this requested size holds.
pub fn chunk_size(size: u64, blocksize: u32) -> Result<u64, Refusal>
    ensures { byte_count result ≡ chunk_size_answer size blocksize }
{
    if !limits::blocksize_ok(blocksize) {
        return Err(Refusal::BadBlocksize);
    }
    if !size_ok(size) {
        return Err(Refusal::BadSize);
    }
    Ok(layout::chunk_holds(size, blocksize))
}

// The bytes of the container, up to the end of META2.
pub fn whole_length(
    l: Loaded,
    lists: &[u64; LISTS],
    image: &[u8],
    table: &[i64],
) -> Result<u64, Refusal>
    ensures { byte_count result ≡ length_answer (container_of Single l lists.now image.now table.now) }
{
    records::test_loaded(File::Single, l, lists, image, table)?;
    Ok(Layout::of(l.head, lists).meta2_end(l.maxchunks))
}

// How many bytes come before the first zero; all of them, where none is zero.
fn before_zero(bytes: &[u8]) -> usize
    ensures value { result ≡ before_zero bytes.now }
    ensures upper_bound { result ≤ length bytes.now }
{
    bytes
        .iter()
        .position(|byte| *byte == 0)
        .unwrap_or(bytes.len())
}

// Where the filename prefix lies in the image, without the zeros that follow it.
pub fn prefix(
    l: Loaded,
    lists: &[u64; LISTS],
    image: &[u8],
    table: &[i64],
) -> Result<Place, Refusal>
    ensures value { part_of result ≡ prefix_answer (container_of Single l lists.now image.now table.now) }
    ensures length_in_bounds { IfOk result (λ place. place.start + place.length ≤ length image.now) }
{
    records::test_loaded(File::Single, l, lists, image, table)?;
    let end = field::PREFIX_AT + field::PREFIX;
    let length = before_zero(&image[field::PREFIX_AT..end]) as u64;
    Ok(Place {
        start: field::PREFIX_AT as u64,
        length,
    })
}

// Loading: a container judged whole, its record handed back and its values put into the table.
#![tactic(auto)]

ghost use Rattle.std.specs.Prelude.{◌≡◌, IfOk, OnOk, OnErr};
ghost use Rattle.lists.specs.Splice.{splice};
ghost use Rattle.format.specs.declared.head.File.TheVariants.{Single};
ghost use Rattle.format.specs.Meta2.{meta2_part};
ghost use Rattle.format.specs.Record.{size_of, no_lists, meta2_at};
ghost use Rattle.format.specs.Judge.{values_in};
ghost use Rattle.format.specs.Refusals.{judged, verdict};
ghost use Rattle.format.specs.Load.{loaded_in, lists_in, load_tests, load_answer, load_table};
ghost use Rattle.format.specs.Passed.{Meta2Fits};

use endian::read;
use format::fault::{Broken, Fault, Field};
use format::head::{File, Head, LISTS};
use format::loaded::{LoadAnswer, Loaded};
use format::refusal::Refusal;
use layout::Layout;

// The same as `judge`, into lists of zeros; a refusal leaves in them what was read.
fn judge_into(
    file: File,
    image: &[u8],
    cells: usize,
    lists: &mut [u64; LISTS],
) -> Result<Loaded, Broken>
    requires { lists.old ≡ no_lists }
    ensures verdict { judged result ≡ verdict (load_tests file image.now cells) }
    ensures loaded { IfOk result (λ loaded. loaded ≡ loaded_in image.now) }
    ensures lists_after { OnOk result (lists.new ≡ lists_in image.now) }
{
    let len = image.len() as u64;
    let head = front::judge_fixed(file, image, len)?;
    let last = meta1::judge_lists(image, len, head, lists)?;
    let maxchunks = last.maxchunks;
    let (cells, needed) = (cells as u64, head.n as u64 * maxchunks as u64);
    if cells < needed {
        return Err(faults::not_as_needed(Refusal::TooShort, Field::Table, 0, cells, needed));
    }
    let start = last.start as usize;
    let end = start + layout::meta2_length(head.n, maxchunks) as usize;
    meta2::judge(&image[start..end], last.start, head, maxchunks, lists)?;
    Ok(Loaded {
        head,
        maxchunks,
        closed: 0,
    })
}

// An image judged as the file that the call means, tests 1 to 12, 18 and 13 in the order of document 01, for a table of so many cells, which is not
// touched. Where they pass, the record is handed back, and the lent lists are its lists; refused, they are zeros.
pub fn judge(
    file: File,
    image: &[u8],
    cells: usize,
    lists: &mut [u64; LISTS],
) -> Result<Loaded, Broken>
    ensures verdict { judged result ≡ verdict (load_tests file image.now cells) }
    ensures loaded { IfOk result (λ loaded. loaded ≡ loaded_in image.now) }
    ensures accepted { OnOk result (lists.new ≡ lists_in image.now) }
    ensures refused { OnErr result (lists.new ≡ no_lists) }
{
    lists.fill(0);
    let answer = judge_into(file, image, cells, lists);
    if answer.is_err() {
        lists.fill(0);
    }
    answer
}

// The values of a container that passed its tests, into the table's start.
pub fn fill(image: &[u8], loaded: Loaded, lists: &[u64; LISTS], table: &mut [i64])
    requires { Meta2Fits loaded.head lists.now loaded.maxchunks image.now table.old }
    ensures { table.new ≡ splice table.old 0 (values_in loaded.head loaded.maxchunks
        (meta2_part image.now (meta2_at loaded.head (size_of lists.now) loaded.maxchunks) loaded.head.n loaded.maxchunks)) }
{
    let h = loaded.head;
    let start = Layout::of(h, lists).meta2_start(loaded.maxchunks) as usize;
    let end = start + layout::meta2_length(h.n, loaded.maxchunks) as usize;
    let n = h.n as usize;
    let cells = &mut table[..n * loaded.maxchunks as usize];
    read::fill(cells, &image[start..end], 8 * n, h.order == 1);
}

// Judges an image. Accepted, the record is handed back and the first n times maxchunks cells are filled; refused, what is broken is, beside a record
// of zeros marked closed.
pub fn load(image: &[u8], table: &mut [i64]) -> LoadAnswer
    ensures value { result ≡ load_answer Single image.now table.old }
    ensures table_after { table.new ≡ load_table Single image.now table.old }
{
    let mut lists = [0; LISTS];
    match judge(File::Single, image, table.len(), &mut lists) {
        Ok(loaded) => {
            fill(image, loaded, &lists, table);
            LoadAnswer {
                loaded,
                lists,
                refusal: 0,
                fault: Fault::default(),
            }
        }
        Err(broken) => LoadAnswer {
            loaded: Loaded {
                head: Head::default(),
                maxchunks: 0,
                closed: 1,
            },
            lists: [0; LISTS],
            refusal: broken.refusal.number(),
            fault: broken.fault,
        },
    }
}

// Opening a session: its tests, its record, and what it stores into the image and the table.
#![tactic(auto)]

ghost use Rattle.std.specs.Prelude.{◌≡◌, ◌+◌, ◌-◌, ◌*◌, ◌≤◌, length};
ghost use Rattle.lists.specs.Splice.{splice};
ghost use Rattle.format.specs.Limits.{max_tasks, max_blocks};
ghost use Rattle.format.specs.Refusals.{first_failing, number_of, answered};
ghost use Rattle.format.specs.Record.{entry, lists_of, with_counts, no_lists};
ghost use Rattle.format.specs.declared.head.File.{File};
ghost use Rattle.format.specs.declared.head.File.TheVariants.{Single};
ghost use Rattle.format.specs.declared.session.Plan.{Plan};
ghost use Rattle.format.specs.Answers.{needed_of};
ghost use Rattle.format.specs.declared.session.Opened.{Opened};
ghost use Rattle.format.specs.Session.{no_session};
ghost use Rattle.format.specs.Open.{opening_of, shape_tests, blank_cells, number_tests, needs_answer, open_refusal, open_answer, open_image, open_found, open_table};

use format::head::{File, Head, LISTS};
use format::limit::MAX_TASKS;
use format::refusal::Refusal;
use format::session::{Opened, Plan, Room, Session};
use format::{field, head, limit};
use layout::Layout;
use rules::{heads, limits};

// A refusal beside a record of zeros marked closed.
fn no_session(refusal: Refusal) -> Opened
    ensures { result ≡ record { session = no_session; lists = no_lists; refusal = number_of refusal } }
{
    let head = heads::no_head();
    let lists = [0; LISTS];
    Opened {
        session: Session {
            head,
            planned: 0,
            closed: 1,
        },
        lists,
        refusal: refusal.number(),
    }
}

// Tests 2, 4, 5, 6 and 21.
fn test_shape(
    order: u32,
    format: u32,
    blocksize: u32,
    ranks: usize,
    sizes: usize,
    prefix: usize,
) -> Result<(), Refusal>
    ensures { answered result ≡ first_failing (shape_tests order format blocksize ranks sizes prefix) }
{
    if 1 < order {
        return Err(Refusal::NoOrder);
    }
    if !limits::format_ok(format) {
        return Err(Refusal::BadFormat);
    }
    if !limits::blocksize_ok(blocksize) {
        return Err(Refusal::BadBlocksize);
    }
    if ranks < 1 {
        return Err(Refusal::BadTasks);
    }
    if MAX_TASKS < ranks {
        return Err(Refusal::BadTasks);
    }
    if ranks != sizes {
        return Err(Refusal::BadTasks);
    }
    if field::PREFIX < prefix {
        return Err(Refusal::LongPrefix);
    }
    Ok(())
}

// Tests 8, 9 and 20.
fn test_numbers(ranks: &[u64], sizes: &[u64], planned: u32) -> Result<(), Refusal>
    requires { length sizes.now ≡ length ranks.now }
    ensures { answered result ≡ first_failing (number_tests ranks.now sizes.now planned) }
{
    if !limits::ranks_ok(ranks) {
        return Err(Refusal::BadRank);
    }
    if !limits::sizes_ok(sizes) {
        return Err(Refusal::BadSize);
    }
    if !limits::planned_ok(planned) {
        return Err(Refusal::BadPlanned);
    }
    Ok(())
}

// The lengths that an opening requires of image and table, or the refusal of its plan: tests 2, 4, 5, 6, 21, 8, 9 and 20, in this order.
pub fn needs(plan: Plan, ranks: &[u64], sizes: &[u64], prefix: &[u8]) -> Result<Room, Refusal>
    ensures { needed_of result ≡ needs_answer (opening_of Single plan ranks.now sizes.now prefix.now) }
{
    test_shape(
        plan.order,
        plan.format,
        plan.blocksize,
        ranks.len(),
        sizes.len(),
        prefix.len(),
    )?;
    test_numbers(ranks, sizes, plan.planned)?;
    let n = ranks.len() as u32;
    let layout = Layout {
        n,
        blocksize: plan.blocksize,
        sizes,
    };
    Ok(Room {
        image: layout.meta2_end(plan.planned),
        cells: n as u64 * plan.planned as u64,
    })
}

// The plan's tests, then 18.
fn test_opening(
    plan: Plan,
    ranks: &[u64],
    sizes: &[u64],
    prefix: &[u8],
    image: u64,
    cells: u64,
) -> Result<(), Refusal>
    ensures { answered result ≡ open_refusal (opening_of Single plan ranks.now sizes.now prefix.now) image cells }
{
    let room = needs(plan, ranks, sizes, prefix)?;
    if image < room.image {
        return Err(Refusal::TooShort);
    }
    if cells < room.cells {
        return Err(Refusal::TooShort);
    }
    Ok(())
}

// The numbers into a stripe that is as long. The loop is not `copy_from_slice`, which wants `memmove` of those that link the library.
fn put_stripe(stripe: &mut [u64], numbers: &[u64])
    requires { length stripe.old ≡ length numbers.now }
    ensures { stripe.new ≡ numbers.now }
{
    for (i, number) in numbers.iter().enumerate() {
        stripe[i] = *number;
    }
}

// The ranks and the sizes of the tasks into the lists, and for each task the same count.
fn put_lists(lists: &mut [u64; LISTS], ranks: &[u64], sizes: &[u64], count: u64)
    requires { (length ranks.now ≤ max_tasks) × (length sizes.now ≡ length ranks.now) }
    ensures { lists.new ≡ with_counts (splice (splice lists.old 0 ranks.now) max_tasks sizes.now) (length ranks.now) (λ i. count) }
{
    let n = ranks.len();
    put_stripe(&mut lists[..n], ranks);
    put_stripe(&mut lists[head::SIZES..head::SIZES + n], sizes);
    lists[head::COUNTS..head::COUNTS + n].fill(count);
}

// The lists of a session whose tasks have each begun so many chunks.
fn lists_of(ranks: &[u64], sizes: &[u64], begun: u64) -> [u64; LISTS]
    requires { (length ranks.now ≤ max_tasks) × (length sizes.now ≡ length ranks.now) }
    ensures { result ≡ lists_of (length ranks.now) (entry ranks.now) (entry sizes.now) (λ i. begun) }
{
    let mut lists = [0; LISTS];
    put_lists(&mut lists, ranks, sizes, begun);
    lists
}

// The cells of a session whose n tasks have each begun so many chunks and written nothing: 0 for these chunks, -1 for the others.
fn blank(table: &mut [i64], n: usize, begun: usize, planned: usize)
    requires { (n ≤ max_tasks) × (begun ≤ planned) × (planned ≤ max_blocks) × (n * planned ≤ length table.old) }
    ensures { table.new ≡ splice table.old 0 (blank_cells begun n planned) }
{
    let used = n * begun;
    table[..used].fill(0);
    table[used..n * planned].fill(-1);
}

// An opening whose tests passed, of the file that the call means: META1 and zeros up to D into the image; -1 into the first cells, and in version 4 a
// 0 for the first chunk of each task. Of the byte stores into the image only the first `budget` are made.
pub fn begin(
    file: File,
    plan: Plan,
    ranks: &[u64],
    sizes: &[u64],
    prefix: &[u8],
    image: &mut [u8],
    table: &mut [i64],
    budget: u64,
) -> Opened
    requires { open_refusal (opening_of file plan ranks.now sizes.now prefix.now) (length image.old) (length table.old) ≡ 0 }
    ensures value { result ≡ open_answer (opening_of file plan ranks.now sizes.now prefix.now) image.old table.old }
    ensures image_after { image.new ≡ open_found (opening_of file plan ranks.now sizes.now prefix.now) image.old table.old budget }
    ensures table_after { table.new ≡ open_table (opening_of file plan ranks.now sizes.now prefix.now) image.old table.old }
{
    let head = Head {
        order: plan.order,
        version: plan.version,
        patch: plan.patch,
        format: plan.format,
        blocksize: plan.blocksize,
        n: ranks.len() as u32,
        files: files::files_of(file),
        file: files::number_of(file),
    };
    let begun = limits::least_count(plan.format);
    let lists = lists_of(ranks, sizes, begun);
    emit::meta1(image, head, &lists, prefix, budget);
    blank(table, ranks.len(), begun as usize, plan.planned as usize);
    Opened {
        session: Session {
            head,
            planned: plan.planned,
            closed: 0,
        },
        lists,
        refusal: 0,
    }
}

// Opens a session of as many tasks as there are ranks. Tests 2, 4, 5, 6, 21, 8, 9, 20 and 18, in this order. Of the byte stores into the image only
// the first `budget` are made.
pub fn open_within(
    plan: Plan,
    ranks: &[u64],
    sizes: &[u64],
    prefix: &[u8],
    image: &mut [u8],
    table: &mut [i64],
    budget: u64,
) -> Opened
    ensures value { result ≡ open_answer (opening_of Single plan ranks.now sizes.now prefix.now) image.old table.old }
    ensures image_after { image.new ≡ open_found (opening_of Single plan ranks.now sizes.now prefix.now) image.old table.old budget }
    ensures table_after { table.new ≡ open_table (opening_of Single plan ranks.now sizes.now prefix.now) image.old table.old }
{
    if let Err(refusal) = test_opening(
        plan,
        ranks,
        sizes,
        prefix,
        image.len() as u64,
        table.len() as u64,
    ) {
        return no_session(refusal);
    }
    begin(
        File::Single,
        plan,
        ranks,
        sizes,
        prefix,
        image,
        table,
        budget,
    )
}

// The same, with all of its stores.
pub fn open(
    plan: Plan,
    ranks: &[u64],
    sizes: &[u64],
    prefix: &[u8],
    image: &mut [u8],
    table: &mut [i64],
) -> Opened
    ensures value { result ≡ open_answer (opening_of Single plan ranks.now sizes.now prefix.now) image.old table.old }
    ensures image_after { image.new ≡ open_image (opening_of Single plan ranks.now sizes.now prefix.now) image.old table.old }
    ensures table_after { table.new ≡ open_table (opening_of Single plan ranks.now sizes.now prefix.now) image.old table.old }
{
    open_within(plan, ranks, sizes, prefix, image, table, limit::ENDLESS)
}

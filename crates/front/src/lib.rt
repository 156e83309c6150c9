// META1's fields that stand in every container at the same place, judged from an image's first bytes and the image's whole length: tests 1 to 7, and
// both of 3.
#![tactic(auto)]

ghost use Rattle.std.specs.Prelude.{◌≡◌, false, ◌+◌, ◌<◌, ◌≤◌, ◌^◌, ◌∷◌, [], length, IfOk};
ghost use Rattle.endian.specs.Signed.{signed_at};
ghost use Rattle.format.specs.Meta1.{fixed_length};
ghost use Rattle.format.specs.Refusals.{judged, kind_of, verdict};
ghost use Rattle.format.specs.Judge.{is, big_in, head_in, start_tests, field_tests, fixed_tests};
ghost use Rattle.front.specs.Judging.{Covers, order_test, value_test};

use endian::read;
use format::fault::{Broken, Field};
use format::head::{File, Head};
use format::refusal::Refusal;
use format::{field, limit};
use rules::limits;

// Whether the field of 4 bytes has this value.
fn field_is(xs: &[u8], at: usize, big: bool, value: u32) -> bool
    requires { (at + 4 ≤ length xs.now) × (value < 2 ^ 31) }
    ensures { result ≡ is value (signed_at big 4 xs.now at) }
{
    read::get::<u32>(xs, at, big).value == value
}

// Test 2: the order number is 1 in one of the two byte orders; whether that is the big one is handed back.
fn judge_order(xs: &[u8], len: u64) -> Result<bool, Broken>
    requires { Covers len xs.now }
    ensures verdict { judged result ≡ verdict (order_test xs.now len ∷ []) }
    ensures order { IfOk result (λ big. big ≡ big_in xs.now) }
{
    if 8 <= len {
        if field_is(xs, field::ORDER_AT, true, field::ORDER) {
            return Ok(true);
        }
        if field_is(xs, field::ORDER_AT, false, field::ORDER) {
            return Ok(false);
        }
    }
    let place = field::ORDER_AT as u64;
    Err(faults::not_as_needed(Refusal::NoOrder, Field::Order, place, 0, 0))
}

// Tests 1, 2 and 3: the magic number, the byte order, which is handed back, and that the fixed fields are there.
fn judge_start(xs: &[u8], len: u64) -> Result<bool, Broken>
    requires { Covers len xs.now }
    ensures verdict { judged result ≡ verdict (start_tests xs.now len) }
    ensures order { IfOk result (λ big. big ≡ big_in xs.now) }
{
    if len < 4 || !xs.starts_with(&field::MAGIC) {
        return Err(faults::not_as_needed(Refusal::NoMark, Field::Mark, 0, 0, 0));
    }
    let big = judge_order(xs, len)?;
    let needed = field::RANKS_AT as u64;
    if len < needed {
        return Err(faults::not_as_needed(Refusal::ShortMeta1, Field::Image, len, len, needed));
    }
    Ok(big)
}

// Test 7 of one of its two fields, which has to have this value.
fn judge_value(xs: &[u8], at: usize, big: bool, field: Field, value: u32) -> Result<(), Broken>
    requires { (at + 4 ≤ length xs.now) × (value < 2 ^ 31) }
    ensures { judged result ≡ verdict (value_test (kind_of field) at (signed_at big 4 xs.now at) value ∷ []) }
{
    let read = read::get::<u32>(xs, at, big);
    if read.value != value {
        let needed = value as u64;
        return Err(faults::number4(Refusal::BadFiles, field, read, needed, needed));
    }
    Ok(())
}

// Tests 4, 5, 6, 7 and again 3: the fixed fields, and that the lists and the last two fields are there.
fn judge_fields(file: File, xs: &[u8], len: u64, big: bool) -> Result<Head, Broken>
    requires { (big ≡ big_in xs.now) × (fixed_length ≤ length xs.now) }
    ensures verdict { judged result ≡ verdict (field_tests xs.now file len) }
    ensures head { IfOk result (λ h. h ≡ head_in xs.now) }
{
    let format = read::get::<u32>(xs, field::FORMAT_AT, big);
    if !limits::format_ok(format.value) {
        let (least, most) = (limit::PLAIN_FORMAT as u64, limit::IDLE_FORMAT as u64);
        return Err(faults::number4(Refusal::BadFormat, Field::Format, format, least, most));
    }
    let block = read::get::<u32>(xs, field::BLOCKSIZE_AT, big);
    if !limits::blocksize_ok(block.value) {
        let (least, most) = (limit::MIN_BLOCKSIZE as u64, limit::MAX_BLOCKSIZE as u64);
        return Err(faults::number4(Refusal::BadBlocksize, Field::Blocksize, block, least, most));
    }
    let n = read::get::<u32>(xs, field::TASKS_AT, big);
    if !limits::tasks_ok(n.value) {
        let most = limit::MAX_TASKS as u64;
        return Err(faults::number4(Refusal::BadTasks, Field::Tasks, n, 1, most));
    }
    let files = files::files_of(file);
    judge_value(xs, field::FILES_AT, big, Field::Files, files)?;
    let number = files::number_of(file);
    judge_value(xs, field::FILE_NUMBER_AT, big, Field::FileNumber, number)?;
    let end = layout::meta1_end(n.value);
    if len < end {
        return Err(faults::not_as_needed(Refusal::ShortMeta1, Field::Image, len, len, end));
    }
    Ok(Head {
        order: big as u32,
        version: read::get::<i32>(xs, field::VERSION_AT, big).value,
        patch: read::get::<i32>(xs, field::PATCH_AT, big).value,
        format: format.value,
        blocksize: block.value,
        n: n.value,
        files,
        file: number,
    })
}

// Tests 1 to 7 and both of 3, of the file that the call means, from as many of the first bytes as META1 can have, or from all.
pub fn judge_fixed(file: File, xs: &[u8], len: u64) -> Result<Head, Broken>
    requires { Covers len xs.now }
    ensures verdict { judged result ≡ verdict (fixed_tests xs.now file len) }
    ensures head { IfOk result (λ h. h ≡ head_in xs.now) }
{
    let big = judge_start(xs, len)?;
    judge_fields(file, xs, len, big)
}

// What the tests of a load give, made where one fails (W-205): the refusal, and the field with its place, what it says and from where to where it
// may be.
#![tactic(auto)]

ghost use Rattle.std.specs.Prelude.{◌≡◌, cond, ◌<◌, ◌^◌, pos};
ghost use Rattle.endian.specs.Signed.{signed};
ghost use Rattle.endian.specs.declared.read.Read.{Read};
ghost use Rattle.format.specs.declared.fault.Broken.{Broken};
ghost use Rattle.format.specs.declared.refusal.Refusal.TheVariants.{BadMeta2};
ghost use Rattle.format.specs.Kinds;
ghost use Rattle.format.specs.Refusals.{fault_of, kind_of};
ghost use Rattle.format.specs.Judge.{number_fault};
ghost use Rattle.format.specs.Meta2.{unused};

use endian::read::Read;
use format::fault::{Broken, Fault, Field};
use format::refusal::Refusal;

// A field of 4 bytes, which is of no task.
pub fn number4(refusal: Refusal, field: Field, read: Read<u32>, least: u64, most: u64) -> Broken
    requires { (least < 2 ^ 63) × (most < 2 ^ 63) }
    ensures { result ≡ record { refusal = refusal; fault = number_fault (kind_of field) read.at (signed 31 read.value) least most } }
{
    Broken {
        refusal,
        fault: Fault {
            place: read.at as u64,
            says: i64::from(read.value.cast_signed()),
            least: least as i64,
            most: most as i64,
            field: field.kind(),
            task: 0,
            chunk: 0,
        },
    }
}

// A field of 8 bytes, of a task that is counted from 1, or of none. It takes more than the one of 4, so one function for both would be no plainer.
pub fn number8(
    refusal: Refusal,
    field: Field,
    task: u32,
    place: u64,
    value: u64,
    least: u64,
    most: u64,
) -> Broken
    requires { (least < 2 ^ 63) × (most < 2 ^ 63) }
    ensures { result ≡ record { refusal = refusal; fault = fault_of (kind_of field) task 0 place (signed 63 value) (pos least) (pos most) } }
{
    Broken {
        refusal,
        fault: Fault {
            place,
            says: value.cast_signed(),
            least: least as i64,
            most: most as i64,
            field: field.kind(),
            task,
            chunk: 0,
        },
    }
}

// What is not as much as it has to be: the image, the table, or maxchunks beside the greatest count.
pub fn not_as_needed(refusal: Refusal, field: Field, place: u64, says: u64, needed: u64) -> Broken
    requires { (says < 2 ^ 63) × (needed < 2 ^ 63) }
    ensures { result ≡ record { refusal = refusal; fault = number_fault (kind_of field) place (pos says) needed needed } }
{
    Broken {
        refusal,
        fault: Fault {
            place,
            says: says as i64,
            least: needed as i64,
            most: needed as i64,
            field: field.kind(),
            task: 0,
            chunk: 0,
        },
    }
}

// A value of META2, of a chunk and a task that are counted from 1. A chunk in use has up to what it holds, any other -1.
pub fn value(task: u32, chunk: u32, place: u64, says: i64, used: bool, holds: u64) -> Broken
    requires { holds < 2 ^ 63 }
    ensures { result ≡ record { refusal = BadMeta2; fault = fault_of Kinds.value task chunk place says (cond used (pos 0) unused) (cond used (pos holds) unused) } }
{
    let (least, most) = if used { (0, holds as i64) } else { (-1, -1) };
    Broken {
        refusal: Refusal::BadMeta2,
        fault: Fault {
            place,
            says,
            least,
            most,
            field: Field::Value.kind(),
            task,
            chunk,
        },
    }
}

// Numbers stored at an offset of a slice. The byte order is the caller's: `big` has the highest byte first.
ghost use Rattle.std.specs.Prelude.{◌≡◌, ◌+◌, ◌≤◌, length};
ghost use Rattle.lists.specs.Splice.{splice};
ghost use Rattle.lists.specs.Stores.{Spends};

use crate::memory;
use endian::numbers::Number;
use std::convert::AsSlice;

pub fn put<T: Number>(s: &mut [u8], at: usize, big: bool, v: T)
    requires { at + T.WIDTH ≤ length s.old }
    ensures { s.new ≡ splice s.old at (T.bytes_of big v) }
{
    memory::copy_in(&mut s[at..], v.to_bytes(big).as_slice());
}

// The same, as far as a budget of byte stores goes; what is left of it.
pub fn put_within<T: Number>(s: &mut [u8], at: usize, big: bool, v: T, budget: u64) -> u64
    requires { at + T.WIDTH ≤ length s.old }
    ensures { Spends budget s.old at (T.bytes_of big v) s.new result }
{
    memory::copy_within(&mut s[at..], v.to_bytes(big).as_slice(), budget)
}

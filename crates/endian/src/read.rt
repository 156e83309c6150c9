// Numbers read from a slice: one at an offset, answered with that offset, its place, and as many as another slice has room for.
ghost use Rattle.std.specs.Prelude.{◌≡◌, ◌+◌, ◌*◌, ◌≤◌, length, take, drop};
ghost use Rattle.lists.specs.Below.{list_below};
ghost use Rattle.endian.specs.declared.read.Read.{Read};

use crate::numbers::Number;

// What is read: the number, and where it stands.
#[derive(Clone, Copy)]
pub struct Read<T> {
    pub value: T,
    pub at: usize,
}

pub fn get<T: Number>(s: &[u8], at: usize, big: bool) -> Read<T>
    requires { at + T.WIDTH ≤ length s.now }
    ensures { result ≡ record { value = T.value_of big (take T.WIDTH (drop at s.now)); at = at } }
{
    let value = T::from_bytes(&s[at..at + T::WIDTH], big);
    Read { value, at }
}

// The numbers that stand from `at` on, into the whole slice.
pub fn fill<T: Number>(into: &mut [T], s: &[u8], at: usize, big: bool)
    requires { at + T.WIDTH * length into.old ≤ length s.now }
    ensures { into.new ≡ list_below (length into.old) (λ i. T.value_of big (take T.WIDTH (drop (at + T.WIDTH * i) s.now))) }
{
    for (i, number) in into.iter_mut().enumerate() {
        *number = get::<T>(s, at + T::WIDTH * i, big).value;
    }
}

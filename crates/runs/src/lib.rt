// Runs of bytes stored into a slice within a budget of byte stores: zeros, and lists of numbers in either byte order. Each answers what is left of the
// budget. A list's numbers are stored whole as long as there is room for them, without a look at the budget for each.
#![tactic(auto)]

ghost use Rattle.std.specs.Prelude.{◌+◌, ◌-◌, ◌*◌, ◌<◌, ◌≤◌, length, replicate};
ghost use Rattle.std.specs.List.{flat_map};
ghost use Rattle.lists.specs.Stores.{Spends};
ghost use Rattle.runs.specs.Whole.{Whole};

use endian::numbers::Number;
use stores::{memory, numbers};

// Zeros from `from` up to `to`.
pub fn put_zeros(image: &mut [u8], from: usize, to: usize, budget: u64) -> u64
    requires { (from ≤ to) × (to ≤ length image.old) }
    ensures { Spends budget image.old from (replicate (to - from) 0) image.new result }
{
    memory::clear_within(&mut image[from..to], budget)
}

// How many of n numbers a budget has room for whole.
fn whole_numbers<T: Number>(n: usize, budget: u64) -> usize
    ensures { Whole n T.WIDTH budget result }
{
    n.min((budget / T::WIDTH as u64) as usize)
}

// All of values, from `at` on: those that the budget has room for, and then a part of the next.
pub fn put_list<T: Number>(image: &mut [u8], at: usize, values: &[T], big: bool, budget: u64) -> u64
    requires { at + T.WIDTH * length values.now ≤ length image.old }
    ensures { Spends budget image.old at (flat_map (T.bytes_of big) values.now) image.new result }
{
    let width = T::WIDTH;
    let (whole, rest) = values.split_at(whole_numbers::<T>(values.len(), budget));
    for (i, v) in whole.iter().enumerate() {
        numbers::put(image, at + width * i, big, *v);
    }
    let stored = width * whole.len();
    let left = budget - stored as u64;
    match rest.first() {
        Some(next) => numbers::put_within(image, at + stored, big, *next, left),
        None => left,
    }
}

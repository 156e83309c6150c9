// The two stores of bytes that every other one goes through, and each of them within a budget of byte stores.
ghost use Rattle.std.specs.Prelude.{◌≡◌, ◌≤◌, length, replicate};
ghost use Rattle.lists.specs.Splice.{splice};
ghost use Rattle.lists.specs.Stores.{Spends};

// src into the start of part, which is at least as long; the rest of part stays. The loop is not `copy_from_slice`, which wants `memmove` of those that
// link the library.
pub fn copy_in(part: &mut [u8], src: &[u8])
    requires { length src.now ≤ length part.old }
    ensures { part.new ≡ splice part.old 0 src.now }
{
    for (i, byte) in src.iter().enumerate() {
        part[i] = *byte;
    }
}

// Zeros into the whole of part.
pub fn clear(part: &mut [u8])
    ensures { part.new ≡ replicate (length part.old) 0 }
{
    part.fill(0);
}

// What `copy_in` does, as far as the budget goes; what is left of it.
pub fn copy_within(part: &mut [u8], src: &[u8], budget: u64) -> u64
    requires { length src.now ≤ length part.old }
    ensures { Spends budget part.old 0 src.now part.new result }
{
    let n = src.len() as u64;
    if budget < n {
        copy_in(part, &src[..budget as usize]);
        return 0;
    }
    copy_in(part, src);
    budget - n
}

// What `clear` does, likewise.
pub fn clear_within(part: &mut [u8], budget: u64) -> u64
    ensures { Spends budget part.old 0 (replicate (length part.old) 0) part.new result }
{
    let all = part.len() as u64;
    if budget < all {
        clear(&mut part[..budget as usize]);
        return 0;
    }
    clear(part);
    budget - all
}

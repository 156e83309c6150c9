// The rules for the head of a record, with its ranks and sizes.
ghost use Rattle.std.specs.Prelude.{◌≡◌, ◌&&◌, pos};
ghost use Rattle.format.specs.declared.head.Head.{Head};
ghost use Rattle.format.specs.Limits.{format_rule, blocksize_rule, tasks_rule};
ghost use Rattle.format.specs.Record.{is_order, head_sound, no_head};

use crate::limits;
use format::head;
use format::head::Head;

// Whether the numbers of a head keep their rules; library version and patch level may be any.
fn numbers_ok(h: Head) -> bool
    ensures { result ≡ (is_order h.order && format_rule (pos h.format) && blocksize_rule (pos h.blocksize) && tasks_rule (pos h.n)) }
{
    h.order <= 1
        && limits::format_ok(h.format)
        && limits::blocksize_ok(h.blocksize)
        && limits::tasks_ok(h.n)
}

// Whether the head, the ranks and the sizes of a record keep the rules, whatever they hold.
pub fn head_ok(h: Head, lists: &[u64; head::LISTS]) -> bool
    ensures { result ≡ head_sound h lists.now }
{
    let n = h.n as usize;
    let ranks = &lists[..head::SIZES];
    let sizes = &lists[head::SIZES..head::COUNTS];
    numbers_ok(h) && limits::ranks_ok(&ranks[..n]) && limits::sizes_ok(&sizes[..n])
}

// The head of the record of zeros that a refusal hands back.
pub fn no_head() -> Head
    ensures { result ≡ no_head }
{
    Head {
        order: 0,
        version: 0,
        patch: 0,
        format: 0,
        blocksize: 0,
        n: 0,
        files: 0,
        file: 0,
    }
}

// Closing a pair (W-204): META2 and the mapping of file 0 with its last two fields, then file 1's. A parameter whose name ends in 0 or 1 is of that
// file.
#![tactic(auto)]

ghost use Rattle.std.specs.Prelude.{◌≡◌, true, [], ◌∷◌, ◌+◌, ◌≤◌, length};
ghost use Rattle.lists.specs.Stores.{store, found};
ghost use Rattle.format.specs.declared.head.File.TheVariants.{First, Second};
ghost use Rattle.format.specs.declared.head.Head.{Head};
ghost use Rattle.format.specs.declared.session.Session.{Session};
ghost use Rattle.format.specs.Limits.{max_tasks};
ghost use Rattle.format.specs.Record.{rank_of, size_of, is_big, end_at};
ghost use Rattle.format.specs.Passed.{Meta2Fits};
ghost use Rattle.format.specs.Session.{state_of};
ghost use Rattle.format.specs.Close.{meta2_store, last_store};
ghost use Rattle.pairs.specs.Ranks.{none_lacking};
ghost use Rattle.pairs.specs.Answers.{pair_closed_of};
ghost use Rattle.pairs.specs.Mapping.{mapping_length, mapping};
ghost use Rattle.pairs.specs.Sessions.{pair_of, pair_closed, pair_close_found, pair_close_images};

use format::head::{COUNTS, Head, LISTS};
use format::limit::ENDLESS;
use format::refusal::Refusal;
use format::session::Session;
use layout::Layout;
use pairs::PairFinished;

// File 0: META2, the mapping, then the fields that say how many chunks there are and where META2 starts. The end of the mapping.
fn finish_first(
    h: Head,
    lists0: &[u64; LISTS],
    maxchunks: u32,
    image0: &mut [u8],
    table0: &[i64],
    lists1: &[u64; LISTS],
    m: usize,
    budget: u64,
) -> u64
    requires meta2fits { Meta2Fits h lists0.now maxchunks image0.old table0.now × (m ≤ max_tasks) }
    requires lists1_value { none_lacking h.n m (rank_of lists0.now) (rank_of lists1.now) ≡ true }
    requires m_in_bounds { end_at h (size_of lists0.now) maxchunks + mapping_length h.n m ≤ length image0.old }
    ensures image0_after { image0.new ≡ found budget image0.old (meta2_store h lists0.now maxchunks table0.now ∷ store (end_at h (size_of lists0.now) maxchunks) (mapping h.n m (rank_of lists0.now) (rank_of lists1.now) (is_big h)) ∷ last_store h lists0.now maxchunks ∷ []) }
    ensures value { result ≡ end_at h (size_of lists0.now) maxchunks + mapping_length h.n m }
{
    let big = h.order == 1;
    let start = Layout::of(h, lists0).meta2_start(maxchunks);
    let end = start + layout::meta2_length(h.n, maxchunks);
    let counts = &lists0[COUNTS..];
    let left = emit::meta2(
        image0,
        start as usize,
        counts,
        table0,
        h.n,
        maxchunks,
        big,
        budget,
    );
    let n = h.n as usize;
    let left = mapping::put(image0, end as usize, &lists0[..n], &lists1[..m], big, left);
    emit::last_fields(image0, h.n, big, maxchunks, start, left);
    end + mapping::length_of(n, m)
}

// Closes a pair: tests 17, 18 and 19 of both files. The numbers come back marked closed. Of the byte stores into each image only the first `budget0` and
// `budget1` are made.
pub fn close_within(
    s0: Session,
    lists0: &[u64; LISTS],
    image0: &mut [u8],
    table0: &[i64],
    s1: Session,
    lists1: &[u64; LISTS],
    image1: &mut [u8],
    table1: &[i64],
    budget0: u64,
    budget1: u64,
) -> Result<PairFinished, Refusal>
    ensures value { pair_closed_of s0 s1 result ≡ pair_closed (pair_of (state_of First s0 lists0.now image0.old table0.now) (state_of Second s1 lists1.now image1.old table1.now)) }
    ensures image1_after { (image0.new, image1.new) ≡ pair_close_found (pair_of (state_of First s0 lists0.now image0.old table0.now) (state_of Second s1 lists1.now image1.old table1.now)) budget0 budget1 }
{
    pair_records::test_sessions(s0, lists0, image0, table0, s1, lists1, image1, table1)?;
    let most0 = closing::most_chunks(lists0, s0.head.n) as u32;
    let most1 = closing::most_chunks(lists1, s1.head.n) as u32;
    let m = s1.head.n as usize;
    let length0 = finish_first(s0.head, lists0, most0, image0, table0, lists1, m, budget0);
    let length1 = closing::finish(s1.head, lists1, most1, image1, table1, budget1);
    Ok(PairFinished {
        session0: Session { closed: 1, ..s0 },
        session1: Session { closed: 1, ..s1 },
        length0,
        length1,
    })
}

// The same, with all of its stores.
pub fn close(
    s0: Session,
    lists0: &[u64; LISTS],
    image0: &mut [u8],
    table0: &[i64],
    s1: Session,
    lists1: &[u64; LISTS],
    image1: &mut [u8],
    table1: &[i64],
) -> Result<PairFinished, Refusal>
    ensures value { pair_closed_of s0 s1 result ≡ pair_closed (pair_of (state_of First s0 lists0.now image0.old table0.now) (state_of Second s1 lists1.now image1.old table1.now)) }
    ensures image1_after { (image0.new, image1.new) ≡ pair_close_images (pair_of (state_of First s0 lists0.now image0.old table0.now) (state_of Second s1 lists1.now image1.old table1.now)) }
{
    close_within(
        s0, lists0, image0, table0, s1, lists1, image1, table1, ENDLESS, ENDLESS,
    )
}

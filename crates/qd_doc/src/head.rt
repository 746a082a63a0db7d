//! The heads of stored blocks.

ghost use Rattle.std.specs.Prelude.{◌≡◌, ◌+◌, ◌-◌, ◌<◌, ◌≤◌, ◌^◌, length};
ghost use Rattle.qd_doc.specs.Stretches.{AreInOrder};
ghost use Rattle.qd_doc.specs.StoredBlocks.{head_at, rows_end};
ghost use Rattle.qd_doc.specs.declared.head.Head.{Head};

/// The head of a block: its number, and which of all rows is its first.
#[derive(Clone, Copy, Debug)]
pub struct Head {
    pub representative: u32,
    pub start: u32,
}

/// Where the rows of block `b` end, of `all` rows.
fn rows_end(heads: &[Head], b: u32, all: u32) -> u32
    requires listed { b < length heads.now }
    ensures end { result ≡ rows_end heads.now b all }
{
    match heads.get(b as usize + 1) {
        Some(next) => next.start,
        None => all,
    }
}

/// How many rows block `b` has, of `all` rows.
#[tactic(auto, using(crate::proofs::BlockLists::block_inside))]
pub fn rows_in(heads: &[Head], b: u32, all: u32) -> u32
    requires order { AreInOrder (λ (head : Head). head.start) heads.now all }
    requires listed { b < length heads.now }
    ensures rows { result + (head_at heads.now b).start ≡ rows_end heads.now b all }
{
    rows_end(heads, b, all) - heads[b as usize].start
}

/// Which of `all` rows is row `r` of block `b`.
#[tactic(auto, using(crate::proofs::BlockLists::block_inside))]
pub fn place_of_row(heads: &[Head], b: u32, r: u32, all: u32) -> u32
    requires order { AreInOrder (λ (head : Head). head.start) heads.now all }
    requires listed { b < length heads.now }
    requires row { (head_at heads.now b).start + r < rows_end heads.now b all }
    ensures place { result ≡ (head_at heads.now b).start + r }
    ensures within { result < all }
{
    heads[b as usize].start + r
}

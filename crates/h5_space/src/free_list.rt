// The list of free blocks: ascending, none empty, and with a gap between neighbours.
ghost use Rattle.std.specs.Prelude.{◌≡◌, ℕ, ◌+◌, ◌≤◌, ◌^◌, ◌<◌, ◌-◌, ◌≢◌, MatchOption, length, vec_len, vec_capacity, slice_index_or, position, nat_le};
ghost use Rattle.h5_bytes.specs.Blocks.{holds, cover};
ghost use Rattle.h5_bytes.specs.declared.Block.{Block};
ghost use Rattle.h5_space.specs.Space.{IsSpaced};

use h5_bytes::Block;

/// The first free block with `len` bytes or more.
pub(crate) fn first_fit(free: &[Block], len: u64) -> Option<usize>
    ensures { result ≡ position (λ b. nat_le len b.len) free.now }
{
    free.iter().position(|b| len <= b.len)
}

/// Takes the first `len` bytes of a free block.
pub(crate) fn cut(free: &mut Vec<Block>, k: usize, len: u64) -> u64
    requires place { k < vec_len free.old }
    requires fits { (d : Block) → len ≤ (slice_index_or free.old.items k d).len }
    requires small { (d : Block) → (slice_index_or free.old.items k d).at
        + (slice_index_or free.old.items k d).len < 2 ^ 64 }
    ensures place { (d : Block) → result ≡ (slice_index_or free.old.items k d).at }
    ensures taken { (p : ℕ) → cover p free.new.items + holds p result len ≡ cover p free.old.items }
    ensures inside { (end : ℕ) → IsSpaced free.old.items end → result + len ≤ end }
    ensures joined { (end : ℕ) → IsSpaced free.old.items end → IsSpaced free.new.items end }
    ensures capacity { vec_capacity free.old ≤ vec_capacity free.new }
    ensures count { vec_len free.new ≤ vec_len free.old }
{
    let block = free[k];
    if block.len == len {
        free.remove(k);
    } else {
        free[k] = Block {
            at: block.at + len,
            len: block.len - len,
        };
    }
    block.at
}

/// Puts a block that is held into its place in the order, joined with its free neighbours.
pub(crate) fn put_back(free: &mut Vec<Block>, end: u64, at: u64, len: u64)
    requires spaced { IsSpaced free.old.items end }
    requires filled { 0 < len }
    requires inside { at + len ≤ end }
    requires held { (p : ℕ) → cover p free.old.items + holds p at len ≤ 1 }
    requires room { vec_len free.old + 1 ≤ vec_capacity free.old }
    ensures given { (p : ℕ) → cover p free.new.items ≡ cover p free.old.items + holds p at len }
    ensures joined { IsSpaced free.new.items end }
    ensures capacity { vec_capacity free.old ≤ vec_capacity free.new }
    ensures count { vec_len free.new ≤ vec_len free.old + 1 }
{
    let k = place_of(free.as_slice(), at);
    let before = ends_at(free.as_slice(), k, at);
    let after = begins_at(free.as_slice(), k, at + len);
    match before {
        Some(before) => match after {
            Some(after) => {
                free.remove(k);
                free[k - 1] = Block {
                    at: before.at,
                    len: before.len + len + after.len,
                };
            }
            None => {
                free[k - 1] = Block {
                    at: before.at,
                    len: before.len + len,
                };
            }
        },
        None => match after {
            Some(after) => {
                free[k] = Block {
                    at,
                    len: len + after.len,
                };
            }
            None => {
                let _ = free.insert(k, Block { at, len });
            }
        },
    }
}

/// The block before place `k`, where it ends at `at`.
fn ends_at(free: &[Block], k: usize, at: u64) -> Option<Block>
    requires place { k ≤ length free.now }
    requires small { (d : Block) → 0 < k → (slice_index_or free.now (k - 1) d).at
        + (slice_index_or free.now (k - 1) d).len < 2 ^ 64 }
    ensures { MatchOption result
        ((d : Block) → 0 < k → (slice_index_or free.now (k - 1) d).at
        + (slice_index_or free.now (k - 1) d).len ≢ at)
        (λ x. (0 < k) × (x ≡ slice_index_or free.now (k - 1) x) × (x.at + x.len ≡ at)) }
{
    if k == 0 {
        return None;
    }
    let block = free[k - 1];
    if block.at + block.len == at {
        Some(block)
    } else {
        None
    }
}

/// The block at place `k`, where it begins at `at`.
fn begins_at(free: &[Block], k: usize, at: u64) -> Option<Block>
    ensures { MatchOption result
        ((d : Block) → k < length free.now → at ≢ (slice_index_or free.now k d).at)
        (λ x. (k < length free.now) × (x ≡ slice_index_or free.now k x) × (at ≡ x.at)) }
{
    if k >= free.len() {
        return None;
    }
    let block = free[k];
    if block.at == at { Some(block) } else { None }
}

/// How many free blocks begin before `at`.
fn place_of(free: &[Block], at: u64) -> usize
    requires { (end : ℕ) × IsSpaced free.now end }
    ensures bound { result ≤ length free.now }
    ensures before { (k : ℕ) (d : Block) → k < result → (slice_index_or free.now k d).at < at }
    ensures after { (k : ℕ) (d : Block) → result ≤ k → k < length free.now
        → at ≤ (slice_index_or free.now k d).at }
{
    free.partition_point(|b| b.at < at)
}

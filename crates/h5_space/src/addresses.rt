//! Values at addresses, in the order of the addresses.
ghost use Rattle.std.specs.Prelude.{◌≡◌, ℕ, ◌+◌, ◌-◌, ◌^◌, ◌<◌, ◌≤◌, [], ◌∷◌, ◌++◌, IfErr, IfNone, IfOk, IfSome, IsFalse, IsOk, IsSome, IsTrue, None, OnErr, OnOk, Some, drop, is_some, length, slice_index_or};
ghost use Rattle.std.specs.BTreeMap.{IsEmpty, IsOrdered, Updates, get, values};
ghost use Rattle.std.specs.Iterator.{YieldsFirst, item_count};
ghost use Rattle.std.specs.List.{AllByRecursion, insert};
ghost use Rattle.std.specs.List.Sorted.{IsStrictlySortedBy};
ghost use Rattle.std.specs.Map.{keys_of};
ghost use Rattle.std.specs.Ordering.{nat_cmp};
ghost use Rattle.h5_space.specs.Addresses.{AreRuns, BeginsAt, IsEntryAt, IsGapAt, IsLastAt, back, run_entries, front, run_at};
ghost use Rattle.h5_space.specs.declared.addresses.Run.{Run};

use std::alloc::{AllocError, Global};
use std::marker::Model;

/// How many entries a run takes before it is split.
const RUN: usize = 256;

/// How many of them stay in it then.
const HALF: usize = 128;

/// Entries that stand together, one of them at least. The address of the first is kept beside them, so that a search among
/// the runs reads no entries.
#[derive(Drop)]
struct Run<V> {
    first: u64,
    entries: Vec<(u64, V)>,
}

/// Values at addresses. The entries ascend by address, and stand in runs of 256 at most: a search halves the runs and then
/// the entries of one, and a new entry moves few others, in whatever order addresses come.
#[derive(Drop)]
pub struct AddressMap<V> {
    runs: Vec<Run<V>>,
}

impl<V> Model for AddressMap<V> {
    ghost use Rattle.std.specs.Prelude.{ℕ};
    ghost use Rattle.std.specs.Coded.{coded_ℕ};
    ghost use Rattle.std_collections.specs.Layout.BTreeMap.{BTreeMap, btree_map_code};

    ghost Value = { BTreeMap ℕ V };

    ghost coded = { btree_map_code coded_ℕ V.code };

    ghost use Rattle.h5_space.specs.Addresses.{AreRuns, map_of};

    ghost view = { λ m. map_of m.runs.items };

    ghost invariant = { λ m. AreRuns m.runs.items };
}

impl<V: Copy> AddressMap<V> {
    /// No values. Takes no memory.
    pub fn new(alloc: Global) -> Self
        ensures { IsEmpty result }
    {
        AddressMap {
            runs: Vec::new(alloc),
        }
    }

    /// The value at this address. Takes no memory.
    pub fn get(&self, address: u64) -> Option<V>
        ensures { result ≡ get nat_cmp self.now address }
    {
        match search(&self.runs, address) {
            Ok((run, index)) => Some(entry_at(&self.runs, run, index).1),
            Err(_) => None,
        }
    }

    /// The last address before this place that has a value, and the value. Takes no memory.
    pub fn last_before(&self, place: u64) -> Option<(u64, V)>
        ensures found { IfSome result (λ e. (e.0 < place) × (get nat_cmp self.now e.0 ≡ Some e.1)) }
        ensures last { IfSome result (λ e. (q : ℕ) → q < place → IsSome (get nat_cmp self.now q) → q ≤ e.0) }
        ensures none { IfNone result ((q : ℕ) → q < place → get nat_cmp self.now q ≡ None) }
    {
        let (run, index) = find(&self.runs, place.checked_sub(1)?)?;
        Some(entry_at(&self.runs, run, index))
    }

    /// Gives the address this value, in place of the one that it has, if any.
    ///
    /// # Errors
    ///
    /// `AllocError` if memory is refused. Then nothing changes. An address that has a value takes no memory.
    pub fn insert(&mut self, address: u64, value: V) -> Result<(), AllocError>
        ensures updates { OnOk result (Updates nat_cmp self.old self.new address (Some value)) }
        ensures err { OnErr result (self.new ≡ self.old) }
        ensures there { IsSome (get nat_cmp self.old address) → IsOk result }
    {
        match search(&self.runs, address) {
            Ok((run, index)) => {
                give_value(&mut self.runs, run, index, value);
                Ok(())
            }
            Err((run, index)) => put(&mut self.runs, run, index, (address, value)),
        }
    }

    /// Gives an address that has a value another one, and says whether it has. Takes no memory.
    pub fn replace(&mut self, address: u64, value: V) -> bool
        ensures there { result ≡ is_some (get nat_cmp self.old address) }
        ensures updates { IsTrue result → Updates nat_cmp self.old self.new address (Some value) }
        ensures unchanged { IsFalse result → self.new ≡ self.old }
    {
        let Ok((run, index)) = search(&self.runs, address) else {
            return false;
        };
        give_value(&mut self.runs, run, index, value);
        true
    }

    /// Takes the value at this address out. Takes no memory.
    pub fn remove(&mut self, address: u64) -> Option<V>
        ensures value { result ≡ get nat_cmp self.old address }
        ensures updates { Updates nat_cmp self.old self.new address None }
    {
        match search(&self.runs, address) {
            Ok((run, index)) => Some(take_entry(&mut self.runs, run, index)),
            Err(_) => None,
        }
    }

    /// The values, in the order of their addresses. Takes no memory.
    pub fn values(&self) -> AddressValues<'_, V>
        ensures gives { result ≡ values self.now }
        ensures ordered { IsOrdered nat_cmp self.now }
    {
        AddressValues {
            entries: &[],
            runs: &self.runs,
        }
    }
}

/// The values of a map that are left, in the order of their addresses. It takes no memory.
#[derive(Drop)]
pub struct AddressValues<'a, V> {
    // What is left of a run that was begun.
    entries: &'a [(u64, V)],
    // The runs behind it.
    runs: &'a [Run<V>],
}

impl<'a, V> Model for AddressValues<'a, V> {
    ghost use Rattle.std.specs.Prelude.{List, ◌++◌};
    ghost use Rattle.std.specs.List.{AllByRecursion};
    ghost use Rattle.std.specs.Map.{values_of};
    ghost use Rattle.h5_space.specs.Addresses.{BeginsAt, run_entries};

    ghost Value = { List V };

    ghost view = { λ s. values_of (s.entries.now ++ run_entries s.runs.now) };

    ghost invariant = { λ s. AllByRecursion (λ run. BeginsAt run.first run.entries.items) s.runs.now };
}

impl<'a, V: Copy> Iterator for AddressValues<'a, V> {
    type Item = V;

    ghost next_gives = { YieldsFirst (λ left. left) };

    ghost remaining = { item_count (λ left. left) };

    fn next(&mut self) -> Option<V> {
        if let Some((entry, rest)) = self.entries.split_first() {
            self.entries = rest;
            return Some(entry.1);
        }
        let (run, rest) = self.runs.split_first()?;
        self.runs = rest;
        // No run is empty.
        self.entries = &run.entries[1..];
        Some(run.entries[0].1)
    }
}

/// Where the entry with this address stands, or else where one would: the index of the run, and the index in it.
fn search<V: Copy>(runs: &[Run<V>], address: u64) -> Result<(usize, usize), (usize, usize)>
    requires { AreRuns runs.now }
    ensures found { IfOk result (λ p. IsEntryAt runs.now address p.0 p.1) }
    ensures absent { IfErr result (λ p. IsGapAt runs.now address p.0 p.1) }
{
    let Some((run, index)) = find(runs, address) else {
        return Err((0, 0));
    };
    if entry_at(runs, run, index).0 == address {
        Ok((run, index))
    } else {
        Err((run, index + 1))
    }
}

/// The entry at this place.
fn entry_at<V: Copy>(runs: &[Run<V>], run: usize, index: usize) -> (u64, V)
    requires there { run < length runs.now }
    requires inside { index < length (run_at runs.now run) }
    ensures { result ≡ slice_index_or (run_at runs.now run) index result }
{
    runs[run].entries[index]
}

/// The last entry at this address or before it.
fn find<V>(runs: &[Run<V>], address: u64) -> Option<(usize, usize)>
    requires { AreRuns runs.now }
    ensures found { IfSome result (λ p. IsLastAt runs.now address p.0 p.1) }
    ensures small { IfSome result (λ p. p.1 + 1 < 2 ^ 64) }
    ensures none { IfNone result (AllByRecursion (λ e. address < e.0) (run_entries runs.now)) }
{
    let run = run_for(runs, address)?;
    Some((run, index_for(&runs[run].entries, address)))
}

/// The last run that begins at this address or before it.
fn run_for<V>(runs: &[Run<V>], address: u64) -> Option<usize>
    requires { AreRuns runs.now }
    ensures inside { IfSome result (λ r. r < length runs.now) }
    ensures low { IfSome result (λ r. (d : Run V) → (slice_index_or runs.now r d).first ≤ address) }
    ensures high { IfSome result (λ r. (k : ℕ) (d : Run V) → r < k → k < length runs.now
        → address < (slice_index_or runs.now k d).first) }
    ensures none { IfNone result ((k : ℕ) (d : Run V) → k < length runs.now
        → address < (slice_index_or runs.now k d).first) }
{
    let last = runs.len().checked_sub(1)?;
    // Addresses mostly ascend, and the last run is found without a search.
    if runs[last].first <= address {
        return Some(last);
    }
    runs.partition_point(|run| run.first <= address)
        .checked_sub(1)
}

/// The last of a run's entries that has this address or one before it.
fn index_for<V>(entries: &[(u64, V)], address: u64) -> usize
    requires ascending { IsStrictlySortedBy nat_cmp (keys_of entries.now) }
    requires begins { (first : ℕ) × BeginsAt first entries.now × (first ≤ address) }
    ensures inside { result < length entries.now }
    ensures small { result + 1 < 2 ^ 64 }
    ensures low { (d : ℕ × V) → (slice_index_or entries.now result d).0 ≤ address }
    ensures high { AllByRecursion (λ e. address < e.0) (drop (result + 1) entries.now) }
{
    let last = entries.len() - 1;
    // Nor is there a search where the address is behind the run.
    if entries[last].0 <= address {
        return last;
    }
    entries.partition_point(|entry| entry.0 <= address) - 1
}

/// Gives an entry this value.
fn give_value<V: Copy>(runs: &mut Vec<Run<V>>, run: usize, index: usize, value: V)
    requires runs { AreRuns runs.old.items }
    requires there { run < length runs.old.items }
    requires inside { index < length (run_at runs.old.items run) }
    ensures entries { (e : ℕ × V) → e ≡ slice_index_or (run_at runs.old.items run) index e
        → run_entries runs.new.items
        ≡ front runs.old.items run index ++ (e.0, value) ∷ back runs.old.items run (index + 1) }
    ensures runs { AreRuns runs.new.items }
{
    runs[run].entries[index].1 = value;
}

/// Puts an entry where it belongs. Where memory is refused, the entries stay.
fn put<V: Copy>(
    runs: &mut Vec<Run<V>>,
    run: usize,
    index: usize,
    entry: (u64, V),
) -> Result<(), AllocError>
    requires runs { AreRuns runs.old.items }
    requires gap { IsGapAt runs.old.items entry.0 run index }
    ensures put { OnOk result (run_entries runs.new.items
        ≡ front runs.old.items run index ++ entry ∷ back runs.old.items run index) }
    ensures runs { AreRuns runs.new.items }
    ensures err { OnErr result (run_entries runs.new.items ≡ run_entries runs.old.items) }
{
    if is_end(runs, run, index) {
        return begin(runs, entry);
    }
    let (run, index) = roomy_place(runs, run, index)?;
    let taker = &mut runs[run];
    shift_in(&mut taker.entries, index, entry)?;
    if index == 0 {
        taker.first = entry.0;
    }
    Ok(())
}

/// Whether this place is behind all entries, and the run there, if any, is full.
fn is_end<V>(runs: &[Run<V>], run: usize, index: usize) -> bool
    requires { run ≤ length runs.now - 1 }
    ensures end { IsTrue result → back runs.now run index ≡ [] }
    ensures some { IsFalse result → 0 < length runs.now }
{
    if runs.is_empty() {
        return true;
    }
    run + 1 == runs.len() && index >= RUN && index == runs[run].entries.len()
}

/// Begins a run behind the others.
fn begin<V: Copy>(runs: &mut Vec<Run<V>>, entry: (u64, V)) -> Result<(), AllocError>
    requires runs { AreRuns runs.old.items }
    requires behind { AllByRecursion (λ e. e.0 < entry.0) (run_entries runs.old.items) }
    ensures put { OnOk result (run_entries runs.new.items ≡ run_entries runs.old.items ++ entry ∷ []) }
    ensures runs { AreRuns runs.new.items }
    ensures err { OnErr result (run_entries runs.new.items ≡ run_entries runs.old.items) }
{
    let mut entries = Vec::with_capacity(*runs.allocator(), RUN)?;
    entries.push_reserved(entry);
    runs.push(Run {
        first: entry.0,
        entries,
    })?;
    Ok(())
}

/// The same place, in a run that has room for an entry: a full one is split first. Where memory is refused, the entries stay.
fn roomy_place<V: Copy>(
    runs: &mut Vec<Run<V>>,
    run: usize,
    index: usize,
) -> Result<(usize, usize), AllocError>
    requires runs { AreRuns runs.old.items }
    requires there { run < length runs.old.items }
    requires inside { index ≤ length (run_at runs.old.items run) }
    ensures there { IfOk result (λ p. p.0 < length runs.new.items) }
    ensures inside { IfOk result (λ p. p.1 ≤ length (run_at runs.new.items p.0)) }
    ensures place { IfOk result (λ p. front runs.new.items p.0 p.1 ≡ front runs.old.items run index) }
    ensures entries { run_entries runs.new.items ≡ run_entries runs.old.items }
    ensures runs { AreRuns runs.new.items }
{
    if runs[run].entries.len() < RUN {
        return Ok((run, index));
    }
    split(runs, run)?;
    if index <= HALF {
        Ok((run, index))
    } else {
        Ok((run + 1, index - HALF))
    }
}

/// Splits a run: half of a full one stays in it, and the rest goes to a run behind it. The entries stay, and where memory is
/// refused the runs do.
fn split<V: Copy>(runs: &mut Vec<Run<V>>, run: usize) -> Result<(), AllocError>
    requires runs { AreRuns runs.old.items }
    requires there { run < length runs.old.items }
    requires long { 128 < length (run_at runs.old.items run) }
    ensures entries { run_entries runs.new.items ≡ run_entries runs.old.items }
    ensures runs { AreRuns runs.new.items }
    ensures count { OnOk result (length runs.new.items ≡ length runs.old.items + 1) }
    ensures half { OnOk result (length (run_at runs.new.items run) ≡ 128) }
    ensures rest { OnOk result
        (length (run_at runs.new.items (run + 1)) + 128 ≡ length (run_at runs.old.items run)) }
    ensures low { OnOk result ((i : ℕ) → i ≤ 128
        → front runs.new.items run i ≡ front runs.old.items run i) }
    ensures high { OnOk result ((i : ℕ) → 128 ≤ i
        → front runs.new.items (run + 1) (i - 128) ≡ front runs.old.items run i) }
{
    // The new run comes first, so that nothing is taken away where memory is refused.
    let rest = second_half(*runs.allocator(), &runs[run].entries)?;
    shift_in(runs, run + 1, rest)?;
    runs[run].entries.truncate(HALF);
    Ok(())
}

/// A run of what is behind the first half of a full one.
fn second_half<V: Copy>(alloc: Global, entries: &[(u64, V)]) -> Result<Run<V>, AllocError>
    requires { 128 < length entries.now }
    ensures entries { IfOk result (λ run. run.entries.items ≡ drop 128 entries.now) }
    ensures first { IfOk result (λ run. BeginsAt run.first run.entries.items) }
{
    let mut rest = Vec::with_capacity(alloc, RUN)?;
    rest.extend_from_slice(&entries[HALF..])?;
    Ok(Run {
        first: entries[HALF].0,
        entries: rest,
    })
}

/// Takes an entry out, and a run whose last one it was.
fn take_entry<V: Copy>(runs: &mut Vec<Run<V>>, run: usize, index: usize) -> V
    requires runs { AreRuns runs.old.items }
    requires there { run < length runs.old.items }
    requires inside { index < length (run_at runs.old.items run) }
    ensures value { (d : ℕ × V) → result ≡ (slice_index_or (run_at runs.old.items run) index d).1 }
    ensures entries { run_entries runs.new.items
        ≡ front runs.old.items run index ++ back runs.old.items run (index + 1) }
    ensures runs { AreRuns runs.new.items }
{
    let giver = &mut runs[run];
    let (_, value) = giver.entries.remove(index);
    if giver.entries.is_empty() {
        runs.remove(run);
    } else {
        giver.first = giver.entries[0].0;
    }
    value
}

/// Puts an item before the one at this index. Where memory is refused, the items stay.
///
/// `Vec::insert` says the same, and is compiled to a loop over the items behind: a rotation moves them at once.
fn shift_in<T: Drop>(items: &mut Vec<T>, index: usize, item: T) -> Result<(), AllocError>
    requires { index ≤ length items.old.items }
    ensures put { OnOk result (items.new.items ≡ insert items.old.items index item) }
    ensures err { OnErr result (items.new.items ≡ items.old.items) }
{
    items.push(item)?;
    items[index..].rotate_right(1);
    Ok(())
}

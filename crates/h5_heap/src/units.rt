//! Which bytes of a segment are free, and which ones texts have (File Format Specification 3.0, section III.D).

ghost use Rattle.std.specs.Prelude.{◌≡◌, ℕ, ◌*◌, ◌/◌, ◌%◌, ◌^◌, ◌<◌, ◌≤◌, ◌↔◌, IsTrue, IsFalse, List, length, IfOk};
ghost use Rattle.std.specs.List.{AllByRecursion};
ghost use Rattle.h5_bytes.specs.Blocks.{Inside};
ghost use Rattle.h5_model.specs.Format.Heap.{IsFree};
ghost use Rattle.h5_heap.specs.Units.{unit_at, fresh_unit, FillsUnits, AreOpen, IsShut, TakesUnits};

use h5_bytes::Block;
use std::alloc::{AllocError, Global};

/// Bytes of a unit. The texts of a segment and its free blocks begin at multiples of it.
pub(crate) const UNIT: u64 = 8;

/// What 8 bytes of a segment are to a heap.
#[derive(Clone, Copy)]
pub enum UnitState {
    /// In no free block, and no text has them.
    Open,
    /// One of them is in a free block.
    Free,
    /// A text that was taken begins here.
    Begin,
    /// The rest of such a text has them, or the empty name.
    Taken,
}

/// What the bytes of a segment are to a heap, 8 together, in the order of their offsets.
#[derive(Drop)]
pub struct Units {
    pub(crate) states: Vec<UnitState>,
}

impl Units {
    /// The units of a segment of `len` bytes that has these free blocks. No text is taken.
    pub(crate) fn new(alloc: Global, len: usize, free: &[Block]) -> Result<Units, AllocError>
        requires inside { Inside len free.now }
        requires aligned { AllByRecursion IsFree free.now }
        ensures long { IfOk result (λ units. len ≤ 8 * length units.states.items) }
        ensures fresh { IfOk result (λ units.
            (k : ℕ) → unit_at units.states.items k ≡ fresh_unit free.now k) }
    {
        let mut states = vec![in alloc; UnitState::Open; len.div_ceil(UNIT as usize)]?;
        set_free(states.as_mut_slice(), free);
        Ok(Units { states })
    }

    /// Whether a text that was taken begins at this offset.
    pub(crate) fn begins(&self, offset: u64) -> bool
        ensures { IsTrue result
            ↔ ((offset % 8 ≡ 0) × (unit_at self.now.states.items (offset / 8) ≡ UnitState.Begin)) }
    {
        offset % UNIT == 0
            && matches!(
                self.states.get((offset / UNIT) as usize),
                Some(UnitState::Begin)
            )
    }

    /// Takes the units from `begin` to `end` where all of them are open, the first of them as `first`. Else nothing
    /// changes, and it says false.
    pub(crate) fn claim(&mut self, begin: usize, end: usize, first: UnitState) -> bool
        requires filled { begin < end }
        requires inside { end ≤ length self.old.states.items }
        ensures taken { IsTrue result
            → TakesUnits self.old.states.items self.new.states.items begin end first }
        ensures shut { IsFalse result → IsShut self.old.states.items begin end }
        ensures unchanged { IsFalse result → self.new ≡ self.old }
    {
        if !are_open(self.states.as_slice(), begin, end) {
            return false;
        }
        fill(self.states.as_mut_slice(), begin + 1, end, UnitState::Taken);
        self.states[begin] = first;
        true
    }
}

/// Makes those units free of which a byte is in one of these free blocks.
fn set_free(states: &mut [UnitState], free: &[Block])
    requires inside { (end : ℕ) × (end < 2 ^ 64) × (end ≤ 8 * length states.old) × Inside end free.now }
    requires aligned { AllByRecursion IsFree free.now }
    requires none { (k : ℕ) → unit_at states.old k ≡ UnitState.Open }
    ensures long { length states.new ≡ length states.old }
    ensures fresh { (k : ℕ) → unit_at states.new k ≡ fresh_unit free.now k }
{
    for block in free {
        let begin = block.at / UNIT;
        let end = (block.at + block.len).div_ceil(UNIT);
        fill(states, begin as usize, end as usize, UnitState::Free);
    }
}

/// Whether the units from `begin` to `end` are all open.
fn are_open(states: &[UnitState], begin: usize, end: usize) -> bool
    requires { end ≤ length states.now }
    ensures open { IsTrue result → AreOpen states.now begin end }
    ensures held { IsFalse result → IsShut states.now begin end }
{
    for k in begin..end {
        if !matches!(states[k], UnitState::Open) {
            return false;
        }
    }
    true
}

/// Gives the units from `begin` to `end` this state.
fn fill(states: &mut [UnitState], begin: usize, end: usize, state: UnitState)
    requires order { begin ≤ end }
    requires inside { end ≤ length states.old }
    ensures { FillsUnits states.old states.new begin end state }
{
    for k in begin..end {
        states[k] = state;
    }
}

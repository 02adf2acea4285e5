//! Items of generated ids, by their numbers.
//!
//! Expansion numbers the ids that it generates one behind the other, so that those of one scope are mostly neighbours: each has a slot by
//! its number, and is found in one step. The few that lie far off have none.

ghost use Rattle.std.specs.Prelude.{◌≡◌, ◌<◌, ◌≤◌, ◌+◌, ◌-◌, ◌&&◌, ℕ, true, false, cond, nat_eq, get_or, length, Some, None, IfOk, IfSome, OnOk};
ghost use Rattle.open_scopes.specs.Numbered.{in_slot, numbered_at};

use crate::registry::Item;
use std::alloc::{AllocError, Global};

/// An item, and the number of its space.
#[derive(Clone, Copy, Drop)]
pub(crate) struct Slot {
    space: u8,
    item: Item,
}

/// What stands in a slot, if it is an item of a space.
fn in_slot(slot: Option<Slot>, space: u8) -> Option<Item>
    ensures { result ≡ in_slot slot space }
{
    match slot {
        Some(slot) => {
            if slot.space == space {
                return Some(slot.item);
            }
            None
        }
        None => None,
    }
}

/// Whether an item of another space stands in a slot.
fn holds_other(slot: Option<Slot>, space: u8) -> bool
    ensures other { result ≡ true → in_slot slot space ≡ None }
    ensures own { result ≡ false → (c : ℕ) → nat_eq c space ≡ false → in_slot slot c ≡ None }
{
    match slot {
        Some(slot) => slot.space != space,
        None => false,
    }
}

/// Whether a slot lies so far behind the last one that there would be more than four slots for each item, and some.
fn is_far(slot: usize, slots: usize, kept: usize) -> bool
    ensures { result ≡ true → slots ≤ slot }
{
    if slot <= slots {
        return false;
    }
    slot / 4 > kept.saturating_add(4)
}

/// Empty slots behind others, up to that of a number. An `Err` is want of memory.
fn reach(slots: &mut Vec<Option<Slot>>, at: usize) -> Result<(), AllocError>
    ensures long { OnOk result (at < length slots.new.items) }
    ensures same { OnOk result ((i : ℕ) → get_or slots.new.items i None ≡ get_or slots.old.items i None) }
{
    if at < slots.len() {
        return Ok(());
    }
    for _ in slots.len()..at {
        slots.push(None)?;
    }
    slots.push(None)?;
    Ok(())
}

/// Items by the numbers of their ids.
#[derive(Drop)]
pub(crate) struct Numbered {
    /// The number of the first slot.
    first: u64,
    /// How many items were put.
    kept: usize,
    /// The slots, one for each number from the first on.
    slots: Vec<Option<Slot>>,
}

impl Numbered {
    /// No item. It takes no memory.
    pub(crate) fn new(alloc: Global) -> Numbered
        ensures { (c n : ℕ) → numbered_at result c n ≡ None }
    {
        Numbered {
            first: 0,
            kept: 0,
            slots: Vec::new(alloc),
        }
    }

    /// The item of a space whose id has a number; `None` where there is none.
    pub(crate) fn at(&self, space: u8, number: u64) -> Option<Item>
        ensures { result ≡ numbered_at self.now space number }
    {
        if number < self.first {
            return None;
        }
        let slot = number - self.first;
        if slot >= self.slots.len() as u64 {
            return None;
        }
        in_slot(self.slots[slot as usize], space)
    }

    /// The slot of a number, which may lie somewhat behind the last one; `None` where it lies in front of the first or far off.
    fn slot_of(&self, number: u64) -> Option<usize>
        ensures some { IfSome result (λ i. (self.now.first ≤ number) × (i ≡ number - self.now.first)) }
        ensures none { result ≡ None → (c : ℕ) → numbered_at self.now c number ≡ None }
    {
        if number < self.first {
            return None;
        }
        let slot = (number - self.first) as usize;
        if is_far(slot, self.slots.len(), self.kept) {
            return None;
        }
        Some(slot)
    }

    /// The slot of the first item is that of its number.
    fn begin(&mut self, number: u64)
        ensures { (c n : ℕ) → numbered_at self.new c n ≡ numbered_at self.old c n }
    {
        if self.slots.is_empty() {
            self.first = number;
        }
    }

    /// Puts an item in the slot of its id's number, in the place of another of its space. Where the slot is far off, or holds an item of
    /// another space, it is `false`, and nothing has changed.
    pub(crate) fn put(&mut self, space: u8, number: u64, item: Item) -> Result<bool, AllocError>
        ensures put { IfOk result (λ b. b ≡ true → (c n : ℕ) → numbered_at self.new c n ≡ cond (nat_eq c space && nat_eq n number) (Some item) (numbered_at self.old c n)) }
        ensures left { IfOk result (λ b. b ≡ false → (numbered_at self.old space number ≡ None) × ((c n : ℕ) → numbered_at self.new c n ≡ numbered_at self.old c n)) }
    {
        self.begin(number);
        let slot = match self.slot_of(number) {
            Some(slot) => slot,
            None => return Ok(false),
        };
        reach(&mut self.slots, slot)?;
        if holds_other(self.slots[slot], space) {
            return Ok(false);
        }
        self.slots[slot] = Some(Slot { space, item });
        self.kept = self.kept.saturating_add(1);
        Ok(true)
    }
}

//! Slots are registered, found by a page, and unregistered.

ghost use Rattle.std.specs.Prelude.{◌≡◌, ◌<◌, ◌==◌, [], ◌∷◌, ◌++◌, length, is_some, IfOk, OnOk, OnErr};
ghost use Rattle.std.specs.List.{find};
ghost use Rattle.pef_model.specs.Plan.{IsWithin};
ghost use Rattle.pef_model.specs.Slots.{AreSlots, has_id, has_slot, meets_slots, without};
ghost use Rattle.pef_slots.specs.Slots.{checked, answered, registered, found, slot_at};

use crate::slot::{SlotFault, has_any_page};
use crate::{room, run};
use indexmap::IndexMap;
use pef_model::Slot;
use std::alloc::{AllocError, Global};
use std::marker::Model;
use std::mem;

/// How many slots a guest has at most.
const LIMIT: u8 = 32;

/// The memory slots of a guest, in the order in which they were registered.
#[derive(Drop)]
pub struct Slots {
    /// Each slot, by its id. It has room for 32.
    map: IndexMap<u16, Slot>,
    /// An empty map with room for 32.
    other: IndexMap<u16, Slot>,
}

impl Model for Slots {
    ghost use Rattle.std.specs.Prelude.{◌≡◌, List, ◌≤◌, ◌+◌};
    ghost use Rattle.indexmap.specs.IndexMap.{values, spare, index_map_len, IsEmpty};
    ghost use Rattle.pef_model.specs.declared.state.Slot.{Slot};
    ghost use Rattle.pef_model.specs.Slots.{AreSlots};
    ghost use Rattle.pef_slots.specs.Keyed.{keyed};

    ghost Value = { List Slot };

    ghost view = { λ s. values s.map };

    ghost invariant = { λ s. record {
      keyed : s.map.entries ≡ keyed (values s.map);
      slots : AreSlots (values s.map);
      room : 32 ≤ index_map_len s.map + spare s.map;
      empty : IsEmpty s.other;
      other_room : 32 ≤ spare s.other;
    } };
}

impl Slots {
    /// No slots. The memory for 32 is taken here, and none later.
    pub fn build(alloc: Global) -> Result<Slots, AllocError>
        ensures { IfOk result (λ slots. slots ≡ []) }
    {
        let map = IndexMap::with_capacity(alloc, usize::from(LIMIT))?;
        let other = IndexMap::with_capacity(alloc, usize::from(LIMIT))?;
        Ok(Slots { map, other })
    }

    /// Slot 0 over all of so many pages. The memory is that of `build`.
    #[tactic(auto, using(crate::proofs::Apart::alone))]
    pub fn with_all(alloc: Global, pages: u32) -> Result<Slots, AllocError>
        requires { 0 < pages }
        ensures { IfOk result (λ slots. slots ≡ record { id = 0; first = 0; count = pages } ∷ []) }
    {
        let mut slots = Slots::build(alloc)?;
        slots.put(Slot {
            id: 0,
            first: 0,
            count: pages,
        });
        Ok(slots)
    }

    /// How many slots there are, 32 at most.
    pub fn len(&self) -> u8
        ensures len { result ≡ length self.now }
        ensures slots { AreSlots self.now }
    {
        self.map.len() as u8
    }

    /// The id of the slot that has a page, by the page's number from 0.
    ///
    /// None exactly where no slot has it.
    #[tactic(auto, using(crate::proofs::Found::is_some_slot_at))]
    pub fn slot_of(&self, gfn: u32) -> Option<u16>
        ensures slot { result ≡ slot_at self.now gfn }
        ensures there { is_some result ≡ has_slot self.now gfn }
        ensures slots { AreSlots self.now }
    {
        room::id_at(&self.map, gfn)
    }

    /// Takes all slots out.
    pub fn clear(&mut self)
        ensures { self.new ≡ [] }
    {
        self.map.clear();
    }

    /// Puts a slot last: the pages from the address `start` on, `size` bytes of them, in pages of 2^shift bytes, for a guest of
    /// `pages` pages. The operands are the manual's, and that a wrong start, size, id or flags are refused; that an overlap is
    /// refused, the order of the refusals, ids of 16 bits and the limit of 32 slots are this project's own.
    ///
    /// The first of these that holds refuses it, and changes nothing: BadStart exactly where no page of the guest begins at the
    /// start; BadSize exactly where the size is 0 or no whole number of pages, or reaches past the guest's last page; Overlap
    /// exactly where one of the pages lies in a slot; BadFlags where the flags are not 0; IdOutOfRange where the id is above
    /// 65535; IdTaken where a slot has it; Full exactly where there are 32 slots.
    pub fn register(
        &mut self,
        start: u64,
        size: u64,
        flags: u64,
        id: u64,
        shift: u8,
        pages: u32,
    ) -> Result<(), SlotFault>
        requires { IsWithin 8 16 shift }
        ensures answer { result ≡ answered (checked shift pages self.old start size flags id) }
        ensures slots { self.new ≡ registered self.old (checked shift pages self.old start size flags id) }
    {
        let slot = self.check(start, size, flags, id, shift, pages)?;
        self.put(slot);
        Ok(())
    }

    /// Puts a slot last that is apart from each of the others. There is room for it.
    fn put(&mut self, slot: Slot)
        requires { AreSlots (self.old ++ slot ∷ []) }
        ensures { self.new ≡ self.old ++ slot ∷ [] }
    {
        self.map.insert(slot.id, slot).unwrap();
    }

    /// The slot that is asked for, which may join the others, or why it is refused.
    fn check(
        &self,
        start: u64,
        size: u64,
        flags: u64,
        id: u64,
        shift: u8,
        pages: u32,
    ) -> Result<Slot, SlotFault>
        requires { IsWithin 8 16 shift }
        ensures slot { result ≡ checked shift pages self.now start size flags id }
        ensures joins { IfOk result (λ slot. AreSlots (self.now ++ slot ∷ [])) }
    {
        let first = run::first_of(start, shift, pages).ok_or(SlotFault::BadStart)?;
        let count = run::count_of(size, shift, first, pages).ok_or(SlotFault::BadSize)?;
        if self.has_any(first, count) {
            return Err(SlotFault::Overlap);
        }
        if flags != 0 {
            return Err(SlotFault::BadFlags);
        }
        let id = u16::try_from(id).map_err(|_| SlotFault::IdOutOfRange)?;
        if self.has_id(id) {
            return Err(SlotFault::IdTaken);
        }
        if self.len() >= LIMIT {
            return Err(SlotFault::Full);
        }
        Ok(Slot { id, first, count })
    }

    /// Whether one of so many pages, from a first one on, lies in a slot.
    fn has_any(&self, first: u32, count: u32) -> bool
        requires { 0 < count }
        ensures { result ≡ meets_slots self.now first count }
    {
        self.map
            .values()
            .any(|slot| has_any_page(slot, first, count))
    }

    /// Whether a slot has an id.
    fn has_id(&self, id: u16) -> bool
        ensures { result ≡ has_id self.now id }
    {
        self.map.contains_key(&id)
    }

    /// Takes out the slot with an id, and gives it. The others keep their order.
    ///
    /// NoSlot exactly where no slot has the id. Nothing changes then.
    pub fn unregister(&mut self, id: u64) -> Result<Slot, SlotFault>
        ensures slot { result ≡ found self.old id }
        ensures others { OnOk result (self.new ≡ without self.old id) }
        ensures unchanged { OnErr result (self.new ≡ self.old) }
    {
        let slot = self.with_id(id).ok_or(SlotFault::NoSlot)?;
        self.leave(slot.id);
        Ok(slot)
    }

    /// The slot with an id.
    fn with_id(&self, id: u64) -> Option<Slot>
        ensures { result ≡ find (λ slot. id == slot.id) self.now }
    {
        let map = &self.map;
        let id = u16::try_from(id).ok()?;
        map.get(&id).copied()
    }

    /// Takes out the slot with an id. A removal from a map may use up a place of its room, so the others go into the other map.
    fn leave(&mut self, id: u16)
        ensures { self.new ≡ without self.old id }
    {
        room::copy_others(&self.map, &mut self.other, id);
        self.map.clear();
        mem::swap(&mut self.map, &mut self.other);
    }
}

//! A map from ids to slots, in which a page's slot is sought, and one whose room for 32 slots is known.

ghost use Rattle.std.specs.Prelude.{◌≡◌, ◌+◌, ◌≤◌, ◌==◌, not, filter, length};
ghost use Rattle.indexmap.specs.IndexMap.{index_map_len, spare, values, IsEmpty, IsUnique};
ghost use Rattle.pef_slots.specs.Slots.{slot_at};

use crate::slot::has_page;
use indexmap::IndexMap;
use pef_model::Slot;

/// The id of the first slot that has a page.
pub fn id_at(map: &IndexMap<u16, Slot>, gfn: u32) -> Option<u16>
    ensures { result ≡ slot_at (values map.now) gfn }
{
    map.values()
        .find(|slot| has_page(slot, gfn))
        .map(|slot| slot.id)
}

/// Puts all entries but that of an id into an empty map, in their order. There is room for 32.
pub fn copy_others(from: &IndexMap<u16, Slot>, to: &mut IndexMap<u16, Slot>, id: u16)
    requires few { index_map_len from.now ≤ 32 }
    requires empty { IsEmpty to.old }
    requires room { 32 ≤ spare to.old }
    ensures entries { to.new.entries ≡ filter (λ e. not (id == e.0)) from.now.entries }
    ensures room { 32 ≤ index_map_len to.new + spare to.new }
{
    for (key, slot) in from.iter() {
        if *key != id {
            to.insert(*key, *slot).unwrap();
        }
    }
}

//! Each call changes one page, and the order with it where the page becomes Secure or stops being so.

ghost use Rattle.std.specs.Prelude.{◌≡◌, ◌↔◌, ℕ, ◌<◌, ◌+◌, ◌-◌, ◌^◌, true, false, length, count_by, if◌then◌else◌, IfOk, IfSome, IsTrue, IsSome, IsNone, is_none, option_copied};
ghost use Rattle.std.specs.Option.{option_copied_mut};
ghost use Rattle.std.specs.Borrow.{LendsIf, sem};
ghost use Rattle.pef_pages.specs.Cells.{kind_of, way_of, shared_by, unmapped, begun_out, ended_out};
ghost use Rattle.pef_pages.specs.Pages.{is_secure_kind, IsAbsent, with_frame_at, ended_in, invalid_pages, page_at, cell_at, kind_at, mover_at, digest_at, frame_at, version_at, is_moving, with_cell, with_page, joins_order, leaves_order, oldest_of, IsOrdered, RestsSecure};

use crate::cell::Cell;
use crate::order;
use crate::page::{self, Page};
use pef_model::{Digest32, Kind, Mover, Way};
use std::alloc::{AllocError, Global};
use std::marker::Model;
use std::mem;

/// The pages of a guest, each with its secure frame where it has one.
#[derive(Drop)]
pub struct Pages<F> {
    pages: Vec<Page<F>>,
    /// The numbers of the Secure pages, the one that became Secure first in front. It has room for the number of each page.
    order: Vec<u32>,
}

impl<F> Model for Pages<F> {
    ghost use Rattle.std.specs.Prelude.{◌≤◌, ◌<◌, ◌^◌, length, vec_capacity};
    ghost use Rattle.pef_pages.specs.Pages.{PagesState, IsOrdered};

    ghost Value = { PagesState F };

    ghost view = { λ p. record { pages = p.pages.items; order = p.order.items } };

    ghost invariant = { λ p. record {
      ordered : IsOrdered (record { pages = p.pages.items; order = p.order.items });
      few : length p.pages.items < 2 ^ 32;
      room : length p.pages.items ≤ vec_capacity p.order;
    } };
}

impl<F: Drop> Pages<F> {
    ghost use Rattle.pef_pages.specs.contracts.pages.Pages.{the_row};

    /// So many Invalid pages that were never paged out.
    pub fn build(alloc: Global, count: u32) -> Result<Pages<F>, AllocError>
        ensures { IfOk result (λ pages. pages ≡ invalid_pages count) }
    {
        let order = Vec::with_capacity(alloc, count as usize)?;
        let mut pages = Vec::with_capacity(alloc, count as usize)?;
        for _gfn in 0..count {
            pages.push(Page::invalid())?;
        }
        Ok(Pages { pages, order })
    }

    /// How many pages there are.
    pub fn count(&self) -> u32
        ensures { result ≡ length self.now.pages }
    {
        self.pages.len() as u32
    }

    /// The kind of a page. A page that moves keeps the kind that it had.
    pub fn kind(&self, gfn: u32) -> Kind
        requires { gfn < length self.now.pages }
        ensures { result ≡ kind_at self.now gfn }
    {
        self.pages[gfn as usize].cell.kind()
    }

    /// Which CPU moves a page, and which way. None where it doesn't move.
    pub fn mover(&self, gfn: u32) -> Option<Mover>
        requires { gfn < length self.now.pages }
        ensures { result ≡ mover_at self.now gfn }
    {
        self.pages[gfn as usize].cell.mover()
    }

    /// How often a page was paged out, begun page-outs included.
    pub fn version(&self, gfn: u32) -> u64
        requires { gfn < length self.now.pages }
        ensures { result ≡ version_at self.now gfn }
    {
        self.pages[gfn as usize].version
    }

    /// The digest of what a page held when it was paged out. None where its kind isn't Out.
    pub fn digest(&self, gfn: u32) -> Option<Digest32>
        requires { gfn < length self.now.pages }
        ensures digest { result ≡ digest_at self.now gfn }
        ensures out { IsSome result ↔ (kind_at self.now gfn ≡ Kind.Out) }
    {
        self.pages[gfn as usize].cell.digest()
    }

    /// The secure frame of a page. None where it is neither Secure nor moves.
    pub fn frame(&self, gfn: u32) -> Option<&F>
        requires { gfn < length self.now.pages }
        ensures { option_copied result ≡ frame_at self.now gfn }
    {
        self.pages[gfn as usize].cell.frame()
    }

    /// The secure frame of a page, for writing: nothing else of the pages changes through it. None where the page is
    /// neither Secure nor moves.
    pub fn frame_mut(&mut self, gfn: u32) -> Option<&mut F>
        requires { gfn < length self.old.pages }
        ensures* writes_back { sem 𝓛 (LendsIf (the_row F.row) F.row self.entry result (with_frame_at self.old gfn) self.old) }
        ensures value { option_copied_mut result ≡ frame_at self.old gfn }
    {
        self.pages[gfn as usize].frame_mut()
    }

    /// How many pages move.
    pub fn movers(&self) -> u32
        ensures { result ≡ count_by is_moving self.now.pages }
    {
        self.pages
            .iter()
            .filter(|page| page.cell.mover().is_some())
            .count() as u32
    }

    /// Of the Secure pages that don't move, the one that became Secure first. None where there is no such page.
    pub fn oldest(&self) -> Option<u32>
        ensures first { result ≡ oldest_of self.now }
        ensures none { IsNone result ↔ ((gfn : ℕ) → RestsSecure self.now gfn → ⊥) }
        ensures rests { IfSome result (RestsSecure self.now) }
        ensures below { IfSome result (λ gfn. gfn < length self.now.pages) }
        ensures ordered { IsOrdered self.now }
    {
        self.first_at_rest()
    }

    /// The first in the order that doesn't move.
    fn first_at_rest(&self) -> Option<u32>
        ensures first { result ≡ oldest_of self.now }
        ensures ordered { IsOrdered self.now }
    {
        self.order.iter().copied().find(|gfn| self.rests(*gfn))
    }

    /// Whether a page doesn't move.
    fn rests(&self, gfn: u32) -> bool
        ensures { result ≡ is_none (mover_at self.now gfn) }
    {
        match self.pages.get(gfn as usize) {
            Some(page) => page.cell.mover().is_none(),
            None => true,
        }
    }

    /// A page that is Invalid and doesn't move becomes Secure, last in the order. Its version stays.
    pub fn back(&mut self, gfn: u32, frame: F)
        requires below { gfn < length self.old.pages }
        requires kind { kind_at self.old gfn ≡ Kind.Invalid }
        requires rests { mover_at self.old gfn ≡ None }
        ensures { self.new ≡ joins_order (with_cell self.old gfn (Cell.Secure frame)) gfn }
    {
        self.pages[gfn as usize].cell = Cell::Secure { frame };
        order::join(&mut self.order, gfn);
    }

    /// A page that is Secure and doesn't move begins to move outward. Gives its new version, one more than before. The
    /// page keeps its place in the order, and the digest is to be its own once the move ends.
    pub fn begin_out(&mut self, gfn: u32, cpu: u8, digest: Option<Digest32>) -> u64
        requires below { gfn < length self.old.pages }
        requires kind { kind_at self.old gfn ≡ Kind.Secure }
        requires rests { mover_at self.old gfn ≡ None }
        requires version { version_at self.old gfn < 2 ^ 64 - 1 }
        ensures version { result ≡ version_at self.old gfn + 1 }
        ensures pages { self.new ≡ with_page self.old gfn (record { cell = begun_out (cell_at self.old gfn) cpu digest; version = result }) }
    {
        let page = &mut self.pages[gfn as usize];
        page.version += 1;
        page.cell.begin_out(cpu, digest);
        page.version
    }

    /// A page that moves outward has moved, and gives its secure frame away. It becomes Out with the digest that was given
    /// at the begin, or Invalid where none was, and leaves the order.
    pub fn end_out(&mut self, gfn: u32) -> F
        requires below { gfn < length self.old.pages }
        requires moves { way_of (mover_at self.old gfn) ≡ Some Way.Outward }
        ensures frame { frame_at self.old gfn ≡ Some result }
        ensures pages { self.new ≡ leaves_order (with_cell self.old gfn (ended_out (cell_at self.old gfn))) gfn }
    {
        order::leave(&mut self.order, gfn);
        self.pages[gfn as usize].cell.end_out()
    }

    /// A page that is Invalid or Out, and doesn't move, begins to move inward into a secure frame. Its kind, its digest and
    /// the order stay.
    pub fn begin_in(&mut self, gfn: u32, cpu: u8, frame: F)
        requires below { gfn < length self.old.pages }
        requires kind { IsAbsent (kind_at self.old gfn) }
        requires rests { mover_at self.old gfn ≡ None }
        ensures { self.new ≡ with_cell self.old gfn (Cell.MovesIn frame cpu (digest_at self.old gfn)) }
    {
        self.pages[gfn as usize].cell.begin_in(cpu, frame);
    }

    /// A page that moves inward has moved. Where what came is accepted the page becomes Secure, last in the order, and the
    /// result is None. Else the page is as before the begin, with the same digest, and gives its secure frame away.
    pub fn end_in(&mut self, gfn: u32, accepted: bool) -> Option<F>
        requires below { gfn < length self.old.pages }
        requires moves { way_of (mover_at self.old gfn) ≡ Some Way.Inward }
        ensures accepted { IsNone result ↔ IsTrue accepted }
        ensures frame { result ≡ (if accepted then None else frame_at self.old gfn) }
        ensures pages { self.new ≡ ended_in self.old gfn accepted }
    {
        if accepted {
            self.accept(gfn);
            None
        } else {
            Some(self.refuse(gfn))
        }
    }

    /// What came for a page that moves inward is accepted.
    fn accept(&mut self, gfn: u32)
        requires below { gfn < length self.old.pages }
        requires moves { way_of (mover_at self.old gfn) ≡ Some Way.Inward }
        ensures { self.new ≡ ended_in self.old gfn true }
    {
        self.pages[gfn as usize].cell.accept();
        order::join(&mut self.order, gfn);
    }

    /// What came for a page that moves inward is refused.
    fn refuse(&mut self, gfn: u32) -> F
        requires below { gfn < length self.old.pages }
        requires moves { way_of (mover_at self.old gfn) ≡ Some Way.Inward }
        ensures frame { frame_at self.old gfn ≡ Some result }
        ensures pages { self.new ≡ ended_in self.old gfn false }
    {
        self.pages[gfn as usize].cell.refuse()
    }

    /// A page that doesn't move becomes Shared, with the number of the normal frame that backs it, or fresh where the next
    /// frame that backs it is to be zeroed. It leaves the order and gives the secure frame away that it had. Its version
    /// stays.
    pub fn put_shared(&mut self, gfn: u32, frame: Option<u32>, fresh: bool) -> Option<F>
        requires below { gfn < length self.old.pages }
        requires rests { mover_at self.old gfn ≡ None }
        requires fresh { IsTrue fresh → frame ≡ None }
        ensures frame { result ≡ frame_at self.old gfn }
        ensures kind { kind_at self.new gfn ≡ Kind.Shared frame fresh }
        ensures pages { self.new ≡ leaves_order (with_cell self.old gfn (shared_by frame fresh)) gfn }
    {
        self.put(gfn, Cell::shared(frame, fresh))
    }

    /// No normal frame backs a page any longer, if one did. Whether it is fresh, its version and the order stay.
    pub fn unmap(&mut self, gfn: u32)
        requires { gfn < length self.old.pages }
        ensures { self.new ≡ with_cell self.old gfn (unmapped (cell_at self.old gfn)) }
    {
        self.pages[gfn as usize].cell.unmap();
    }

    /// A page becomes Invalid, whatever it was. It leaves the order and gives the secure frame away that it had. Its version
    /// stays.
    pub fn drop_to_invalid(&mut self, gfn: u32) -> Option<F>
        requires { gfn < length self.old.pages }
        ensures frame { result ≡ frame_at self.old gfn }
        ensures pages { self.new ≡ leaves_order (with_cell self.old gfn Cell.Invalid) gfn }
    {
        self.put(gfn, Cell::Invalid)
    }

    /// Puts a cell that isn't Secure, and gives the secure frame away that was there.
    fn put(&mut self, gfn: u32, cell: Cell<F>) -> Option<F>
        requires below { gfn < length self.old.pages }
        requires kind { is_secure_kind (kind_of cell) ≡ false }
        ensures frame { result ≡ frame_at self.old gfn }
        ensures pages { self.new ≡ leaves_order (with_cell self.old gfn cell) gfn }
    {
        order::leave(&mut self.order, gfn);
        mem::replace(&mut self.pages[gfn as usize].cell, cell).into_frame()
    }

    /// The pages become as they were built: all Invalid, with version 0, and none in the order. No page may have a secure
    /// frame.
    pub fn reset(&mut self)
        requires { (gfn : ℕ) → gfn < length self.old.pages → frame_at self.old gfn ≡ None }
        ensures { self.new ≡ invalid_pages (length self.old.pages) }
    {
        self.order.clear();
        page::clear(&mut self.pages);
    }
}

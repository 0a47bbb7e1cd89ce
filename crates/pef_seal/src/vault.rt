//! The vault seal keeps the page to itself: what it writes shows the tag and nothing of the page.

ghost use Rattle.std.specs.Prelude.{◌≡◌, ◌↔◌, ◌<◌, ◌≤◌, ◌^◌, ℕ, List, length, replicate, IfOk, IsTrue};
ghost use Rattle.pef_model.specs.Plan.{IsInRange};
ghost use Rattle.pef_model.specs.Seal.{vault_image};
ghost use Rattle.pef_model.specs.declared.config.Config.{Config};
ghost use Rattle.pef_model.specs.declared.state.Tag.{Tag};
ghost use Rattle.pef_seal.specs.PageSize.{IsPageSize};
ghost use Rattle.pef_seal.specs.Serves.{Serves};
ghost use Rattle.pef_seal.specs.Vault.{empty_place, empty_vault};

use crate::tag::write_tag;
use crate::{Seal, Tag};
use std::alloc::{AllocError, Global};
use std::marker::Model;

/// The place of a page: the page that was sealed last, and its tag.
#[derive(Drop)]
struct Place {
    tag: Option<Tag>,
    page: Vec<u8>,
}

impl Model for Place {
    ghost use Rattle.pef_seal.specs.Vault.{Kept};

    ghost Value = { Kept };

    ghost view = { λ p. record { tag = p.tag; page = p.page.items } };
}

impl Place {
    /// A place in which nothing was kept yet, for a page of a size in bytes.
    fn empty(alloc: Global, size: usize) -> Result<Place, AllocError>
        ensures { IfOk result (λ place. place ≡ empty_place size) }
    {
        Ok(Place {
            tag: None,
            page: vec![in alloc; 0; size]?,
        })
    }

    /// Whether the page is kept under the tag.
    fn is_under(&self, tag: Tag) -> bool
        ensures { IsTrue result ↔ (self.now.tag ≡ Some tag) }
    {
        self.tag == Some(tag)
    }

    /// Keeps a page under its tag.
    fn keep(&mut self, tag: Tag, plain: &[u8])
        requires { length plain.now ≡ length self.old.page }
        ensures { self.new ≡ record { tag = Some tag; page = plain.now } }
    {
        self.page.copy_from_slice(plain);
        self.tag = Some(tag);
    }
}

/// A sealer that keeps each page in the place of its number, with its tag.
///
/// It takes the page numbers below its count of pages, and pages of its size. The sealed page is this project's own: the
/// tag's lpid, generation, page number and version as big-endian doublewords, and then zeros.
#[derive(Drop)]
pub struct VaultSeal {
    /// How many bytes a page has.
    size: u32,
    places: Vec<Place>,
}

impl Model for VaultSeal {
    ghost use Rattle.pef_seal.specs.Vault.{VaultState, IsWhole};

    ghost Value = { VaultState };

    ghost view = { λ v. record { size = v.size; places = v.places.items } };

    ghost invariant = { λ v. IsWhole (record { size = v.size; places = v.places.items }) };
}

impl VaultSeal {
    /// A vault with a place for each of so many pages of a size in bytes, a power of two from 2^8 to 2^16.
    ///
    /// Refused only where the memory for the places is not to be had.
    pub fn build(alloc: Global, pages: u32, size: u32) -> Result<VaultSeal, AllocError>
        requires { IsPageSize size }
        ensures vault { IfOk result (λ vault. vault ≡ empty_vault pages size) }
        ensures image { IfOk result (λ vault. ⟦<VaultSeal as Seal>⟧.image vault ≡ (λ tag plain. vault_image size tag)) }
        ensures takes { IfOk result (λ vault. (gfn length : ℕ) → ⟦<VaultSeal as Seal>⟧.takes vault gfn length ↔ ((gfn < pages) × (length ≡ size))) }
        ensures serves { IfOk result (λ vault. (config : Config) → IsInRange config → IsTrue config.vault → config.pages ≡ pages → 2 ^ config.shift ≡ size →
            Serves config (⟦<VaultSeal as Seal>⟧.image vault) (⟦<VaultSeal as Seal>⟧.takes vault)) }
    {
        let mut places = Vec::new(alloc);
        for _gfn in 0..pages {
            places.push(Place::empty(alloc, size as usize)?)?;
        }
        Ok(VaultSeal { size, places })
    }
}

impl Seal for VaultSeal {
    ghost use Rattle.pef_model.specs.Seal.{vault_image};
    ghost use Rattle.pef_seal.specs.Vault.{IsKept, StandsInVault, VaultTakes};

    ghost stands = { StandsInVault };

    ghost image = { λ vault tag _. vault_image vault.size tag };

    ghost takes = { VaultTakes };

    #[tactic(auto, using(crate::proofs::Places::kept))]
    fn seal(&mut self, tag: Tag, plain: &[u8], out: &mut [u8]) {
        self.places[tag.gfn as usize].keep(tag, plain);
        write_image(tag, out);
    }

    /// Writes the page that is kept under the tag, and zeros where none is.
    fn unseal(&self, tag: Tag, sealed: &[u8], out: &mut [u8])
        requires lengths { length sealed.now ≡ length out.old }
        requires takes { VaultTakes self.now tag.gfn (length sealed.now) }
        ensures stands { (plain : List ℕ) → StandsInVault self.now tag plain sealed.now → out.new ≡ plain }
        ensures zeros { ((plain : List ℕ) → ¬ IsKept self.now tag plain) → out.new ≡ replicate self.now.size 0 }
    {
        let place = &self.places[tag.gfn as usize];
        if place.is_under(tag) {
            out.copy_from_slice(&place.page);
        } else {
            out.fill(0);
        }
    }
}

/// Writes the sealed page under a tag.
fn write_image(tag: Tag, out: &mut [u8])
    requires { 32 ≤ length out.old }
    ensures { out.new ≡ vault_image (length out.old) tag }
{
    let (front, rest) = out.split_at_mut(32);
    write_tag(tag, front);
    rest.fill(0);
}

//! A sealer writes a page so that it alone reads it again.

ghost use Rattle.std.specs.Prelude.{◌≡◌, ◌≢◌, ◌↔◌, ℕ, List, length};
ghost use Rattle.pef_model.specs.declared.state.Tag.{Tag};

use crate::Tag;

/// Something that seals pages, and unseals them again.
pub trait Seal: Drop {
    /// Unsealing gives the plain page for the sealed page under the tag.
    ghost stands: { Self → Tag → List ℕ → List ℕ → Type 0 };

    /// The sealed page of a plain page under a tag.
    ghost image: { Self → Tag → List ℕ → List ℕ };

    /// Pages of the number, with so many bytes, are sealed and unsealed.
    ghost takes: { Self → ℕ → ℕ → Type 0 };

    /// Writes the sealed page of a plain page under a tag.
    ///
    /// What stands for pages of other numbers stays as it was. It takes no memory.
    fn seal(&mut self, tag: Tag, plain: &[u8], out: &mut [u8])
        requires lengths { length plain.now ≡ length out.old }
        requires takes { takes self.old tag.gfn (length plain.now) }
        ensures image { out.new ≡ image self.old tag plain.now }
        ensures stands { stands self.new tag plain.now out.new }
        ensures others { (other : Tag) (page sealed : List ℕ) → other.gfn ≢ tag.gfn → stands self.new other page sealed ↔ stands self.old other page sealed }
        ensures same_image { image self.new ≡ image self.old }
        ensures same_takes { (gfn size : ℕ) → takes self.new gfn size ↔ takes self.old gfn size };

    /// Writes the plain page of a sealed page, where one stands under the tag.
    ///
    /// Elsewhere it writes some bytes, which are not promised to be a page. It takes no memory.
    fn unseal(&self, tag: Tag, sealed: &[u8], out: &mut [u8])
        requires lengths { length sealed.now ≡ length out.old }
        requires takes { takes self.now tag.gfn (length sealed.now) }
        ensures { (plain : List ℕ) → stands self.now tag plain sealed.now → out.new ≡ plain };
}

/// Seals a page and unseals it again: the page comes back.
pub fn seal_and_unseal<S: Seal>(
    sealer: &mut S,
    tag: Tag,
    plain: &[u8],
    sealed: &mut [u8],
    out: &mut [u8],
)
    requires sealed { length plain.now ≡ length sealed.old }
    requires out { length plain.now ≡ length out.old }
    requires takes { S.takes sealer.old tag.gfn (length plain.now) }
    ensures image { sealed.new ≡ S.image sealer.old tag plain.now }
    ensures page { out.new ≡ plain.now }
{
    sealer.seal(tag, plain, sealed);
    sealer.unseal(tag, sealed, out);
}

//! The laws of sealed pages: each is the contract of a function that does nothing.

ghost use Rattle.pef_seal.specs.SealLaw.{StreamSealsBack, VaultShowsNoPage, VaultTellsTags};

/// Sealed twice under one tag by the stream a page is itself again, so that unsealing is sealing.
#[tactic(auto, using(crate::proofs::Masks::twice))]
pub fn stream_seals_back()
    ensures { StreamSealsBack }
{}

/// The vault's sealed page is decided by the tag: it shows nothing of the page.
pub fn vault_shows_no_page()
    ensures { VaultShowsNoPage }
{}

/// The vault's sealed pages under two tags differ.
#[tactic(auto, using(crate::proofs::Tags::tags_are_told))]
pub fn vault_tells_tags()
    ensures { VaultTellsTags }
{}

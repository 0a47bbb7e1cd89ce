//! Each guest of a machine has a sealer of its own, of the seal that the configuration names.

ghost use Rattle.std.specs.Prelude.{IsTrue, IsFalse, IfOk};
ghost use Rattle.pef_model.specs.Plan.{IsInRange};
ghost use Rattle.pef_core.specs.Start.{IsServed};

use pef_model::Config;
use pef_seal::{Seal, StreamSeal, VaultSeal};
use std::alloc::{AllocError, Global};

/// A stream with the configuration's key for each guest. Refused only where the memory for them is not to be had.
pub fn stream_sealers(alloc: Global, config: &Config) -> Result<Vec<StreamSeal>, AllocError>
    requires range { IsInRange config.now }
    requires stream { IsFalse config.now.vault }
    ensures { IfOk result (λ sealers. IsServed config.now ⟦<StreamSeal as Seal>⟧.image ⟦<StreamSeal as Seal>⟧.takes sealers.items) }
{
    let mut sealers = Vec::new(alloc);
    for _guest in 0..config.guests {
        sealers.push(StreamSeal::build(config.key))?;
    }
    Ok(sealers)
}

/// A vault with a place for each of its pages for each guest. Refused only where the memory for them is not to be had.
pub fn vault_sealers(alloc: Global, config: &Config) -> Result<Vec<VaultSeal>, AllocError>
    requires range { IsInRange config.now }
    requires vault { IsTrue config.now.vault }
    ensures { IfOk result (λ sealers. IsServed config.now ⟦<VaultSeal as Seal>⟧.image ⟦<VaultSeal as Seal>⟧.takes sealers.items) }
{
    let mut sealers = Vec::new(alloc);
    for _guest in 0..config.guests {
        sealers.push(VaultSeal::build(alloc, config.pages, 1 << config.shift)?)?;
    }
    Ok(sealers)
}

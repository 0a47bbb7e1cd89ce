//! A machine is built only for a configuration that passes no limit.

ghost use Rattle.std.specs.Prelude.{◌≡◌};
ghost use Rattle.pef_model.specs.Plan.{IsInRange};
ghost use Rattle.pef_top.specs.Limits.{frames_bytes, pages_bytes, limit_of, checked};

use crate::fault::RunFault;
use pef_model::Config;

/// The most command lines that a script may have. This project's own.
pub const COMMAND_LIMIT: usize = 200_000;

/// The most bytes that all frames of a machine may have, and the most that all pages of its guests may have. This
/// project's own.
pub const MEMORY_LIMIT: u64 = 67_108_864;

/// A limit that is passed.
#[derive(Clone, Copy, Debug, PartialEq, Eq)]
pub enum Limit {
    /// Limit 1: a text has more bytes than a script may have.
    Script,
    /// Limit 2: a script has so many command lines.
    Commands { count: u64 },
    /// Limit 3: the normal and the secure frames have so many bytes.
    Frames { bytes: u64 },
    /// Limit 4: the pages of all guests have so many bytes.
    Pages { bytes: u64 },
}

/// How many bytes the normal and the secure frames have.
fn bytes_of_frames(config: &Config) -> u64
    requires { IsInRange config.now }
    ensures { result ≡ frames_bytes config.now }
{
    u64::from(config.normal + config.secure) << config.shift
}

/// How many bytes the pages of all guests have.
fn bytes_of_pages(config: &Config) -> u64
    requires { IsInRange config.now }
    ensures { result ≡ pages_bytes config.now }
{
    u64::from(u32::from(config.guests) * config.pages) << config.shift
}

/// Refuses so many command lines and a configuration that pass one of limits 2 to 4, by the first of them.
pub fn check_limits(count: usize, config: &Config) -> Result<(), RunFault>
    requires { IsInRange config.now }
    ensures { result ≡ checked (limit_of count config.now) }
{
    if count > COMMAND_LIMIT {
        return Err(RunFault::Limit(Limit::Commands {
            count: count as u64,
        }));
    }
    let frames = bytes_of_frames(config);
    let pages = bytes_of_pages(config);
    if frames > MEMORY_LIMIT {
        Err(RunFault::Limit(Limit::Frames { bytes: frames }))
    } else if pages > MEMORY_LIMIT {
        Err(RunFault::Limit(Limit::Pages { bytes: pages }))
    } else {
        Ok(())
    }
}

#[cfg(test)]
mod tests;

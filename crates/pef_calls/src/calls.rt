//! The table of hypercalls.

ghost use Rattle.std.specs.Prelude.{◌≡◌};
ghost use Rattle.pef_model.specs.declared.hypercall.TheConstants.{HCALLS};

use crate::table::Table;
use pef_model::HCALLS;

/// The table of hypercalls.
pub fn hcalls() -> Table<18>
    ensures { result ≡ HCALLS }
{
    Table { rows: HCALLS }
}

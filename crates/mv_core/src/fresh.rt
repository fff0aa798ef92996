//! Views that aren't stale.

ghost use Rattle.std.specs.Prelude.{◌≡◌};
ghost use Rattle.mv_view.specs.declared.view.Refused.TheVariants as refused;

use mv_values::memory::NoMemory;
use mv_view::view::Refused;

/// Returns the error of a view that isn't stale.
pub fn no_memory(why: Refused) -> NoMemory
    requires { why ≡ refused.NoMemory }
{
    match why {
        Refused::NoMemory => NoMemory,
        Refused::Stale { .. } => unreachable!(),
    }
}

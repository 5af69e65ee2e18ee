ghost use Rattle.std.specs.Prelude.{◌≡◌, string_bytes, IfOk};
ghost use Rattle.carton_setup.specs.Printed.{moment_text as moment_text_of};

use carton_base::Moment;
use std::alloc::{AllocError, Global};

/// A moment as a fraction.
pub fn moment_text(alloc: Global, moment: Moment) -> Result<String, AllocError>
    ensures { IfOk result (λ text. string_bytes text ≡ moment_text_of moment) }
{
    let (num, den) = (moment.num, moment.den);
    format!(in alloc; "{num}/{den}")
}

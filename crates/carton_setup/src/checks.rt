ghost use Rattle.std.specs.Prelude.{◌≡◌, string_bytes, IfOk};
ghost use Rattle.carton_setup.specs.Checks.{blocked_text as blocked_text_of};
ghost use Rattle.carton_setup.specs.Checks.{checked_text as checked_text_of};
ghost use Rattle.carton_setup.specs.Printed.{line};

use crate::moment::moment_text;
use carton_base::{Moment, PanelId};
use carton_check::Checked;
use std::alloc::{AllocError, Global};

// The text of a move in which two panels aren't parted well, with its line feed.
fn blocked_text(
    alloc: Global,
    step: u32,
    a: PanelId,
    b: PanelId,
    moment: Moment,
) -> Result<String, AllocError>
    ensures { IfOk result (λ text. string_bytes text ≡ line (blocked_text_of step a b moment)) }
{
    let moment = moment_text(alloc, moment)?;
    format!(in alloc;
        "blocked move {step} panels {} {} moment {moment}\n",
        a.0, b.0
    )
}

/// What is told of a plan, for a task of this stride, in stops, with its line feed.
pub fn checked_text(alloc: Global, stride: u8, checked: Checked) -> Result<String, AllocError>
    ensures { IfOk result (λ text. string_bytes text ≡ line (checked_text_of stride checked)) }
{
    match checked {
        Checked::WrongCreases => String::from_str(alloc, "wrong creases\n"),
        Checked::WrongStart => String::from_str(alloc, "wrong start\n"),
        Checked::WrongEnd => String::from_str(alloc, "wrong end\n"),
        Checked::NotOneStop(step) if stride == 1 => { format!(in alloc; "not one stop {step}\n") }
        Checked::NotOneStop(step) => format!(in alloc; "past stride {step}\n"),
        Checked::Blocked { step, a, b, moment } => blocked_text(alloc, step, a, b, moment),
        Checked::Holds(moves) => format!(in alloc; "holds {moves}\n"),
    }
}

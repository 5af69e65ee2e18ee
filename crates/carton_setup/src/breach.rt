ghost use Rattle.std.specs.Prelude.{◌≡◌, Option};
ghost use Rattle.carton_setup.specs.declared.refusal.Rule.{Rule};

use crate::refusal::Rule;

/// An error of a step that looks at a file.
pub trait Breach: Copy {
    // The rule that the file breaks; none where memory was wanted.
    ghost broken: { Self → Option Rule };

    /// The rule that the file breaks; None where memory was wanted.
    fn rule(self) -> Option<Rule>
        ensures { result ≡ broken self };
}

ghost use Rattle.std.specs.Prelude.{◌≡◌, MatchOption};
ghost use Rattle.carton_words.specs.Rows.{verb_in};
ghost use Rattle.carton_words.specs.Table.{row_of as row_in, verbs as verbs_in};

use crate::kinds::FileKind;

/// What a command does.
#[derive(Clone, Copy, Debug, PartialEq, Eq)]
pub enum Verb {
    Flat,
    Pose,
    Plan,
    Check,
    Clearance,
    Make,
    Fixture,
    Verify,
}

/// What a word behind a command's name stands for: the name of a file of a kind, a margin, an end of a
/// task, or how many dielines are made.
#[derive(Clone, Copy, Debug, PartialEq, Eq)]
pub enum Slot {
    File(FileKind),
    Margin,
    End,
    Count,
}

/// A command's name, and what stands behind it, in the order of the words. Its files are read in that
/// order.
#[derive(Clone, Copy, Debug)]
pub struct Row {
    pub name: &'static str,
    pub slots: &'static [Slot],
}

/// Each command, once.
pub const VERBS: [Verb; 8] = [
    Verb::Flat,
    Verb::Pose,
    Verb::Plan,
    Verb::Check,
    Verb::Clearance,
    Verb::Make,
    Verb::Fixture,
    Verb::Verify,
];

/// The table of the commands.
pub fn row_of(verb: Verb) -> Row
    ensures word { result.name.now ≡ (row_in verb).word }
    ensures slots { result.slots.now ≡ (row_in verb).slots }
{
    match verb {
        Verb::Flat => Row {
            name: "flat",
            slots: &[Slot::File(FileKind::Dieline), Slot::Margin],
        },
        Verb::Pose => Row {
            name: "pose",
            slots: &[
                Slot::File(FileKind::Dieline),
                Slot::File(FileKind::Job),
                Slot::End,
            ],
        },
        Verb::Plan => Row {
            name: "plan",
            slots: &[Slot::File(FileKind::Dieline), Slot::File(FileKind::Job)],
        },
        Verb::Check => Row {
            name: "check",
            slots: &[
                Slot::File(FileKind::Dieline),
                Slot::File(FileKind::Job),
                Slot::File(FileKind::Plan),
            ],
        },
        Verb::Clearance => Row {
            name: "clearance",
            slots: &[
                Slot::File(FileKind::Dieline),
                Slot::File(FileKind::Job),
                Slot::File(FileKind::Plan),
            ],
        },
        Verb::Make => Row {
            name: "make",
            slots: &[Slot::Count],
        },
        Verb::Fixture => Row {
            name: "fixture",
            slots: &[
                Slot::File(FileKind::Dieline),
                Slot::File(FileKind::Job),
                Slot::File(FileKind::Plan),
                Slot::File(FileKind::Catalogue),
            ],
        },
        Verb::Verify => Row {
            name: "verify",
            slots: &[
                Slot::File(FileKind::Dieline),
                Slot::File(FileKind::Job),
                Slot::File(FileKind::Plan),
                Slot::File(FileKind::Catalogue),
                Slot::File(FileKind::Fixture),
            ],
        },
    }
}

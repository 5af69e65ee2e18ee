use carton_base::{Listed, Moment, PanelId};
use carton_check::Checked;
use carton_fixture_text::Fixture;
use carton_guide::End;
use carton_stroke::BodyNote;

/// An end of a guide's band, at a moment of a move of its window, at which bodies hold none of its probes
/// deeper than the slack. Guides are counted from 0 in the order of the catalogue, and steps are moves of
/// the plan, from 0 on.
#[derive(Clone, Copy, Debug, PartialEq, Eq)]
pub struct UnheldEnd {
    pub guide: u32,
    pub end: End,
    pub step: u32,
    pub moment: Moment,
}

/// What came of making a fixture.
#[derive(Debug, Drop, PartialEq)]
pub enum Compiled {
    /// The plan doesn't do what the task asks: the check's answer, which isn't `Holds`.
    PlanFails(Checked),
    /// A fixture of candidates that the planned panels clear, which together hold every guide, and of
    /// which none can be left out.
    Made(Fixture),
    /// The candidates that are noted `Clears` don't hold every guide: a note on each candidate, in their
    /// order, and an end that they don't hold.
    Refused {
        bodies: Listed<BodyNote>,
        unheld: UnheldEnd,
    },
    /// Memory was wanted and not had.
    Memory,
}

/// What is told of a fixture: the first of these that applies.
#[derive(Clone, Copy, Debug, PartialEq, Eq)]
pub enum Verified {
    /// The plan doesn't do what the task asks: the check's answer, which isn't `Holds`.
    PlanFails(Checked),
    /// The fixture's stroke isn't the catalogue's.
    OtherStroke,
    /// The first place of the fixture whose body isn't the candidate with its number.
    NotCandidate(u32),
    /// The body with this number isn't parted from the panel by more than the slack, at this moment of
    /// this move; for a plan of one state the step is 0 and the moment 0/1.
    Touches {
        id: u16,
        panel: PanelId,
        step: u32,
        moment: Moment,
    },
    /// An end at which the bodies of the fixture hold no probe deeper than the slack.
    Unheld(UnheldEnd),
    /// The fixture is good, and has so many bodies.
    Holds(u32),
}

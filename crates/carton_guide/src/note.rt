use carton_base::Moment;

/// An end of a guide's band: there the fold of the guided joint is smaller by the band, or greater.
#[derive(Clone, Copy, Debug, PartialEq, Eq)]
pub enum End {
    Under,
    Over,
}

/// What is told of a guide.
#[derive(Clone, Copy, Debug, PartialEq, Eq)]
pub enum GuideNote {
    /// At every moment of the window's moves, at both ends of the band, a point of the flap lies in a
    /// chosen body.
    Held,
    /// At this moment of this move, at this end, no probe lies deeper than the slack in a chosen body.
    Unheld { end: End, step: u32, moment: Moment },
}

use carton_base::PanelId;
use carton_text::Plan;

/// How a search ends.
#[derive(Debug, Drop)]
pub enum SearchEnd {
    /// A plan with fewest moves.
    Found(Plan),
    /// At the start panels a < b, which share no crease, aren't parted by more than half the slack.
    StartBlocked { a: PanelId, b: PanelId },
    /// No path keeps all panels parted by more than the slack.
    NoPath,
    /// The turns are used up, or the number of a plan's moves. No path that keeps all panels parted
    /// by more than the slack has fewer than so many moves.
    OutOfTurns { moves: u32 },
    Memory,
}

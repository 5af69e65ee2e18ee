ghost use Rattle.carton_stroke.specs.Notes.{SlackClearIsTold};

/// A box from which each panel stays parted by more than the slack is told to clear the plan.
pub fn slack_clear_is_told()
    ensures { SlackClearIsTold }
{}

ghost use Rattle.carton_part.specs.Laws.{CornersPartPanels, PartedByLess};
ghost use Rattle.carton_part.specs.Meeting.{PartedDoNotMeet};

/// Two panels are parted in a frame exactly where the corners of their shrunk panels are, at every
/// moment of a move: no other point lies farther along a direction than a corner does.
pub fn corners_part_panels()
    ensures { CornersPartPanels }
{}

/// Panels that are parted by more than so many halves of a unit are parted by more than fewer.
pub fn parted_by_less()
    ensures { PartedByLess }
{}

/// Where two panels are parted, no point of the one stands where a point of the other does, however
/// the joints are folded. It doesn't matter in which frame they are parted.
pub fn parted_panels_do_not_meet()
    ensures { PartedDoNotMeet }
{}

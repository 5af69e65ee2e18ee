ghost use Rattle.carton_place.specs.Dependence.{DependsOnItsJoints};

/// Where a point stands in the frame of another panel depends on the joints between the two alone: it
/// is the same in two moves that move these joints alike, whatever else they move.
pub fn depends_on_its_joints()
    ensures { DependsOnItsJoints }
{}

ghost use Rattle.std.specs.Prelude.{◌≡◌, ℕ, ◌<◌, ◌≤◌, ◌^◌, ◌+◌, ◌*◌, length, List, ℤ, All};
ghost use Rattle.carton_base.specs.Moments.{IsMoment};
ghost use Rattle.carton_base.specs.declared.limits.TheConstants.{LONGEST_PATH};
ghost use Rattle.carton_model.specs.Parting.{Position};
ghost use Rattle.carton_model.specs.Turning.{IsTurn};
ghost use Rattle.carton_place.specs.Held.{HoldsPosition, IsSwingWithin, greatest};
ghost use Rattle.carton_enclose.specs.declared.space.Space.{Space};
ghost use Rattle.carton_tree.specs.Cartons.{AreStarts};
ghost use Rattle.carton_reach.specs.Beyond.{Spots};
ghost use Rattle.carton_reach.specs.Corners.{IsAlong, IsReachAt, AreReachesAt, AreWidened};
ghost use Rattle.carton_reach.specs.Reaches.{AreReaches};
ghost use Rattle.carton_reach.specs.Spots.{shape_at};
ghost use Rattle.carton_reach.specs.Starts.{AreTurnedFrom, IsNearStart, IsTurnedFrom};

use crate::reach::{Reach, Reaches};
use carton_base::{PanelId, Turn};
use carton_enclose::{Enclose, Space};
use carton_place::{Swing, place_from};
use carton_tree::{Carton, Start};

// Where a corner stands after the turns, by one swing for each.
fn corner_at<E: Enclose>(turns: &[Turn], swings: &[Swing], start: Start) -> Space<E>
    requires count { length turns.now ≤ LONGEST_PATH }
    requires turns { All IsTurn turns.now }
    requires one_each { length swings.now ≡ length turns.now }
    requires near { IsNearStart start }
    ensures holds { (m d : ℕ) (p : Position) → IsMoment m d → IsTurnedFrom turns.now swings.now start m d p
        → HoldsPosition E.holds result m d p }
    ensures size { greatest E.size result ≤ 2 ^ 63 }
    ensures close { (e : ℕ) → 2 ≤ e → All (IsSwingWithin e) swings.now
        → E.spread result.x + E.spread result.y + E.spread result.z ≤ 3 * 2 ^ 27 * e }
{
    place_from(turns, swings, start.x, start.y)
}

// How far one corner reaches, by how far it lies along an axis.
fn reach_of<E: Enclose>(along: E) -> Reach
    requires small { E.size along ≤ 2 ^ 65 }
    ensures { (at : Space E) (v : List ℤ) → IsAlong E.holds E.size E.spread at v along
        → IsReachAt E.holds E.spread at v result }
{
    let low = along.low();
    let high = along.high();
    Reach {
        least_low: low,
        least_high: high,
        greatest_low: low,
        greatest_high: high,
    }
}

// How far one corner reaches along each axis, in the order of the axes. Sums and differences of two
// parts serve several axes.
fn reaches_at<E: Enclose>(at: Space<E>) -> [Reach; 13]
    requires { greatest E.size at ≤ 2 ^ 63 }
    ensures reaches { AreReachesAt E.holds E.spread at result }
    ensures length { length result ≡ 13 }
{
    let (x, y, z) = (at.x, at.y, at.z);
    let up = y.add(z);
    let down = y.sub(z);
    [
        reach_of(z),
        reach_of(down),
        reach_of(y),
        reach_of(up),
        reach_of(x.sub(up)),
        reach_of(x.sub(y)),
        reach_of(x.sub(down)),
        reach_of(x.sub(z)),
        reach_of(x),
        reach_of(x.add(z)),
        reach_of(x.add(down)),
        reach_of(x.add(y)),
        reach_of(x.add(up)),
    ]
}

impl Reaches {
    // How far one corner reaches along each axis.
    pub(crate) fn of_corner<E: Enclose>(at: Space<E>) -> Reaches
        requires { greatest E.size at ≤ 2 ^ 63 }
        ensures { AreReachesAt E.holds E.spread at result.axes }
    {
        Reaches {
            axes: reaches_at(at),
        }
    }

    // Takes one corner more into the reaches.
    pub(crate) fn widen<E: Enclose>(&mut self, at: Space<E>)
        requires { greatest E.size at ≤ 2 ^ 63 }
        ensures { AreWidened E.holds E.spread at self.old.axes self.new.axes }
    {
        let more = reaches_at(at);
        for a in 0..13 {
            self.axes[a] = self.axes[a].joined(more[a]);
        }
    }
}

// Where the corners of the shrunk panel stand in its own frame.
pub(crate) fn starts_of(carton: &Carton, panel: PanelId) -> &[Start]
    requires { panel.0 < length carton.now.panels }
    ensures starts { AreStarts (shape_at carton.now panel.0).shrunk result.now }
    ensures some { 0 < length result.now }
    ensures near { All IsNearStart result.now }
{
    let corners = carton.panel(panel).shrunk();
    &carton.starts(panel)[..corners.len()]
}

// How far the corners that stand at these starts reach after the turns, by one swing for each.
pub(crate) fn reaches_from<E: Enclose>(
    turns: &[Turn],
    swings: &[Swing],
    starts: &[Start],
) -> Reaches
    requires count { length turns.now ≤ LONGEST_PATH }
    requires turns { All IsTurn turns.now }
    requires one_each { length swings.now ≡ length turns.now }
    requires some { 0 < length starts.now }
    requires near { All IsNearStart starts.now }
    ensures { (spots : Spots) (index depth : ℕ)
        → AreTurnedFrom turns.now swings.now starts.now spots index depth
        → AreReaches spots 0 (length starts.now) index depth result.axes }
{
    let mut all = Reaches::of_corner::<E>(corner_at(turns, swings, starts[0]));
    for k in 1..starts.len() {
        all.widen::<E>(corner_at(turns, swings, starts[k]));
    }
    all
}

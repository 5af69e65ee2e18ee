ghost use Rattle.std.specs.Prelude.{◌≡◌, ◌<◌, ◌≤◌, length, All, pos};
ghost use Rattle.carton_base.specs.declared.limits.TheConstants.{MOST_HALVINGS, MOST_STATES};
ghost use Rattle.carton_bodies.specs.Bodies.{IsInBody, IsDeeper};
ghost use Rattle.carton_bodies.specs.Boxes.{IsBox, IsStroke, faces};
ghost use Rattle.carton_bodies.specs.Depths.{ForEach};
ghost use Rattle.carton_guide.specs.Holding.{IsInSome, IsDeepInNone};
ghost use Rattle.carton_bodies.specs.Spots.{IsSmall, IsNarrow};

use carton_base::{Cuboid, Piece, UNIT};
use carton_bodies::{Spot, depth_in, faces_of};
use carton_part::Sight;

/// Bodies that move with a stroke, of which those are chosen whose entry of `chosen` is true. Whoever
/// is well held lies deeper than the slack in one.
#[derive(Clone, Copy)]
pub struct Holders<'a> {
    pub stroke: [i32; 3],
    pub bodies: &'a [Cuboid],
    pub chosen: &'a [bool],
    pub slack: u16,
    pub ghost in_range: { IsStroke stroke },
    pub ghost boxes: { All IsBox bodies.now },
    pub ghost one_each: { length chosen.now ≡ length bodies.now },
    pub ghost some_slack: { 1 ≤ slack },
}

// What one body tells of a spot over the piece of this move.
fn look_in(
    body: &Cuboid,
    stroke: [i32; 3],
    slack: u16,
    step: u32,
    piece: Piece,
    spot: &Spot,
) -> Sight
    requires body { IsBox body.now }
    requires stroke { IsStroke stroke }
    requires slack { 1 ≤ slack }
    requires step { step < MOST_STATES }
    requires small { IsSmall spot.now }
    requires narrow { piece.depth ≡ 36 → IsNarrow spot.now }
    ensures good { result ≡ Sight.Good
        → ForEach spot.now piece.index piece.depth (λ n d q. IsInBody (faces body.now) stroke step n d q) }
    ensures bad { result ≡ Sight.Bad
        → ForEach spot.now piece.index piece.depth (λ n d q.
        ¬ (IsDeeper (pos slack) (faces body.now) stroke step n d q)) }
    ensures open { result ≡ Sight.Open → piece.depth < MOST_HALVINGS }
{
    let depth = depth_in(&faces_of(body), stroke, step, piece, spot);
    if depth.lo >= 0 {
        return Sight::Good;
    }
    if depth.hi <= i128::from(slack) * UNIT {
        return Sight::Bad;
    }
    Sight::Open
}

/// What the chosen bodies tell of a spot over the piece of this move.
pub fn look_at(holders: &Holders, step: u32, piece: Piece, spot: &Spot) -> Sight
    requires step { step < MOST_STATES }
    requires small { IsSmall spot.now }
    requires narrow { piece.depth ≡ 36 → IsNarrow spot.now }
    ensures good { result ≡ Sight.Good
        → ForEach spot.now piece.index piece.depth (IsInSome holders.now.stroke holders.now.bodies.now
        holders.now.chosen.now step) }
    ensures bad { result ≡ Sight.Bad
        → ForEach spot.now piece.index piece.depth (IsDeepInNone (pos holders.now.slack) holders.now.stroke
        holders.now.bodies.now holders.now.chosen.now step) }
    ensures open { result ≡ Sight.Open → piece.depth < MOST_HALVINGS }
{
    let mut seen = Sight::Bad;
    for k in 0..holders.bodies.len() {
        if holders.chosen[k] {
            let body = &holders.bodies[k];
            match look_in(body, holders.stroke, holders.slack, step, piece, spot) {
                Sight::Good => return Sight::Good,
                Sight::Bad => {}
                Sight::Open => seen = Sight::Open,
            }
        }
    }
    seen
}

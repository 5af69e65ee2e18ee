ghost use Rattle.std.specs.Prelude.{◌≡◌, ◌≤◌, ◌^◌, ℤ, pos, ◌+ℤ◌, ◌-ℤ◌, ◌*ℤ◌, unsigned_abs};
ghost use Rattle.carton_base.specs.declared.limits.TheConstants.{FARTHEST, WIDEST_MARGIN};
ghost use Rattle.carton_model.specs.Dielines.{IsNear};
ghost use Rattle.carton_model.specs.Points.{IsSmall};
ghost use Rattle.carton_panels.specs.Insets.{IsInsetLine};

use carton_base::{Point, Triple, difference, product, sum};

// How far a place lies past another along an axis.
fn run(from: i32, to: i32) -> i128
    requires from { unsigned_abs from ≤ FARTHEST }
    requires to { unsigned_abs to ≤ FARTHEST }
    ensures value { result ≡ to -ℤ from }
    ensures size { unsigned_abs result ≤ 2 ^ 14 }
{
    difference::<13>(i128::from(to), i128::from(from))
}

// The greatest change, over the points that lie the margin away along both axes, of right*y - up*x.
fn inwards(margin: u16, right: i128, up: i128) -> i128
    requires margin { margin ≤ WIDEST_MARGIN }
    requires right { unsigned_abs right ≤ 2 ^ 14 }
    requires up { unsigned_abs up ≤ 2 ^ 14 }
    ensures value { result ≡ pos margin *ℤ (pos (unsigned_abs right) +ℤ pos (unsigned_abs up)) }
    ensures size { unsigned_abs result ≤ 2 ^ 25 }
{
    product::<10, 15>(i128::from(margin), sum::<14>(right.abs(), up.abs()))
}

// Twice the area of the triangle of the origin and a side: e of the side's line, before any margin.
fn reach(from: Point, right: i128, up: i128) -> i128
    requires from { IsNear from }
    requires right { unsigned_abs right ≤ 2 ^ 14 }
    requires up { unsigned_abs up ≤ 2 ^ 14 }
    ensures value { result ≡ from.x *ℤ up -ℤ from.y *ℤ right }
    ensures size { unsigned_abs result ≤ 2 ^ 28 }
{
    difference::<27>(
        product::<13, 14>(i128::from(from.x), up),
        product::<13, 14>(i128::from(from.y), right),
    )
}

/// The half plane of the flat points (x/w, y/w) with a*x + b*y <= e*w.
#[derive(Clone, Copy, Debug)]
pub struct Line {
    pub a: i128,
    pub b: i128,
    pub e: i128,
    pub ghost slope_small: { (unsigned_abs a ≤ 2 ^ 14) × (unsigned_abs b ≤ 2 ^ 14) },
    pub ghost e_small: { unsigned_abs e ≤ 2 ^ 30 },
}

impl Line {
    /// The half plane on the left of a side, moved inwards by the margin along both axes.
    pub fn inset(from: Point, to: Point, margin: u16) -> Line
        requires from { IsNear from }
        requires to { IsNear to }
        requires margin { margin ≤ WIDEST_MARGIN }
        ensures { IsInsetLine margin (record { from = from; to = to }) result.a result.b result.e }
    {
        let right = run(from.x, to.x);
        let up = run(from.y, to.y);
        Line {
            a: up,
            b: run(to.x, from.x),
            e: difference::<28>(reach(from, right, up), inwards(margin, right, up)),
        }
    }

    /// How far the flat point lies within the half plane, times its w: 0 on the line.
    pub fn gap(self, t: Triple) -> i128
        requires { IsSmall t }
        ensures { result ≡ self.e *ℤ t.w -ℤ self.a *ℤ t.x -ℤ self.b *ℤ t.y }
    {
        let forward = product::<30, 45>(self.e, i128::from(t.w));
        let along_x = product::<14, 45>(self.a, i128::from(t.x));
        let along_y = product::<14, 45>(self.b, i128::from(t.y));
        difference::<76>(difference::<75>(forward, along_x), along_y)
    }
}

/// The place of a vertex as a flat point.
pub fn vertex(place: Point) -> Triple
    requires { IsNear place }
    ensures x { result.x ≡ place.x }
    ensures y { result.y ≡ place.y }
    ensures w { result.w ≡ pos 1 }
    ensures small { IsSmall result }
{
    Triple {
        x: i64::from(place.x),
        y: i64::from(place.y),
        w: 1,
    }
}

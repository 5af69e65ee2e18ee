ghost use Rattle.std.specs.Prelude.{◌≡◌};
ghost use Rattle.carton_bodies.specs.Boxes.{IsBox, faces, side};
ghost use Rattle.carton_bodies.specs.HalfSpaces.{side_of, sides_of};

use carton_base::Cuboid;

/// A half-space that shifts with the stroke: at the start of move 0 all places p with (u, v, s).p at
/// most the offset, in dieline units.
#[derive(Clone, Copy, Debug, PartialEq, Eq)]
pub struct HalfSpace {
    pub u: i8,
    pub v: i8,
    pub s: i8,
    pub offset: i32,
}

fn face_of(u: i8, v: i8, s: i8, offset: i32) -> HalfSpace
    ensures { side_of result ≡ side u v s offset }
{
    HalfSpace { u, v, s, offset }
}

/// The six faces of a box.
pub fn faces_of(body: &Cuboid) -> [HalfSpace; 6]
    requires { IsBox body.now }
    ensures { sides_of result ≡ faces body.now }
{
    [
        face_of(1, 0, 0, body.x1),
        face_of(-1, 0, 0, -body.x0),
        face_of(0, 1, 0, body.y1),
        face_of(0, -1, 0, -body.y0),
        face_of(0, 0, 1, body.z1),
        face_of(0, 0, -1, -body.z0),
    ]
}

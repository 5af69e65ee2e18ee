ghost use Rattle.std.specs.Prelude.{◌^◌, ◌<◌, ◌≤◌, ◌*◌, ◌*ℤ◌, unsigned_abs};
ghost use Rattle.carton_enclose.specs.Held.{size_of, Meet};
ghost use Rattle.carton_enclose.specs.Points.{AreSigns};

use carton_base::{Bounds, Piece, ceil_div, ceil_mul, floor_div, floor_mul};
use carton_enclose::{Enclose, Space, dot3, turn_pair};
use carton_fix::Fix;

const UNIT: i128 = 1 << 40;

// The bounds of an enclosure, and how far apart they are.
fn ends<E: Enclose>(e: E) -> (i128, i128, i128) {
    (e.low(), e.high(), e.spread())
}

// Sum, difference, negation and product of two enclosures.
fn combined<E: Enclose>(a: E, b: E) -> [E; 4]
    requires left { E.size a ≤ 2 ^ 60 }
    requires right { E.size b ≤ 2 ^ 60 }
{
    [a.add(b), a.sub(b), a.neg(), a.mul(b)]
}

// A whole number, a number within bounds, and a ramp that starts in the bounds and stays there.
fn made<E: Enclose>(n: i64, all: Bounds) -> [E; 3]
    requires whole { unsigned_abs n ≤ 2 ^ 31 }
    requires all { size_of all.lo all.hi ≤ 2 ^ 84 }
    requires start { Meet all.lo all.hi all.lo all.hi }
{
    [E::whole(n), E::between(all), E::ramp(all, all, all)]
}

#[test]
fn products_round_outward(rt: HostRuntime) {
    let least = Fix { lo: -1, hi: -1 }.mul(Fix { lo: 1, hi: 1 });
    assert_eq!(rt; least.low(), -1);
    assert!(rt; least.high() == 0 || least.high() == 1);
}

#[test]
fn quotients_round_down_and_up(rt: HostRuntime) {
    for (a, b, down, up) in [
        (-7, 2, -4, -3),
        (7, 2, 3, 4),
        (-8, 2, -4, -4),
        (-1, i128::MAX, -1, 0),
        (i128::MIN, 1, i128::MIN, i128::MIN),
        (i128::MIN, i128::MAX, -2, -1),
        (i128::MAX, i128::MAX, 1, 1),
    ] {
        let positive = b > 0;
        assert!(rt; positive);
        assert_eq!(rt; floor_div(a, b), down, "{a} / {b}");
        assert_eq!(rt; ceil_div(a, b), up, "{a} / {b}");
    }
}

#[test]
fn scaled_products_round_down_and_up(rt: HostRuntime) {
    assert_eq!(rt; (floor_mul(-1, 1), ceil_mul(-1, 1)), (-1, 0));
    assert_eq!(rt;
        (floor_mul(-3 * UNIT, 5), ceil_mul(-3 * UNIT, 5)),
        (-15, -15)
    );
    assert_eq!(rt;
        (
            floor_mul(UNIT + 1, -UNIT - 1),
            ceil_mul(UNIT + 1, -UNIT - 1)
        ),
        (-UNIT - 3, -UNIT - 2)
    );
    let most = (1i128 << 126) - 1;
    assert_eq!(rt;
        (floor_mul(most, 1), ceil_mul(most, 1)),
        ((1 << 86) - 1, 1 << 86)
    );
    assert_eq!(rt;
        (floor_mul(-most, 1), ceil_mul(-most, 1)),
        (-(1 << 86), 1 - (1 << 86))
    );
}

#[test]
fn each_call_bounds_what_it_makes(rt: HostRuntime) {
    let all = Bounds { lo: -1, hi: 4 };
    let [whole, between, ramp] = made::<Fix>(-(1 << 31), all);
    assert_eq!(rt; ends(whole), (-(1 << 71), -(1 << 71), 0));
    assert_eq!(rt; ends(between), (-1, 4, 5));
    assert_eq!(rt; ends(ramp), (-1, 4, 5));
    let a = Fix {
        lo: -2 * UNIT,
        hi: 3 * UNIT,
    };
    let b = Fix {
        lo: 5 * UNIT,
        hi: 7 * UNIT,
    };
    let [sum, difference, negation, product] = combined(a, b);
    assert_eq!(rt; ends(sum), (3 * UNIT, 10 * UNIT, 7 * UNIT));
    assert_eq!(rt; ends(difference), (-9 * UNIT, -2 * UNIT, 7 * UNIT));
    assert_eq!(rt; ends(negation), (-3 * UNIT, 2 * UNIT, 5 * UNIT));
    assert_eq!(rt; ends(product), (-14 * UNIT, 21 * UNIT, 35 * UNIT));
}

#[test]
fn directions_and_turns_combine_parts(rt: HostRuntime) {
    let r = Fix {
        lo: 2 * UNIT,
        hi: 3 * UNIT,
    };
    let z = Fix {
        lo: 5 * UNIT,
        hi: 7 * UNIT,
    };
    let p = Space {
        x: r,
        y: z,
        z: Fix::whole(100),
    };
    assert_eq!(rt; ends(dot3([1, -1, 0], p)), (-5 * UNIT, -2 * UNIT, 3 * UNIT));
    assert_eq!(rt; ends(dot3([-1, 0, 1], p)), (97 * UNIT, 98 * UNIT, UNIT));
    let (first, second) = turn_pair(r, z, Fix::whole(0), Fix::whole(1));
    assert_eq!(rt; ends(first), (-7 * UNIT, -5 * UNIT, 2 * UNIT));
    assert_eq!(rt; ends(second), (2 * UNIT, 3 * UNIT, UNIT));
    let (first, second) = turn_pair(r, z, Fix::whole(-1), Fix::whole(1));
    assert_eq!(rt; ends(first), (-10 * UNIT, -7 * UNIT, 3 * UNIT));
    assert_eq!(rt; ends(second), (-5 * UNIT, -2 * UNIT, 3 * UNIT));
}

#[test]
fn halves_share_the_moment_between_them(rt: HostRuntime) {
    let piece = Piece { index: 5, depth: 3 };
    assert_eq!(rt; (piece.first().num, piece.first().den), (5, 8));
    assert_eq!(rt; (piece.last().num, piece.last().den), (6, 8));
    let (first, second) = piece.halves();
    assert_eq!(rt; (first.first().num, first.first().den), (10, 16));
    assert_eq!(rt; first.last(), second.first());
    assert_eq!(rt; (second.last().num, second.last().den), (12, 16));
    assert_eq!(rt;
        (Piece::whole().last().num, Piece::whole().last().den),
        (1, 1)
    );
}

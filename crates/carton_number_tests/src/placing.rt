ghost use Rattle.std.specs.Prelude.{◌≡◌, ℕ, ◌*◌, ◌<◌, ◌≤◌, ◌^◌, length, All, IfSome, replicate, set, pos};
ghost use Rattle.std.specs.Prelude.{◌≤ℤ◌, unsigned_abs};
ghost use Rattle.carton_base.specs.Grid.{IsGrid};
ghost use Rattle.carton_base.specs.declared.limits.TheConstants.{FARTHEST, LONGEST_PATH, MOST_JOINTS};
ghost use Rattle.carton_model.specs.Moves.{IsMotion};
ghost use Rattle.carton_model.specs.Points.{IsNearPoint};
ghost use Rattle.carton_model.specs.Turning.{IsTurn};

use crate::half_turns::{numbers, piece_of};
use carton_base::{FARTHEST, LONGEST_PATH, MOST_JOINTS, Motion, Piece, State, Triple, Turn};
use carton_enclose::Space;
use carton_fix::Fix;
use carton_place::place;

// A joint of a path: its place, past the joints where it is locked, whether it is upright, its line
// and its sign.
struct Joint(u8, bool, i32, i8);

// A place of a joint; None past all of them.
fn place_of(place: u8) -> Option<u8>
    ensures { IfSome result (λ k. k < MOST_JOINTS) }
{
    if (place as usize) < MOST_JOINTS {
        Some(place)
    } else {
        None
    }
}

fn turn_of(joint: &Joint) -> Option<Turn>
    ensures { IfSome result IsTurn }
{
    let Joint(place, upright, at, sign) = *joint;
    if at.unsigned_abs() > FARTHEST {
        return None;
    }
    if sign.unsigned_abs() != 1 {
        return None;
    }
    Some(Turn {
        place: place_of(place),
        upright,
        at,
        sign,
    })
}

// The turns of a path, in the first places.
fn turns_of(joints: &[Joint]) -> Option<[Turn; LONGEST_PATH]>
    ensures length { IfSome result (λ turns. length turns ≡ LONGEST_PATH) }
    ensures turns { IfSome result (All IsTurn) }
{
    if joints.len() > LONGEST_PATH {
        return None;
    }
    let none = turn_of(&Joint(24, true, 0, 1))?;
    let mut turns = [none; LONGEST_PATH];
    for i in 0..joints.len() {
        turns[i] = turn_of(&joints[i])?;
    }
    Some(turns)
}

// The second joint at one stop, and all others at another.
fn stops_at(first: i8, second: i8) -> [i8; MOST_JOINTS]
    ensures { result ≡ set (replicate MOST_JOINTS first) 1 second }
{
    let mut stops = [first; MOST_JOINTS];
    stops[1] = second;
    stops
}

// The move that takes the second joint, and all others, from one stop to another on the grid.
fn motion_of(grid: u8, from: i8, to: i8, second_from: i8, second_to: i8) -> Option<Motion>
    ensures { IfSome result (IsMotion MOST_JOINTS) }
{
    if grid != 8 && grid != 16 {
        return None;
    }
    let most = 2 * grid;
    if from.unsigned_abs() > most || second_from.unsigned_abs() > most {
        return None;
    }
    if to.unsigned_abs() > most || second_to.unsigned_abs() > most {
        return None;
    }
    if to.abs_diff(from) > 4 || second_to.abs_diff(second_from) > 4 {
        return None;
    }
    Some(Motion {
        from: State {
            stops: stops_at(from, second_from),
            grid,
        },
        to: State {
            stops: stops_at(to, second_to),
            grid,
        },
    })
}

// The point (x/w, y/w), where it is a near one.
fn corner_of(x: i64, y: i64, w: i64) -> Option<Triple>
    ensures near { IfSome result IsNearPoint }
    ensures fine { IfSome result (λ t. t.w ≤ℤ pos (2 ^ 45)) }
{
    if w < 1 || w > 1000 {
        return None;
    }
    let most = FARTHEST as u64 * w.unsigned_abs();
    if x.unsigned_abs() > most || y.unsigned_abs() > most {
        return None;
    }
    Some(Triple { x, y, w })
}

// How a corner goes: the depth of the piece; past so many joints of the list, a path of so many;
// the grid; the stops of the first
// and of the second joint before and after, where those of all others are as the first one's; the
// corner; and how wide each bound may be. Then the least and the greatest x, y and z over the piece, by
// sixteenths of it, each rounded outward.
type Row = [&'static str; 4];

fn is_within(part: Fix, want: [i128; 2], widest: i128) -> bool {
    part.lo <= want[0]
        && want[1] <= part.hi
        && part.hi.checked_sub(part.lo).is_some_and(|w| w <= widest)
}

// Past so many joints of the list, a path of so many; the grid; the stops of the first and of the second
// joint before and after; and the corner.
type Course = (usize, usize, u8, (i8, i8), (i8, i8), (i64, i64, i64));

fn stops_of(first: i128, second: i128) -> Option<(i8, i8)> {
    Some((i8::try_from(first).ok()?, i8::try_from(second).ok()?))
}

// The depth of the piece, the course of a corner, and how wide each of its bounds may be.
fn course_of(line: &str) -> Option<(i128, Course, i128)> {
    let [depth, skip, count, grid, a, b, c, d, x, y, w, widest] = numbers::<12>(line)?;
    let skip = usize::try_from(skip).ok()?;
    let count = usize::try_from(count).ok()?;
    let grid = u8::try_from(grid).ok()?;
    let corner = (
        i64::try_from(x).ok()?,
        i64::try_from(y).ok()?,
        i64::try_from(w).ok()?,
    );
    let course = (skip, count, grid, stops_of(a, b)?, stops_of(c, d)?, corner);
    Some((depth, course, widest))
}

// The bounds of a corner; None where it has no such course.
fn placed(course: &Course, piece: Piece) -> Option<Space<Fix>> {
    let (skip, count, grid, from, to, (x, y, w)) = *course;
    let joints = JOINTS.get(skip..)?.get(..count)?;
    let turns = turns_of(joints)?;
    let motion = motion_of(grid, from.0, to.0, from.1, to.1)?;
    let corner = corner_of(x, y, w)?;
    let p = place::<Fix>(turns.get(..joints.len())?, corner, &motion, piece);
    Some(p)
}

// Whether the bounds are as the row says; None where the row isn't one.
fn passes(row: &Row) -> Option<bool> {
    let [course, x, y, z] = *row;
    let (depth, course, widest) = course_of(course)?;
    let space = placed(&course, piece_of(depth)?)?;
    Some(
        is_within(space.x, numbers::<2>(x)?, widest)
            && is_within(space.y, numbers::<2>(y)?, widest)
            && is_within(space.z, numbers::<2>(z)?, widest),
    )
}

const JOINTS: [Joint; 9] = [
    Joint(1, true, 100, 1),
    Joint(1, true, 100, -1),
    Joint(0, false, 50, -1),
    Joint(24, true, -30, 1),
    Joint(1, false, 200, 1),
    Joint(2, true, 300, -1),
    Joint(3, false, -150, 1),
    Joint(4, true, 4000, -1),
    Joint(5, false, 8191, 1),
];

const ROWS: [Row; 20] = [
    // Over whole moves.
    [
        "0 0 1 8 0 4 0 4 200 0 1 206",
        "175921860444160 175921860444160",
        "0 0",
        "87960930222080 87960930222080",
    ],
    [
        "0 1 1 8 0 -4 0 -4 0 0 1 206",
        "43980465111040 43980465111040",
        "0 0",
        "-87960930222080 -87960930222080",
    ],
    [
        "0 2 1 16 5 0 5 0 401 99 3 40",
        "146968054246058 146968054246059",
        "39609808569311 39609808569312",
        "10642959528650 10642959528651",
    ],
    [
        "0 0 1 8 0 6 0 10 200 30 1 61572651155661",
        "79164837199872 140737488355328",
        "32985348833280 32985348833280",
        "105553116266496 109951162777600",
    ],
    [
        "0 1 1 8 0 -6 0 -10 20 30 1 49258120924530",
        "85322102315417 134580223239783",
        "32985348833280 32985348833280",
        "-87960930222080 -84442493013196",
    ],
    [
        "0 2 1 8 -2 0 2 0 401 99 2 517417236607",
        "220452081369088 220452081369088",
        "54425825574912 54490502729488",
        "-258708618301 258708618301",
    ],
    [
        "0 1 2 16 14 1 18 -3 20 -30 1 66169884778606",
        "21990232555520 27964937249850",
        "35068711323178 54154762130160",
        "87727824308529 91412394339995",
    ],
    [
        "0 2 3 8 -1 6 -1 10 120 40 1 98435047144572",
        "131941395333120 131941395333120",
        "173337162340711 271663949878194",
        "-175583549174076 -167802389962121",
    ],
    [
        "0 1 8 8 0 -10 4 -6 8191 -8191 1 84900899276665210",
        "-2380970439716373 11724800255804427",
        "2914344836424183 11001873436419661",
        "2957303444601615 9024201917673318",
    ],
    [
        "0 1 8 16 29 -18 32 -14 1 2 3 5284092264555273",
        "8052163336280076 8232846524823150",
        "17571061087958743 18654916400609004",
        "-4577179330548192 124122569439701",
    ],
    // Over the third eighth of a move.
    [
        "3 0 1 8 0 6 0 10 200 30 1 7509037518473",
        "117037412353703 124546449871972",
        "32985348833280 32985348833280",
        "108978143637975 109722574081597",
    ],
    [
        "3 1 2 16 -18 -2 -14 2 20 -30 1 8343332348222",
        "22161863638880 22674753413280",
        "63256716312911 71574144849251",
        "-87742305942848 -87072191603221",
    ],
    [
        "3 2 3 8 -2 10 2 6 120 40 1 13368842734568",
        "131941395333120 131941395333120",
        "232601005760801 245892415250840",
        "-175382497855614 -173670443850320",
    ],
    [
        "3 1 8 8 12 3 16 7 -8191 8191 1 12745324676652687",
        "6583142914114240 6975078876482562",
        "22173866334727318 23895163459003341",
        "-18438826527715198 -16941102758543856",
    ],
    [
        "3 1 8 16 3 0 3 0 7001 -5 7 34575",
        "1216023518350808 1216023518350809",
        "314245140295596 314245140295597",
        "-2260321339765155 -2260321339765154",
    ],
    // Over a finest piece.
    [
        "36 0 1 8 0 6 0 10 200 30 1 1188",
        "79164837199872 79164837200856",
        "32985348833280 32985348833280",
        "105553116266496 105553116266783",
    ],
    [
        "36 1 2 16 -18 -2 -14 2 20 -30 1 1344",
        "24696722716044 24696722716200",
        "21839040350747 21839040351701",
        "-84308366067399 -84308366067180",
    ],
    [
        "36 2 3 8 4 10 4 6 120 40 1 2228",
        "131941395333120 131941395333120",
        "163431408352624 163431408354136",
        "-162199955330042 -162199955329515",
    ],
    [
        "36 1 8 8 12 3 16 7 -8191 8191 1 864573",
        "7036241955251176 7036241955325644",
        "26307278839781552 26307278839833872",
        "-10234764334612399 -10234764334470259",
    ],
    [
        "36 1 8 16 -2 15 2 17 8191 -5 1 356458",
        "-560733369481360 -560733369465753",
        "8571968186359488 8571968186398913",
        "1927928567485836 1927928567556581",
    ],
];

#[test]
fn corners_over_whole_moves_eighths_and_finest_pieces(rt: HostRuntime) {
    for row in &ROWS {
        let [course, ..] = row;
        assert!(rt; passes(row).is_some_and(|is| is), "at {course}");
    }
}

use carton_base::{Bounds, Piece, Stop};
use carton_halfturn::{
    FoldSpan, cos_bounds, cos_slope, cos_start, sin_bounds, sin_slope, sin_start, span,
};

const UNIT: i128 = 1 << 40;

// The span of a joint over a piece, where its stops are those of one move on a grid.
pub fn moved(from: i8, to: i8, grid: u8, piece: Piece) -> Option<FoldSpan> {
    if grid != 8 && grid != 16 {
        return None;
    }
    let most = 2 * grid as i64;
    let first = from as i64;
    let last = to as i64;
    if first < -most || first > most || last < -most || last > most {
        return None;
    }
    let step = last - first;
    if step < -4 {
        return None;
    }
    if step > 4 {
        return None;
    }
    Some(span(Stop(from), Stop(to), grid, piece))
}

// The whole numbers that a row of so many lists; None where it lists other words, or more or fewer.
pub fn numbers<const N: usize>(row: &str) -> Option<[i128; N]> {
    let mut found = [0; N];
    let mut words = row.split(' ');
    for k in 0..N {
        found[k] = words.next()?.parse::<i128>().ok()?;
    }
    if words.next().is_some() {
        return None;
    }
    Some(found)
}

// A move, its third eighth, and the last of its finest pieces, each by its depth.
pub fn piece_of(depth: i128) -> Option<Piece> {
    match depth {
        0 => Some(Piece::whole()),
        3 => Some(Piece { index: 2, depth: 3 }),
        36 => Some(Piece {
            index: 68719476735,
            depth: 36,
        }),
        _ => None,
    }
}

// The bounds lie about lo and hi, both of which a value reaches once rounded outward, and are no
// wider than that.
pub fn covers(b: Bounds, lo: i128, hi: i128, widest: i128) -> bool {
    b.lo <= lo && hi <= b.hi && b.hi.checked_sub(b.lo).is_some_and(|w| w <= widest)
}

#[test]
fn a_fold_of_one_half(rt: HostRuntime) {
    let f = span(Stop(4), Stop(4), 8, Piece::whole());
    assert!(rt; covers(cos_bounds(f), 659706976665, 659706976666, 2));
    assert!(rt; covers(sin_bounds(f), 879609302220, 879609302221, 2));
}

// A stop of sixteenths, then its cosine and its sine, each rounded down.
const STOPS: [(i8, i128, i128); 65] = [
    (-32, -1099511627776, 0),
    (-31, -1090955117055, -136904171552),
    (-30, -1065680500768, -270649016068),
    (-29, -1024827819097, -398313646289),
    (-28, -970157318626, -517417236601),
    (-27, -903868989382, -626056442862),
    (-26, -828399171613, -722966549771),
    (-25, -746225924426, -807510179088),
    (-24, -659706976666, -879609302221),
    (-23, -570963011457, -939641984569),
    (-22, -481808466105, -988325058676),
    (-21, -393724322944, -1026599716120),
    (-20, -307863255778, -1055531162665),
    (-19, -225076497922, -1076227852129),
    (-18, -145952870944, -1089781436380),
    (-17, -70862495762, -1097225740816),
    (-16, 0, -1099511627776),
    (-15, 70862495761, -1097225740816),
    (-14, 145952870943, -1089781436380),
    (-13, 225076497921, -1076227852129),
    (-12, 307863255777, -1055531162665),
    (-11, 393724322943, -1026599716120),
    (-10, 481808466104, -988325058676),
    (-9, 570963011456, -939641984569),
    (-8, 659706976665, -879609302221),
    (-7, 746225924425, -807510179088),
    (-6, 828399171612, -722966549771),
    (-5, 903868989381, -626056442862),
    (-4, 970157318625, -517417236601),
    (-3, 1024827819096, -398313646289),
    (-2, 1065680500767, -270649016068),
    (-1, 1090955117054, -136904171552),
    (0, 1099511627776, 0),
    (1, 1090955117054, 136904171551),
    (2, 1065680500767, 270649016067),
    (3, 1024827819096, 398313646288),
    (4, 970157318625, 517417236600),
    (5, 903868989381, 626056442861),
    (6, 828399171612, 722966549770),
    (7, 746225924425, 807510179087),
    (8, 659706976665, 879609302220),
    (9, 570963011456, 939641984568),
    (10, 481808466104, 988325058675),
    (11, 393724322943, 1026599716119),
    (12, 307863255777, 1055531162664),
    (13, 225076497921, 1076227852128),
    (14, 145952870943, 1089781436379),
    (15, 70862495761, 1097225740815),
    (16, 0, 1099511627776),
    (17, -70862495762, 1097225740815),
    (18, -145952870944, 1089781436379),
    (19, -225076497922, 1076227852128),
    (20, -307863255778, 1055531162664),
    (21, -393724322944, 1026599716119),
    (22, -481808466105, 988325058675),
    (23, -570963011457, 939641984568),
    (24, -659706976666, 879609302220),
    (25, -746225924426, 807510179087),
    (26, -828399171613, 722966549770),
    (27, -903868989382, 626056442861),
    (28, -970157318626, 517417236600),
    (29, -1024827819097, 398313646288),
    (30, -1065680500768, 270649016067),
    (31, -1090955117055, 136904171551),
    (32, -1099511627776, 0),
];

// A value rounded up, where rounded down it is this: those that are whole numbers are exact.
fn up(value: i128) -> i128 {
    if value % UNIT == 0 {
        value
    } else {
        value.saturating_add(1)
    }
}

// A joint that stands still has the values of its stop, and the rate 0.
fn stands(grid: u8, stop: i8, cos: i128, sin: i128) -> bool {
    let Some(f) = moved(stop, stop, grid, Piece::whole()) else {
        return false;
    };
    covers(cos_bounds(f), cos, up(cos), 2)
        && covers(sin_bounds(f), sin, up(sin), 2)
        && covers(cos_start(f), cos, up(cos), 2)
        && covers(sin_start(f), sin, up(sin), 2)
        && covers(cos_slope(f), 0, 0, 16)
        && covers(sin_slope(f), 0, 0, 16)
}

#[test]
fn every_stop_of_eighths(rt: HostRuntime) {
    for (stop, cos, sin) in STOPS.iter().step_by(2) {
        assert!(rt; stands(8, stop / 2, *cos, *sin), "{stop}");
    }
}

#[test]
fn every_stop_of_sixteenths(rt: HostRuntime) {
    for (stop, cos, sin) in STOPS.iter() {
        assert!(rt; stands(16, *stop, *cos, *sin), "{stop}");
    }
}

#[test]
fn greatest_and_least_values_inside(rt: HostRuntime) {
    let flat = span(Stop(-2), Stop(2), 8, Piece::whole());
    assert_eq!(rt; cos_bounds(flat).hi, UNIT);
    let up = span(Stop(10), Stop(6), 8, Piece::whole());
    assert_eq!(rt; sin_bounds(up).hi, UNIT);
    let down = span(Stop(-17), Stop(-15), 16, Piece::whole());
    assert_eq!(rt; sin_bounds(down).lo, -UNIT);
    assert_eq!(rt;
        cos_bounds(span(Stop(16), Stop(15), 8, Piece::whole())).lo,
        -UNIT
    );
}

use carton_base::{Cuboid, EdgeId, Guide, Listed, Point};
use carton_cases::bodies::{LOWER_RAIL, UPPER_RAIL};
use carton_cases::catalogues::RAILS;
use carton_catalogue::{Catalogue, read_catalogue};
use std::alloc::{AllocError, Global};

fn guide(
    alloc: Global,
    first: u16,
    last: u16,
    band: u8,
    probe: Point,
) -> Result<Guide, AllocError> {
    Ok(Guide {
        edge: EdgeId(6),
        first,
        last,
        band,
        probes: Listed::from_vec(vec![in alloc; probe]?),
    })
}

// A box of x and z that reaches over the same y as all of its row.
fn over_y(x: (i32, i32), y: (i32, i32), z: (i32, i32)) -> Cuboid {
    Cuboid {
        x0: x.0,
        x1: x.1,
        y0: y.0,
        y1: y.1,
        z0: z.0,
        z1: z.1,
    }
}

// Whether the text is read as this stroke, these bodies and this guide alone.
fn is_read(
    alloc: Global,
    text: &str,
    stroke: [i32; 3],
    bodies: &[Cuboid],
    guide: Guide,
) -> Result<bool, AllocError> {
    let wanted = Catalogue {
        stroke,
        bodies: Listed::from_vec(Vec::from_slice(alloc, bodies)?),
        guides: Listed::from_vec(vec![in alloc; guide]?),
    };
    Ok(read_catalogue(alloc, text.as_bytes()) == Ok(wanted))
}

#[test]
fn two_rails_and_a_row_of_three_bodies(rt: HostRuntime) -> Result<(), AllocError> {
    let alloc = rt.alloc();
    let rails = guide(alloc, 3, 3, 2, Point { x: 190, y: 50 })?;
    let bodies = [LOWER_RAIL, UPPER_RAIL];
    assert!(rt; is_read(alloc, RAILS, [0, -200, 0], &bodies, rails)?);
    let text =
        "# a row\r\n\r\ncarton catalogue 1\r\nguide 6 0 0 1 150 50\n# more\nrow 3 10 0 -7 0 5 1 6 2 7\r\nend\n\n# done";
    let row = [
        over_y((0, 5), (1, 6), (2, 7)),
        over_y((10, 15), (1, 6), (-5, 0)),
        over_y((20, 25), (1, 6), (-12, -7)),
    ];
    let first = guide(alloc, 0, 0, 1, Point { x: 150, y: 50 })?;
    assert!(rt; is_read(alloc, text, [0, 0, 0], &row, first)?);
    Ok(())
}

#[test]
fn a_guide_of_eight_probes(rt: HostRuntime) -> Result<(), AllocError> {
    let alloc = rt.alloc();
    let text =
        "carton catalogue 1\nguide 2047 4094 0 16 8191 -8191 2 3 4 5 6 7 8 9 10 11 12 13 14 15\nend";
    let Ok(catalogue) = read_catalogue(alloc, text.as_bytes()) else {
        panic!(rt; "a catalogue");
    };
    let guides = catalogue.guides.as_slice();
    assert!(rt; catalogue.bodies.len() == 0 && guides.len() == 1);
    let guide = &guides[0];
    assert!(rt; guide.edge == EdgeId(2047) && guide.first == 4094 && guide.last == 0);
    assert!(rt; guide.band == 16);
    let probes = guide.probes.as_slice();
    assert!(rt; probes.len() == 8);
    assert!(rt; probes[0] == Point { x: 8191, y: -8191 });
    assert!(rt; probes[7] == Point { x: 14, y: 15 });
    Ok(())
}

#[test]
fn as_many_bodies_as_there_may_be(rt: HostRuntime) {
    let text =
        "carton catalogue 1\nrow 255 1 0 0 99741 99746 0 5 0 5\nbody -100000 100000 -1 0 0 1\nstroke 100000 -100000 0\nguide 6 0 0 1 150 50\nend\n";
    let Ok(catalogue) = read_catalogue(rt.alloc(), text.as_bytes()) else {
        panic!(rt; "a catalogue");
    };
    let bodies = catalogue.bodies.as_slice();
    assert!(rt; bodies.len() == 256);
    assert!(rt; bodies[254] == over_y((99_995, 100_000), (0, 5), (0, 5)));
    assert!(rt; bodies[255] == over_y((-100_000, 100_000), (-1, 0), (0, 1)));
    assert!(rt; catalogue.stroke == [100_000, -100_000, 0]);
}

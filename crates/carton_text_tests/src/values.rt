ghost use Rattle.carton_base.specs.Grid.{IsGrid};

use carton_base::{EdgeId, Listed, State, Stop};
use carton_cases::plans::{BARE, CROSS, UP};
use carton_text::{Job, LineError, Plan, Setting, TeamLine, read_job, read_plan, write_plan};
use std::alloc::{AllocError, Global};

const FINE: &str = "carton plan 2\ncreases 0 2047\nstate -32 32\nstate 17 -9\nend\n";

fn edges_of(alloc: Global, edges: &[u16]) -> Result<Listed<EdgeId>, AllocError> {
    let mut found = Listed::new(alloc);
    for edge in edges {
        found.push(EdgeId(*edge))?;
    }
    Ok(found)
}

fn team(alloc: Global, line: u32, edges: &[u16]) -> Result<TeamLine, AllocError> {
    Ok(TeamLine {
        line,
        edges: edges_of(alloc, edges)?,
    })
}

fn settings(alloc: Global, pairs: &[(u16, i8)]) -> Result<Listed<Setting>, AllocError> {
    let mut found = Listed::new(alloc);
    for (edge, stop) in pairs {
        found.push(Setting {
            edge: EdgeId(*edge),
            stop: Stop(*stop),
        })?;
    }
    Ok(found)
}

#[test]
fn a_job_with_every_line(rt: HostRuntime) -> Result<(), AllocError> {
    let text =
        "# a carton\r\n\r\ncarton job 2 16 3\r\nroot 255\nteam 3 1 2047\n# more\nstart 6 -32\nstart 0 32\nmargin 1000\nteam 0\n\nslack 1000\ntarget 2047 5\nturns 100000\ntargets fold\nend\n\n# done\r\n";
    let alloc = rt.alloc();
    let teams = vec![in alloc; team(alloc, 5, &[3, 1, 2047])?, team(alloc, 10, &[0])?]?;
    let wanted = Job {
        grid: 16,
        stride: 3,
        root: 255,
        margin: 1000,
        slack: 1000,
        turns: 100_000,
        from_file: true,
        starts: settings(alloc, &[(6, -32), (0, 32)])?,
        targets: settings(alloc, &[(2047, 5)])?,
        teams: Listed::from_vec(teams),
    };
    assert!(rt; read_job(alloc, text.as_bytes()) == Ok(wanted));
    Ok(())
}

#[test]
fn a_job_of_defaults(rt: HostRuntime) {
    let alloc = rt.alloc();
    let wanted = Job {
        grid: 8,
        stride: 1,
        root: 0,
        margin: 0,
        slack: 1,
        turns: 100_000,
        from_file: false,
        starts: Listed::new(alloc),
        targets: Listed::new(alloc),
        teams: Listed::new(alloc),
    };
    assert!(rt; read_job(alloc, b"carton job 1\nend") == Ok(wanted));
}

#[test]
fn texts_that_are_read(rt: HostRuntime) {
    let texts = [
        "carton job 1\nend\n",
        "carton job 1\r\nend\r\n",
        "carton job 2 8 1\nend",
        "carton job 2 16 4\nend\n#",
        "carton job 1\nroot 0\nmargin 0\nslack 1\nturns 1\nend\n",
        "carton job 1\nstart 2047 -16\ntarget 0 16\nend\n",
        "carton job 1\nstart 6 1\ntarget 6 1\nteam 6\nend\n",
        "carton job 1\nteam 0 1 2 3 4 5 6 7 8 9 10 11 12 13 14 15 16 17 18 19 20 21 22\nend\n",
        "carton job 1\nteam 0\nteam 1\nteam 2\nteam 3\nteam 4\nteam 5\nteam 6\nteam 7\nteam 8\nteam 9\nteam 10\nteam 11\nend\n",
    ];
    let read = texts
        .iter()
        .filter(|text| read_job(rt.alloc(), text.as_bytes()).is_ok())
        .count();
    assert_eq!(rt; read, texts.len());
}

#[test]
fn bytes_that_are_no_text(rt: HostRuntime) {
    let alloc = rt.alloc();
    assert!(rt; read_job(alloc, b"#\xff\x00\ncarton job 1\n#\xc0\nend\n").is_ok());
    let read = read_job(alloc, b"carton job 1\nmargin \xff\nend\n");
    assert!(rt; read == Err(LineError::BadLine(2)));
}

// The state of two joints at these stops.
fn state(grid: u8, first: i8, second: i8) -> State
    requires { IsGrid grid }
{
    let mut stops = [0; 24];
    stops[0] = first;
    stops[1] = second;
    State { stops, grid }
}

#[test]
fn one_joint_goes_up(rt: HostRuntime) -> Result<(), AllocError> {
    let alloc = rt.alloc();
    let mut states = Listed::new(alloc);
    for stop in 0..9_i8 {
        states.push(state(8, stop, 0))?;
    }
    let wanted = Plan {
        creases: edges_of(alloc, &[6])?,
        states,
    };
    assert!(rt; read_plan(alloc, UP.as_bytes()) == Ok(wanted));
    Ok(())
}

#[test]
fn a_plan_of_the_finer_grid(rt: HostRuntime) -> Result<(), AllocError> {
    let alloc = rt.alloc();
    let states = vec![in alloc; state(16, -32, 32), state(16, 17, -9)]?;
    let wanted = Plan {
        creases: edges_of(alloc, &[0, 2047])?,
        states: Listed::from_vec(states),
    };
    assert!(rt; read_plan(alloc, FINE.as_bytes()) == Ok(wanted));
    Ok(())
}

#[test]
fn a_plan_without_creases(rt: HostRuntime) -> Result<(), AllocError> {
    let alloc = rt.alloc();
    let wanted = Plan {
        creases: Listed::new(alloc),
        states: Listed::from_vec(vec![in alloc; state(8, 0, 0)]?),
    };
    assert!(rt; read_plan(alloc, BARE.as_bytes()) == Ok(wanted));
    Ok(())
}

fn is_written_back(alloc: Global, text: &str) -> bool {
    let Ok(plan) = read_plan(alloc, text.as_bytes()) else {
        return false;
    };
    let Ok(written) = write_plan(alloc, &plan) else {
        return false;
    };
    written.as_slice() == text.as_bytes()
}

#[test]
fn plans_are_written_as_they_are_read(rt: HostRuntime) {
    assert_eq!(rt; UP.len(), 100);
    let texts = [
        UP,
        CROSS,
        FINE,
        BARE,
        "carton plan 2\ncreases\nstate\nstate\nend\n",
        "carton plan 1\ncreases 0 1 2 3 4 5 6 7 8 9 10 11 12 13 14 15 16 17 18 19 20 21 22\nstate 0 1 2 3 4 5 6 7 8 9 10 11 12 13 14 15 16 -1 -2 -3 -9 -10 -16\nend\n",
    ];
    let same = texts
        .iter()
        .filter(|text| is_written_back(rt.alloc(), text))
        .count();
    assert_eq!(rt; same, texts.len());
}

ghost use Rattle.std.specs.Prelude.{◌<◌};

use carton_base::PanelId;
use carton_cases::{dielines, files_of, jobs};
use carton_made::{Kind, kind_of, made_dieline, made_job, size_of};
use carton_text::job_for;
use carton_tree::tree;
use std::alloc::Global;

// The dieline of number 2, typed from its description.
const TUBE: &str =
    r#"{"vertices_coords":[[0,0],[100,0],[200,0],[300,0],[400,0],[0,100],[100,100],[200,100],[300,100],[400,100]],"edges_vertices":[[0,1],[1,2],[2,3],[3,4],[5,6],[6,7],[7,8],[8,9],[0,5],[1,6],[2,7],[3,8],[4,9]],"edges_assignment":["B","B","B","B","B","B","B","B","B","V","V","V","B"],"faces_vertices":[[0,1,6,5],[1,2,7,6],[2,3,8,7],[3,4,9,8]]}"#;

// How the dieline of number 18 begins: a tray of size 160, in which no number was replaced twice.
const WIDE_TRAY: &str =
    r#"{"vertices_coords":[[0,0],[160,0],[160,160],[0,160],[0,-60],[160,-60],[220,0],[220,160],[160,220],[0,220],[-60,160],[-60,0]]"#;

// How the dieline of number 58 begins.
const WIDE_STRIP: &str =
    r#"{"vertices_coords":[[0,0],[290,0],[580,0],[870,0],[1160,0],[1450,0],[1740,0],[2030,0],[2320,0],[2610,0],[0,100],[290,100],[580,100],[870,100],[1160,100],[1450,100],[1740,100],[2030,100],[2320,100],[2610,100]]"#;

// The job of each strip.
const STRIP_JOB: &str =
    "carton job 1\nmargin 4\ntarget 19 4\ntarget 20 -4\ntarget 21 4\ntarget 22 -4\ntarget 23 4\ntarget 24 -4\ntarget 25 4\ntarget 26 -4\nteam 19 20 21 22 23 24 25 26\nend\n";

// The job of each tube.
const TUBE_JOB: &str =
    "carton job 1\nmargin 4\ntarget 9 8\ntarget 10 8\ntarget 11 8\nteam 9 10 11\nend\n";

fn is_dieline(alloc: Global, k: u32, text: &str) -> bool
    requires { k < 60 }
{
    made_dieline(alloc, k).is_ok_and(|bytes| bytes.as_slice() == text.as_bytes())
}

fn begins(alloc: Global, k: u32, front: &str) -> bool
    requires { k < 60 }
{
    made_dieline(alloc, k).is_ok_and(|bytes| bytes.as_slice().starts_with(front.as_bytes()))
}

fn is_job(alloc: Global, k: u32, text: &str) -> bool
    requires { k < 60 }
{
    made_job(alloc, k).is_ok_and(|bytes| bytes.as_slice() == text.as_bytes())
}

#[test]
fn texts_as_they_are_described(rt: HostRuntime) {
    let alloc = rt.alloc();
    assert!(rt; is_dieline(alloc, 0, dielines::TRAY));
    assert!(rt; is_dieline(alloc, 2, TUBE));
    assert!(rt; begins(alloc, 18, WIDE_TRAY));
    assert!(rt; begins(alloc, 58, WIDE_STRIP));
    assert!(rt; is_job(alloc, 0, jobs::TOGETHER));
    assert!(rt; is_job(alloc, 1, STRIP_JOB));
    assert!(rt; is_job(alloc, 59, TUBE_JOB));
    assert!(rt; kind_of(58) == Kind::Strip);
    assert!(rt; kind_of(58).name() == "strip");
    assert!(rt; size_of(58) == 290);
}

fn panels(kind: Kind) -> usize {
    match kind {
        Kind::Tray => 5,
        Kind::Strip => 9,
        Kind::Tube => 4,
    }
}

// Whether both texts are read, and make a task of one team of all creases on a carton with as many
// panels as its kind has.
fn is_read(alloc: Global, k: u32) -> bool
    requires { k < 60 }
{
    let (Ok(dieline), Ok(job)) = (made_dieline(alloc, k), made_job(alloc, k)) else {
        return false;
    };
    let Some(files) = files_of(alloc, &dieline, &job) else {
        return false;
    };
    let Ok(carton) = tree(alloc, &files.dieline, 4, PanelId(0)) else {
        return false;
    };
    let Ok(task) = job_for(alloc, &carton, &files.dieline, &files.job) else {
        return false;
    };
    let count = files.dieline.faces.len();
    count == panels(kind_of(k)) && task.creases.len() == count - 1 && task.teams.len() == 1
}

#[test]
fn all_are_read(rt: HostRuntime) {
    for k in 0..60 {
        assert!(rt; is_read(rt.alloc(), k));
    }
}

ghost use Rattle.std.specs.Prelude.{◌≡◌, ◌≤◌, ℕ, Ok};
ghost use Rattle.carton_base.specs.declared.dieline.RawDieline.{RawDieline};
ghost use Rattle.carton_tree.specs.Answers.{IsTreeOf};
ghost use Rattle.carton_tree.specs.Trees.{Tree};
ghost use Rattle.carton_text.specs.declared.job.Job.{Job};
ghost use Rattle.carton_text.specs.declared.task.Task.{Task};
ghost use Rattle.carton_text.specs.CartonTasks.{task_for};
ghost use Rattle.carton_text.specs.JobRules.{IsJob};
ghost use Rattle.carton_text.specs.JobSpelling.{IsReadOfItsSpelling};
ghost use Rattle.carton_text.specs.OneTeam.{AreInOneTeam};
ghost use Rattle.carton_text.specs.Tasks.{outline};

/// In the task of a job on the carton of a dieline, each free joint whose start isn't its target is in
/// exactly one team.
pub fn each_joint_that_moves_is_in_one_team()
    ensures { (m : ℕ) (raw : RawDieline) (root : ℕ) (t : Tree) (job : Job) (task : Task)
        → IsTreeOf m raw root t → IsJob job → task_for t raw job ≡ Ok (outline task) → AreInOneTeam task }
{}

/// The canonical spelling of a job that keeps its rules reads back as that job; its teams have the
/// numbers of the lines in which they stand there.
pub fn each_job_is_read_of_its_spelling()
    ensures { (j : Job) → IsJob j → j.root ≤ 255 → IsReadOfItsSpelling j }
{}

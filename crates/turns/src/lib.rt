// Several jobs on one control: the record of a job and what a turn names, whose turn it is, as definitions (specs/), and that
// no job waits for more turns than there are jobs (proofs/).
#![tactic(auto)]

ghost use Rattle.std.specs.Prelude.{◌≡◌};
ghost use Rattle.turns.specs.Jobs.{grid_of};

use grid::Grid;

// A job: the sizes of its plan, and where its marks start in the common list. C's `mzg_job` is the same four words of 64 bits.
#[repr(C)]
#[derive(Clone, Copy)]
pub struct Job {
    pub rows: usize,
    pub columns: usize,
    pub side: usize,
    pub marks_start: usize,
}

// What a turn names: a job, by its index in the list, with a task and its block.
#[derive(Clone, Copy)]
pub struct Turn {
    pub job: usize,
    pub task: usize,
    pub block: usize,
}

// The blocks of a job's map.
impl From<Job> for Grid {
    ghost from_gives = { λ job grid. grid ≡ grid_of job };

    fn from(job: Job) -> Grid {
        Grid {
            rows: job.rows,
            columns: job.columns,
            side: job.side,
        }
    }
}

// One job's part of the common marks list.
ghost use Rattle.std.specs.Prelude.{◌≡◌, true, leb, length};
ghost use Rattle.turns.specs.Jobs.{sizes_kept, marks_end, overlap};
ghost use Rattle.turns.specs.Turn.{turn_of};
ghost use Rattle.dispatch.specs.Part.{JobLent, first_broken_of};

use grid::Grid;
use report::Ready;
use turns::{Job, Turn};

// Whether a job's marks end by a place. The end is not worked out, since it may be past what a word holds.
pub fn ends_by(job: Job, place: usize) -> bool
    requires { sizes_kept job ≡ true }
    ensures { result ≡ leb (marks_end job) place }
{
    job.marks_start <= place && Grid::from(job).blocks() <= place - job.marks_start
}

// Whether the marks of two jobs overlap.
#[tactic(auto, using(crate::proofs::Parts::overlap_ends))]
pub fn overlap(a: Job, b: Job) -> bool
    requires { (sizes_kept a ≡ true) × (sizes_kept b ≡ true) }
    ensures { result ≡ overlap a b }
{
    !ends_by(b, a.marks_start) && !ends_by(a, b.marks_start)
}

// The least place in the common list of a broken mark of a job.
pub fn first_broken_place(job: Job, marks: &[u32]) -> Option<usize>
    requires { JobLent job (length marks.now) }
    ensures { result ≡ first_broken_of marks.now job }
{
    let start = job.marks_start;
    let grid = Grid::from(job);
    let broken = report::first_broken(grid, &marks[start..]);
    if broken < grid.blocks() {
        Some(start + broken)
    } else {
        None
    }
}

// The turn of a job as job i of the list, with its first ready task as the report finds it; none where it is done.
pub fn turn_of(i: usize, job: Job, marks: &[u32]) -> Option<Turn>
    requires { JobLent job (length marks.now) }
    ensures { result ≡ turn_of i job marks.now }
{
    let Ready { task, block } = report::first_ready(Grid::from(job), &marks[job.marks_start..])?;
    Some(Turn {
        job: i,
        task,
        block,
    })
}

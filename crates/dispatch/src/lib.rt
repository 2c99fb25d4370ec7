// The dispatcher of several jobs on one control: whose turn it is, and with which task.
#![tactic(auto)]

mod part;

ghost use Rattle.std.specs.Prelude.{◌≡◌, not, ◌<◌, ltb, length};
ghost use Rattle.refusal.specs.declared.Refusal.TheVariants.{RecordBreaksRule, MarkBroken, JobMisplaced};
ghost use Rattle.turns.specs.Jobs.{jobs_kept, well_placed, first_misplaced, first_broken_place};
ghost use Rattle.turns.specs.Turn.{look_from, turn};
ghost use Rattle.turns.specs.Dispatch.{dispatch_given, dispatch};
ghost use Rattle.turns.specs.Answers.{Kept};
ghost use Rattle.dispatch.specs.Part.{JobsLent, refused_if};

use grid::Grid;
use refusal::Refusal;
use turns::{Job, Turn};

// The most jobs on one control: `job_limit` of turns/specs/Jobs.antt is the same number.
const JOB_LIMIT: usize = 8;

// The turn after the job `last`: the next job after it that has unmarked tasks, going round, with its first ready task, or
// none; or why the call is refused.
pub fn dispatch(jobs: &[Job], last: usize, marks: &[u32]) -> Result<Option<Turn>, Refusal>
    ensures { dispatch_given result ≡ dispatch jobs.now last marks.now }
{
    test_sizes(jobs)?;
    test_places(jobs, marks.len())?;
    test_marks(jobs, marks)?;
    Ok(next_turn(jobs, last, marks))
}

// 6 where there are too many jobs, or a size is out of range.
fn test_sizes(jobs: &[Job]) -> Result<(), Refusal>
    ensures { result ≡ refused_if (not (jobs_kept jobs.now)) RecordBreaksRule }
{
    if sizes_kept(jobs) {
        Ok(())
    } else {
        Err(Refusal::RecordBreaksRule)
    }
}

// Whether there are at most eight jobs, and the sizes of each are in range.
#[tactic(auto, using(crate::proofs::Searching::too_many))]
fn sizes_kept(jobs: &[Job]) -> bool
    ensures { result ≡ jobs_kept jobs.now }
{
    jobs.len() <= JOB_LIMIT && jobs.iter().all(|job| Grid::from(*job).check())
}

// 18 with the first job whose marks run past the list or overlap another's.
fn test_places(jobs: &[Job], size: usize) -> Result<(), Refusal>
    requires { Kept jobs.now }
    ensures { result ≡ refused_if (ltb (first_misplaced jobs.now size) (length jobs.now)) (JobMisplaced (first_misplaced jobs.now size)) }
{
    for i in 0..jobs.len() {
        if !well_placed(jobs, size, i) {
            return Err(Refusal::JobMisplaced(i));
        }
    }
    Ok(())
}

// Whether the marks of job i lie inside a common list of `size` places and overlap no other job's.
#[tactic(auto, using(crate::proofs::Searching::placed_well, crate::proofs::Searching::past_end, crate::proofs::Searching::overlapping))]
fn well_placed(jobs: &[Job], size: usize, i: usize) -> bool
    requires { Kept jobs.now × (i < length jobs.now) }
    ensures { result ≡ well_placed jobs.now size i }
{
    let job = jobs[i];
    if !part::ends_by(job, size) {
        return false;
    }
    for (j, other) in jobs.iter().enumerate() {
        if j != i && part::overlap(job, *other) {
            return false;
        }
    }
    true
}

// 9 at the least place of the common list that has a broken mark of any job.
fn test_marks(jobs: &[Job], marks: &[u32]) -> Result<(), Refusal>
    requires { JobsLent jobs.now (length marks.now) }
    ensures { result ≡ refused_if (ltb (first_broken_place jobs.now marks.now) (length marks.now)) (MarkBroken (first_broken_place jobs.now marks.now)) }
{
    let places = jobs
        .iter()
        .filter_map(|job| part::first_broken_place(*job, marks));
    match places.min() {
        Some(place) => Err(Refusal::MarkBroken(place)),
        None => Ok(()),
    }
}

// The first turn that a job has, going round.
fn next_turn(jobs: &[Job], last: usize, marks: &[u32]) -> Option<Turn>
    requires { JobsLent jobs.now (length marks.now) }
    ensures { result ≡ turn jobs.now last marks.now }
{
    let count = jobs.len();
    let start = look_from(jobs, last);
    for passed in 0..count {
        let i = (start + passed) % count;
        if let Some(turn) = part::turn_of(i, jobs[i], marks) {
            return Some(turn);
        }
    }
    None
}

// Where a turn begins to look: at the job after `last`, or at the first where `last` is past the list.
#[tactic(auto, unfolding(turns::specs::Turn::look_from))]
fn look_from(jobs: &[Job], last: usize) -> usize
    ensures { result ≡ look_from jobs.now last }
{
    if last < jobs.len() { last + 1 } else { 0 }
}

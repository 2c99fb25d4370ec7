// A whole job: what the report names is performed, as often as there are tasks, after which it names none.
#![tactic(auto)]

ghost use Rattle.std.specs.Prelude.{◌≡◌};
ghost use Rattle.refusal.specs.Table.{answer_of};
ghost use Rattle.job_spec.specs.Calls.{lists};
ghost use Rattle.whole_job.specs.WholeJob.{after_step, after_steps, whole_answer, after_whole_job};

use plan::{BufferOf7, Lengths, Plan};
use refusal::Refusal;

// Starts a job and performs all its tasks, in the order in which the report names them.
pub fn whole_job(
    plan: Plan,
    map: &[i32],
    marks: &mut [u32],
    strips: &mut [u64],
    output: &mut [u64],
) -> Result<(), Refusal>
    ensures answer { answer_of result ≡ whole_answer plan map.now (lists marks.old strips.old output.old) }
    ensures buffers { lists marks.new strips.new output.new ≡ after_whole_job plan map.now (lists marks.old strips.old output.old) }
{
    let sizes = plan.sizes_for(Lengths {
        of7: Some(BufferOf7::Marks(marks.len())),
        strips: Some(strips.len()),
        map: Some(map.len()),
        output: Some(output.len()),
    })?;
    // It is accepted: its tests are some of those above.
    let _ = job::start(plan, marks, strips);
    perform_steps(plan, sizes.tasks, map, marks, strips, output);
    Ok(())
}

// As many steps as are asked for.
fn perform_steps(
    plan: Plan,
    count: usize,
    map: &[i32],
    marks: &mut [u32],
    strips: &mut [u64],
    output: &mut [u64],
)
    ensures { lists marks.new strips.new output.new ≡ after_steps plan map.now count (lists marks.old strips.old output.old) }
{
    for _ in 0..count {
        perform_named(plan, map, marks, strips, output);
    }
}

// Performs the task that the report names, and nothing where it names none.
#[tactic(auto, unfolding(crate::specs::WholeJob::after_step))]
fn perform_named(plan: Plan, map: &[i32], marks: &mut [u32], strips: &mut [u64], output: &mut [u64])
    ensures { lists marks.new strips.new output.new ≡ after_step plan map.now (lists marks.old strips.old output.old) }
{
    let Ok(progress) = report::report(plan, marks) else {
        return;
    };
    if let Some(next) = progress.next {
        // Were it refused, it would leave the lists as they are.
        let _ = job::task(plan, next.task, next.block, map, marks, strips, output);
    }
}

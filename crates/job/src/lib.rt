// The calls of a job: the start, one task, and a list of tasks, or of tasks and recalls, one after another. Each buffer is lent by
// itself, as in C: of a struct of them each contract would say, beside its equations, that its references stay.
#![tactic(auto)]

ghost use Rattle.std.specs.Prelude.{◌≡◌, ◌≤◌, ℕ, ℤ, List, length};
ghost use Rattle.refusal.specs.Refusals.{accepted};
ghost use Rattle.refusal.specs.Table.{answer_of};
ghost use Rattle.job_spec.specs.Calls.{lists, start_answer, unmarked, marks_after_start, strips_after_start, task_answer, strips_after, output_after, performed, after_task, calls_of};
ghost use Rattle.job_spec.specs.Steps.{Step, after_step, step_answer};
ghost use Rattle.job.specs.Fits.{Fits};
ghost use Rattle.job.specs.RunCalls.{Ran};
ghost use Rattle.job.specs.RunSteps.{RanSteps, step_at, steps_of};
ghost use Rattle.job.specs.RunList.{task_at, steps_by, StepsRun};

use plan::{BufferOf7, Lengths, Plan};
use refusal::Refusal;

// The number that stands for a recall in a list of steps: tasks are 0 to 5, and stay numbers (`tasks::TASKS`).
pub const RECALL: usize = 6;

// Starts a job: no task is marked, and all needed strip words are 0.
pub fn start(plan: Plan, marks: &mut [u32], strips: &mut [u64]) -> Result<(), Refusal>
    ensures answer { answer_of result ≡ start_answer plan marks.old strips.old }
    ensures marked { marks.new ≡ marks_after_start plan marks.old strips.old }
    ensures stripped { strips.new ≡ strips_after_start plan marks.old strips.old }
{
    let sizes = plan.sizes_for(Lengths {
        of7: Some(BufferOf7::Marks(marks.len())),
        strips: Some(strips.len()),
        map: None,
        output: None,
    })?;
    unmark(marks, sizes.marks);
    buffer::clear_words(strips, 0, 1, sizes.strips);
    Ok(())
}

// The first `count` marks have their kind and no bit.
fn unmark(marks: &mut [u32], count: usize)
    requires { count ≤ length marks.old }
    ensures { marks.new ≡ unmarked count marks.old }
{
    marks[..count].fill(tasks::UNMARKED);
}

// Calls one task at one block: refused, or its bit is set and its strips or its output are written.
pub fn task(
    plan: Plan,
    task: usize,
    block: usize,
    map: &[i32],
    marks: &mut [u32],
    strips: &mut [u64],
    output: &mut [u64],
) -> Result<(), Refusal>
    ensures answer { answer_of result ≡ task_answer plan map.now (lists marks.old strips.old output.old) task block }
    ensures written { lists marks.new strips.new output.new ≡ after_task plan map.now task block (lists marks.old strips.old output.old) }
{
    test_task(plan, task, block, map, marks, strips, output)?;
    perform(plan, task, block, map, marks, strips, output);
    Ok(())
}

// The tests of a call of a task at a block: of the record and of the lengths, and then what the marks say. What is lent is spelled
// out, here and in `whole_job`: a reader sees which length is which.
fn test_task(
    plan: Plan,
    task: usize,
    block: usize,
    map: &[i32],
    marks: &[u32],
    strips: &[u64],
    output: &[u64],
) -> Result<(), Refusal>
    ensures { answer_of result ≡ task_answer plan map.now (lists marks.now strips.now output.now) task block }
{
    plan.sizes_for(Lengths {
        of7: Some(BufferOf7::Marks(marks.len())),
        strips: Some(strips.len()),
        map: Some(map.len()),
        output: Some(output.len()),
    })?;
    tasks::verdict(plan.grid, marks, task, block)
}

// Performs an accepted task.
fn perform(
    plan: Plan,
    task: usize,
    block: usize,
    map: &[i32],
    marks: &mut [u32],
    strips: &mut [u64],
    output: &mut [u64],
)
    requires { task_answer plan map.now (lists marks.old strips.old output.old) task block ≡ accepted }
    ensures { lists marks.new strips.new output.new ≡ performed plan map.now task block (lists marks.old strips.old output.old) }
{
    tasks::set_bit(marks, task, block);
    write_block(plan, task, block, map, strips, output);
}

// Writes what a task writes: collect the lone half of the block's slot, a link its strip in the linked half, finish the
// block's output words. By the task's number, as `tasks::has_task` goes (the reason is at `tasks::TASKS`).
fn write_block(
    plan: Plan,
    task: usize,
    block: usize,
    map: &[i32],
    strips: &mut [u64],
    output: &mut [u64],
)
    requires { Fits plan task block (length map.now) (length strips.old) (length output.old) }
    ensures strip { strips.new ≡ strips_after plan map.now task block strips.old }
    ensures words { output.new ≡ output_after plan map.now task block strips.old output.old }
{
    match task {
        0 => collect_finish::collect(plan, block, map, strips),
        5 => collect_finish::finish(plan, block, map, strips, output),
        _ => link::link(plan, block, task - 1, strips),
    }
}

// Calls of tasks, one after another: call number i is of task tasks[i] at block blocks[i], as many as the shorter list has. The
// answer is how many were accepted. Demand 3 is part of its contract, which speaks of two lists, each of its own length.
pub fn run_calls(
    plan: Plan,
    tasks: &[usize],
    blocks: &[usize],
    map: &[i32],
    marks: &mut [u32],
    strips: &mut [u64],
    output: &mut [u64],
) -> usize
    ensures { Ran plan map.now (calls_of tasks.now blocks.now) (lists marks.old strips.old output.old) (lists marks.new strips.new output.new) result }
{
    run_list::<TaskCalls>(plan, tasks, blocks, map, marks, strips, output)
}

// Steps, one after another: step number i is a recall of block blocks[i] where tasks[i] is `RECALL`, else a call of task tasks[i]
// at block blocks[i], as many as the shorter list has. The answer is how many were accepted. Demand 3 with recalls is part of
// its contract.
pub fn run_steps(
    plan: Plan,
    tasks: &[usize],
    blocks: &[usize],
    map: &[i32],
    marks: &mut [u32],
    strips: &mut [u64],
    output: &mut [u64],
) -> usize
    ensures { RanSteps plan (steps_of map.now tasks.now blocks.now) (lists marks.old strips.old output.old) (lists marks.new strips.new output.new) result }
{
    run_list::<AnySteps>(plan, tasks, blocks, map, marks, strips, output)
}

// What the numbers of a list stand for: tasks alone, or steps, of which some are recalls.
trait Numbered {
    ghost step: { List ℤ → ℕ → ℕ → Step };

    // Performs the step of a number at a block.
    fn perform(
        plan: Plan,
        number: usize,
        block: usize,
        map: &[i32],
        marks: &mut [u32],
        strips: &mut [u64],
        output: &mut [u64],
    ) -> Result<(), Refusal>
        ensures answer { answer_of result ≡ step_answer plan (step map.now number block) (lists marks.old strips.old output.old) }
        ensures written { lists marks.new strips.new output.new ≡ after_step plan (step map.now number block) (lists marks.old strips.old output.old) };
}

struct TaskCalls;

struct AnySteps;

impl Numbered for TaskCalls {
    ghost step = { task_at };

    #[tactic(auto, unfolding(job_spec::specs::Steps::step_answer, job_spec::specs::Steps::after_step))]
    fn perform(
        plan: Plan,
        number: usize,
        block: usize,
        map: &[i32],
        marks: &mut [u32],
        strips: &mut [u64],
        output: &mut [u64],
    ) -> Result<(), Refusal> {
        task(plan, number, block, map, marks, strips, output)
    }
}

impl Numbered for AnySteps {
    ghost step = { step_at };

    // A recall is lent the marks alone.
    fn perform(
        plan: Plan,
        number: usize,
        block: usize,
        map: &[i32],
        marks: &mut [u32],
        strips: &mut [u64],
        output: &mut [u64],
    ) -> Result<(), Refusal> {
        if number == RECALL {
            recall::recall(plan, block, marks)
        } else {
            task(plan, number, block, map, marks, strips, output)
        }
    }
}

// The steps of two lists, as many as the shorter has; the answer is how many were accepted.
#[tactic(auto, using(crate::proofs::Running::running_start, crate::proofs::Running::one_most, crate::proofs::Running::one_counted))]
fn run_list<N: Numbered>(
    plan: Plan,
    numbers: &[usize],
    blocks: &[usize],
    map: &[i32],
    marks: &mut [u32],
    strips: &mut [u64],
    output: &mut [u64],
) -> usize
    ensures { StepsRun plan (steps_by N.step map.now numbers.now blocks.now) (lists marks.old strips.old output.old) (lists marks.new strips.new output.new) result }
{
    let mut accepted = 0;
    for i in 0..numbers.len().min(blocks.len()) {
        let answer = N::perform(plan, numbers[i], blocks[i], map, marks, strips, output);
        accepted += usize::from(answer.is_ok());
    }
    accepted
}

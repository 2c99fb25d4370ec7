// The report on a job's marks: how many tasks are marked, the tally, and the first ready task. What the searches require,
// their callers in this repository show.
#![tactic(auto)]

ghost use Rattle.std.specs.Prelude.{◌≡◌, ◌<◌, length};
ghost use Rattle.tasks.specs.Counts.{done_at};
ghost use Rattle.tasks.specs.Marks.{is_marked};
ghost use Rattle.tasks.specs.Lent.{Lent, LentAt};
ghost use Rattle.report.specs.Tally.{tally_at};
ghost use Rattle.report.specs.Sums.{Summed};
ghost use Rattle.report.specs.Values.{report_given};
ghost use Rattle.report.specs.Report.{first_ready, first_broken, report_on, report};

use grid::Grid;
use plan::{BufferOf7, Plan};
use refusal::Refusal;

// A ready task: its number and its block.
#[derive(Clone, Copy)]
pub struct Ready {
    pub task: usize,
    pub block: usize,
}

// How many tasks are marked, the tally, and the task to do next: the ready one with the least number, then the least block.
#[derive(Clone, Copy)]
pub struct Progress {
    pub marked: usize,
    pub tally: usize,
    pub next: Option<Ready>,
}

// How many tasks of all blocks are marked, and the tally of all blocks.
#[derive(Clone, Copy)]
struct Sums {
    marked: usize,
    tally: usize,
}

// The report on a plan's marks, which may be a part of a longer list.
#[tactic(auto, unfolding(crate::specs::Report::report, crate::specs::Report::report_on, plan::specs::FirstTests::sizes_for, plan::specs::FirstTests::lent_rows))]
pub fn report(plan: Plan, marks: &[u32]) -> Result<Progress, Refusal>
    ensures { report_given result ≡ report plan marks.now }
{
    plan.sizes_for(plan::only_of_7(Some(BufferOf7::Marks(marks.len()))))?;
    report_on(plan.grid, marks)
}

// The report on as many marks as a map of these sizes needs. Grid and marks stay apart, for the reason that tasks gives.
#[tactic(auto, unfolding(crate::specs::Report::report_on, crate::specs::Report::progress_of))]
fn report_on(grid: Grid, marks: &[u32]) -> Result<Progress, Refusal>
    requires { Lent grid (length marks.now) }
    ensures { report_given result ≡ report_on grid marks.now }
{
    let broken = first_broken(grid, marks);
    if broken < grid.blocks() {
        return Err(Refusal::MarkBroken(broken));
    }
    let sums = sums_of(grid, marks);
    Ok(Progress {
        marked: sums.marked,
        tally: sums.tally,
        next: first_ready(grid, marks),
    })
}

// The least block whose mark is broken, or the number of blocks: a number, no `Option`, as the definition has it that the rows of
// report, recall and dispatcher and their laws cite.
#[tactic(auto, using(tasks::proofs::Verdicts::below_none, tasks::proofs::Verdicts::below_valid, tasks::proofs::Verdicts::below_all, tasks::proofs::Verdicts::first_least), unfolding(crate::specs::Report::first_broken))]
pub fn first_broken(grid: Grid, marks: &[u32]) -> usize
    requires { Lent grid (length marks.now) }
    ensures { result ≡ first_broken grid marks.now }
{
    let blocks = grid.blocks();
    for block in 0..blocks {
        if !tasks::mark_valid(grid, block, marks[block]) {
            return block;
        }
    }
    blocks
}

// How many tasks of a block are marked.
#[tactic(auto, using(number::proofs::Sums::total_none, number::proofs::Sums::sum_on, number::proofs::Sums::one_most), unfolding(tasks::specs::Counts::done_at))]
fn marked_at(marks: &[u32], block: usize) -> usize
    requires { block < length marks.now }
    ensures { result ≡ done_at (is_marked marks.now) block }
{
    let mut sum = 0;
    for task in 0..tasks::TASKS {
        sum += usize::from(tasks::is_marked(marks, task, block));
    }
    sum
}

// What a block adds to the tally.
#[tactic(auto, using(number::proofs::Sums::one_most, grid::proofs::Blocks::ranges, crate::proofs::Tallies::area_most), unfolding(crate::specs::Tally::tally_at))]
fn tally_at(grid: Grid, marks: &[u32], block: usize) -> usize
    requires { LentAt grid (length marks.now) block }
    ensures { result ≡ tally_at grid (is_marked marks.now) block }
{
    let times = usize::from(tasks::is_marked(marks, 0, block))
        + usize::from(tasks::is_marked(marks, 5, block));
    times * grid.block_area(block)
}

// The sums over all blocks.
#[tactic(auto, using(number::proofs::Sums::total_none, number::proofs::Sums::sum_on), unfolding(tasks::specs::Counts::done_count, crate::specs::Tally::tally))]
fn sums_of(grid: Grid, marks: &[u32]) -> Sums
    requires { Lent grid (length marks.now) }
    ensures { Summed grid (is_marked marks.now) result }
{
    let mut marked = 0;
    let mut tally = 0;
    for block in 0..grid.blocks() {
        marked += marked_at(marks, block);
        tally += tally_at(grid, marks, block);
    }
    Sums { marked, tally }
}

// The first ready task: task numbers rising, and for each the blocks rising. Document 01 has this search as nested loops
// that are left by label with the ready task.
#[tactic(auto, using(crate::proofs::Search::row_hit, crate::proofs::Search::row_miss, crate::proofs::Search::row_end_law, crate::proofs::Search::task_end, crate::proofs::Search::task_row), unfolding(crate::specs::Report::first_ready))]
pub fn first_ready(grid: Grid, marks: &[u32]) -> Option<Ready>
    requires { Lent grid (length marks.now) }
    ensures { result ≡ first_ready grid (is_marked marks.now) }
{
    let blocks = grid.blocks();
    'out: {
        for task in 0..tasks::TASKS {
            for block in 0..blocks {
                if tasks::is_ready(grid, marks, task, block) {
                    break 'out Some(Ready { task, block });
                }
            }
        }
        None
    }
}

// Tasks of the blocks of a map: which exist, what they need, their marks, and what the marks say to a task call.
// An inner crate: what its functions require, their callers in this repository show.
#![tactic(auto)]

ghost use Rattle.std.specs.Prelude.{◌≡◌, true, ◌<◌, ◌≤◌, ◌+◌, ◌^◌, min, length};
ghost use Rattle.refusal.specs.Table.{first_due, answer_of};
ghost use Rattle.number.specs.Numbers.{all_below};
ghost use Rattle.buffer.specs.Lists.{word_at};
ghost use Rattle.grid.specs.Grid.{grid_kept};
ghost use Rattle.grid.specs.Shapes.{InGrid, InBlocks};
ghost use Rattle.tasks.specs.Tasks.{has_task, exists, needs_of, all_done, ready};
ghost use Rattle.tasks.specs.Marks.{has_bit, is_marked, spare_clear, mark_valid, with_bit};
ghost use Rattle.tasks.specs.Verdict.{broken_at, least_broken, verdict_rows};
ghost use Rattle.tasks.specs.Neighbours.{link_done, broken_beside};
ghost use Rattle.tasks.specs.Lent.{Lent, LentAt};

use grid::{Grid, Position};
use refusal::Refusal;

// Tasks 0 to 5: collect, the links down, up, right and left, finish.
// Numbers, no enum: they are document 01's, a mark's bits go by them, and definitions and calls name tasks by them.
pub const TASKS: usize = 6;

// The payload of a mark is below it: bits 0 to 5 are the tasks', those above are spare.
const TASK_BITS_LIMIT: u32 = 1 << TASKS;

// The kind of a mark, `mark_kind` of specs/Marks.antt, and the mark of a block with no task done. A number beside the kinds of plan
// words (`plan_reader::Kind`), which no plan word has.
const MARK_KIND: u32 = 7;

pub const UNMARKED: u32 = MARK_KIND * number::PAYLOAD_LIMIT;

// The passes down, up, right and left.
const PASSES: usize = 4;

// A block of the map has a task: collect and finish always, a link where its pass goes on from the block. By the task's number, for
// the reason at `TASKS`.
#[tactic(auto, using(crate::proofs::Existence::link_has, crate::proofs::Existence::past_links), unfolding(crate::specs::Tasks::has_task))]
fn has_task(grid: Grid, task: usize, at: Position) -> bool
    requires { InBlocks grid at }
    ensures { result ≡ has_task grid task at.row at.column }
{
    match task {
        0 => true,
        1..=PASSES => grid.goes_on(at, task - 1),
        _ => task == 5,
    }
}

// There is such a block, and it has the task.
#[tactic(auto, using(grid::proofs::Shapes::in_blocks), unfolding(crate::specs::Tasks::exists, grid::specs::Shapes::position_of))]
pub fn exists(grid: Grid, task: usize, block: usize) -> bool
    requires { grid_kept grid ≡ true }
    ensures { result ≡ exists grid task block }
{
    block < grid.blocks() && has_task(grid, task, grid.position(block))
}

#[tactic(auto, unfolding(crate::specs::Marks::has_bit))]
fn has_bit(mark: u32, task: usize) -> bool
    requires { task < 6 }
    ensures { result ≡ has_bit mark task }
{
    (mark >> task) % 2 == 1
}

// Task `task` of a block is marked.
#[tactic(auto, unfolding(crate::specs::Marks::is_marked))]
pub fn is_marked(marks: &[u32], task: usize, block: usize) -> bool
    requires { (task < 6) × (block < length marks.now) }
    ensures { result ≡ is_marked marks.now task block }
{
    has_bit(marks[block], task)
}

// The mark of a block has the right kind and no spare bit.
#[tactic(auto, using(grid::proofs::Shapes::in_blocks), unfolding(crate::specs::Marks::mark_valid, grid::specs::Shapes::position_of))]
pub fn mark_valid(grid: Grid, block: usize, mark: u32) -> bool
    requires { InGrid grid block }
    ensures { result ≡ mark_valid grid block mark }
{
    number::kind_of(mark) == MARK_KIND
        && number::payload_of(mark) < TASK_BITS_LIMIT
        && spares_clear(grid, grid.position(block), mark)
}

// Bits 0 to 5 of a mark are clear where the block has no such task.
fn spares_clear(grid: Grid, at: Position, mark: u32) -> bool
    requires { InBlocks grid at }
    ensures { result ≡ all_below (spare_clear grid at.row at.column mark) 6 }
{
    (0..TASKS).all(|task| spare_clear(grid, at, mark, task))
}

#[tactic(auto, unfolding(crate::specs::Marks::spare_clear))]
fn spare_clear(grid: Grid, at: Position, mark: u32, task: usize) -> bool
    requires { InBlocks grid at × (task < 6) }
    ensures { result ≡ spare_clear grid at.row at.column mark task }
{
    has_task(grid, task, at) || !has_bit(mark, task)
}

// The number of passes whose neighbours a task needs: one more for each link, all four to finish.
fn passes_needed(task: usize) -> usize
    ensures { result ≡ min task 4 }
{
    task.min(PASSES)
}

// Grid and marks apart: of a struct of both, clauses would say `self.entry.grid` and `self.entry.marks.now` in their place.

// The link of a pass is marked at the neighbour, if there is one.
#[tactic(auto, unfolding(crate::specs::Neighbours::link_done))]
fn link_marked(grid: Grid, marks: &[u32], pass: usize, block: usize) -> bool
    requires { LentAt grid (length marks.now) block × (pass < 4) }
    ensures { result ≡ link_done grid (is_marked marks.now) block pass }
{
    match grid.neighbour(block, pass) {
        Some(j) => is_marked(marks, pass + 1, j),
        None => true,
    }
}

// The links of the first passes are marked at the neighbours.
fn links_marked(grid: Grid, marks: &[u32], passes: usize, block: usize) -> bool
    requires { LentAt grid (length marks.now) block × (passes ≤ 4) }
    ensures { result ≡ all_below (link_done grid (is_marked marks.now) block) passes }
{
    (0..passes).all(|pass| link_marked(grid, marks, pass, block))
}

// All needs of a task are marked.
#[tactic(auto, using(crate::proofs::Needs::needs_none, crate::proofs::Needs::needs_uncollected, crate::proofs::Needs::needs_rest, crate::proofs::Lent::block_lent))]
pub fn needs_met(grid: Grid, marks: &[u32], task: usize, block: usize) -> bool
    requires { LentAt grid (length marks.now) block × (task < 6) }
    ensures { result ≡ all_done (is_marked marks.now) (needs_of grid task block) }
{
    task == 0 || is_marked(marks, 0, block) && links_marked(grid, marks, passes_needed(task), block)
}

// A task exists at a block, is not marked, and its needs are.
#[tactic(auto, using(crate::proofs::Existence::exists_block, crate::proofs::Existence::exists_task), unfolding(crate::specs::Tasks::ready))]
pub fn is_ready(grid: Grid, marks: &[u32], task: usize, block: usize) -> bool
    requires { Lent grid (length marks.now) }
    ensures { result ≡ ready grid (is_marked marks.now) task block }
{
    exists(grid, task, block)
        && !is_marked(marks, task, block)
        && needs_met(grid, marks, task, block)
}

// A block where its mark is broken, else the number of blocks.
// A number, no `Option`, as the definitions have it: it is above every block, so that the least of several is their `min`.
fn broken_at(grid: Grid, marks: &[u32], block: usize) -> usize
    requires { LentAt grid (length marks.now) block }
    ensures { result ≡ broken_at grid marks.now block }
{
    if mark_valid(grid, block, marks[block]) {
        grid.blocks()
    } else {
        block
    }
}

// The same for the neighbour that a pass comes from, if there is one.
#[tactic(auto, unfolding(crate::specs::Neighbours::broken_beside))]
fn broken_beside(grid: Grid, marks: &[u32], pass: usize, block: usize) -> usize
    requires { LentAt grid (length marks.now) block × (pass < 4) }
    ensures { result ≡ broken_beside grid marks.now block pass }
{
    match grid.neighbour(block, pass) {
        Some(j) => broken_at(grid, marks, j),
        None => grid.blocks(),
    }
}

// The least block whose mark a call looks at and finds broken, else the number of blocks.
#[tactic(auto, using(crate::proofs::Verdicts::around_none, crate::proofs::Verdicts::around_on))]
fn least_broken(grid: Grid, marks: &[u32], task: usize, block: usize) -> usize
    requires { LentAt grid (length marks.now) block × (task < 6) }
    ensures { result ≡ least_broken grid marks.now task block }
{
    let mut least = broken_at(grid, marks, block);
    for pass in 0..passes_needed(task) {
        least = least.min(broken_beside(grid, marks, pass, block));
    }
    least
}

// What the marks say to a call of a task at a block.
#[tactic(auto, using(crate::proofs::Existence::exists_block, crate::proofs::Existence::exists_task), unfolding(crate::specs::Verdict::verdict_rows))]
pub fn verdict(grid: Grid, marks: &[u32], task: usize, block: usize) -> Result<(), Refusal>
    requires { Lent grid (length marks.now) }
    ensures { answer_of result ≡ first_due (verdict_rows grid marks.now task block) }
{
    if !exists(grid, task, block) {
        return Err(Refusal::NoSuchTask);
    }
    let broken = least_broken(grid, marks, task, block);
    if broken < grid.blocks() {
        return Err(Refusal::MarkBroken(broken));
    }
    if is_marked(marks, task, block) {
        return Err(Refusal::AlreadyMarked);
    }
    if !needs_met(grid, marks, task, block) {
        return Err(Refusal::NeedUnmarked);
    }
    Ok(())
}

// The marks after an accepted task.
#[tactic(auto, using(crate::proofs::Marking::shifted_one), unfolding(crate::specs::Marks::with_bit))]
pub fn set_bit(marks: &mut [u32], task: usize, block: usize)
    requires { (task < 6) × (block < length marks.old) × (word_at marks.old block + 2 ^ task < 2 ^ 32) }
    ensures { marks.new ≡ with_bit marks.old task block }
{
    marks[block] += 1 << task;
}

// Recall of a block that is scanned again: the bits of its tasks and of every task that needs one of them are cleared.
#![tactic(auto)]

ghost use Rattle.std.specs.Prelude.{◌≡◌, ◌≤◌, ◌%◌, ◌^◌, length};
ghost use Rattle.number.specs.KindWords.{word_of};
ghost use Rattle.refusal.specs.Table.{first_due, answer_of};
ghost use Rattle.tasks.specs.Marks.{is_marked, mark_kind};
ghost use Rattle.tasks.specs.Lent.{Lent};
ghost use Rattle.report.specs.Report.{marks_rows};
ghost use Rattle.recall.specs.RecallCall.{recall_rows, recall_answer, marks_recalled, marks_after_recall};
ghost use Rattle.recall.specs.Clearing.{first_reached, Clearable};

use grid::{Grid, Position};
use plan::{BufferOf7, Plan};
use refusal::Refusal;

// Recalls a block: refused, or the bits of its tasks and of every task that needs one of them, directly or through others,
// are cleared, and no other bit.
#[tactic(auto, using(crate::proofs::RecallAnswers::clearable), unfolding(crate::specs::RecallCall::marks_after_recall))]
pub fn recall(plan: Plan, block: usize, marks: &mut [u32]) -> Result<(), Refusal>
    ensures answer { answer_of result ≡ recall_answer plan marks.old block }
    ensures cleared { marks.new ≡ marks_after_recall plan block marks.old }
{
    test_recall(plan, block, marks)?;
    clear_marks(plan.grid, block, marks);
    Ok(())
}

// The answer to a recall: that of the record and of the length of the marks, and then what the marks say.
#[tactic(auto, unfolding(crate::specs::RecallCall::recall_answer, plan::specs::FirstTests::sizes_for, plan::specs::FirstTests::lent_rows))]
fn test_recall(plan: Plan, block: usize, marks: &[u32]) -> Result<(), Refusal>
    ensures { answer_of result ≡ recall_answer plan marks.now block }
{
    plan.sizes_for(plan::only_of_7(Some(BufferOf7::Marks(marks.len()))))?;
    test_marks(plan.grid, block, marks)
}

// Whether there is such a block, and then what all marks say to its recall.
fn test_marks(grid: Grid, block: usize, marks: &[u32]) -> Result<(), Refusal>
    requires { Lent grid (length marks.now) }
    ensures { answer_of result ≡ first_due (recall_rows grid (is_marked marks.now) (marks_rows grid marks.now) block) }
{
    let blocks = grid.blocks();
    if blocks <= block {
        return Err(Refusal::NoSuchTask);
    }
    let broken = report::first_broken(grid, marks);
    if broken < blocks {
        return Err(Refusal::MarkBroken(broken));
    }
    if !tasks::is_marked(marks, 0, block) {
        return Err(Refusal::BlockNotCollected);
    }
    Ok(())
}

// Clears the bits of the tasks that an accepted recall reaches.
fn clear_marks(grid: Grid, recalled: usize, marks: &mut [u32])
    requires { Clearable grid marks.old recalled }
    ensures { marks.new ≡ marks_recalled grid recalled marks.old }
{
    let from = grid.position(recalled);
    let blocks = grid.blocks();
    for (block, mark) in marks[..blocks].iter_mut().enumerate() {
        let first = first_reached(from, grid.position(block));
        *mark = first_tasks_of(*mark, first);
    }
}

// The first task of a block that a recall reaches; it reaches all later ones. In columns left of the recalled block these
// are the left link and finish, right of it the right link too; in its own column, above it the up link too, below it the
// down link too; of the block itself all. One test after another: a match on both comparisons is slower (docs/DESIGN-PASS.md).
#[tactic(auto, unfolding(crate::specs::Clearing::first_reached))]
fn first_reached(recalled: Position, at: Position) -> usize
    ensures { result ≡ first_reached recalled at }
{
    if at.column < recalled.column {
        4
    } else if recalled.column < at.column {
        3
    } else if at.row < recalled.row {
        2
    } else if recalled.row < at.row {
        1
    } else {
        0
    }
}

// A mark with the bits of its first tasks alone: they are its low bits.
#[tactic(auto, using(tasks::proofs::Marking::shifted_one))]
fn first_tasks_of(mark: u32, count: usize) -> u32
    requires { count ≤ 4 }
    ensures { result ≡ word_of mark_kind (mark % 2 ^ count) }
{
    tasks::UNMARKED + mark % (1 << count)
}

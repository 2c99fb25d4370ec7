// A rectangle of a map: the tests of every call about one, and its sum by a summed-area table.
#![tactic(auto)]

ghost use Rattle.std.specs.Prelude.{◌≡◌, ◌||◌, [], ◌∷◌, ◌-◌, ◌≤◌, eqb, length};
ghost use Rattle.refusal.specs.Table.{◌at◌when◌, first_due, answer_of};
ghost use Rattle.plan.specs.Sizes.{needed_pixels};
ghost use Rattle.passes.specs.Table.{corner_of, rectangle_sum};
ghost use Rattle.rectangle.specs.Corners.{CornerFits};
ghost use Rattle.rectangle.specs.Rectangle.{table_of, Inside, outside, rectangle_rows, rectangle_call, sum_given};

use plan::{BufferOf7, Lengths, Plan};
use refusal::Refusal;

// The rows from `top` to before `bottom` and the columns from `left` to before `right`; four numbers of any size, as a
// caller gives them.
#[derive(Clone, Copy)]
pub struct Rectangle {
    pub top: usize,
    pub left: usize,
    pub bottom: usize,
    pub right: usize,
}

// The sum over a rectangle, read as signed; 0 where it is empty.
#[tactic(auto, using(crate::proofs::SumAnswers::accepted_fits), unfolding(crate::specs::Rectangle::rectangle_call))]
pub fn rectangle_sum(plan: Plan, rectangle: Rectangle, table: &[u64]) -> Result<i64, Refusal>
    ensures { sum_given result ≡ rectangle_call plan table.now rectangle.top rectangle.left rectangle.bottom rectangle.right }
{
    rectangle.test(plan, plan::only_of_7(Some(BufferOf7::Table(table.len()))))?;
    Ok(word::signed(corners(plan, rectangle, table)))
}

impl Rectangle {
    // The tests of every call about a rectangle: of the record, of the lengths of what the call is lent and of the
    // rectangle, in this order.
    #[tactic(auto, using(refusal::proofs::Table::first_append), unfolding(plan::specs::FirstTests::sizes_for))]
    pub fn test(self, plan: Plan, lent: Lengths) -> Result<(), Refusal>
        ensures { answer_of result ≡ first_due (rectangle_rows plan lent self.top self.left self.bottom self.right) }
    {
        plan.sizes_for(lent)?;
        self.test_inside(plan)
    }

    // Refused by 12 where top lies past bottom, left past right, or bottom or right past the map.
    fn test_inside(self, plan: Plan) -> Result<(), Refusal>
        ensures { answer_of result ≡ first_due (12 at 0 when outside plan self.top self.left self.bottom self.right ∷ []) }
    {
        if self.bottom < self.top
            || self.right < self.left
            || plan.grid.rows < self.bottom
            || plan.grid.columns < self.right
        {
            Err(Refusal::RectangleOutside)
        } else {
            Ok(())
        }
    }

    // Whether it has no rows or no columns.
    pub fn is_empty(self) -> bool
        ensures { result ≡ (eqb self.top self.bottom || eqb self.left self.right) }
    {
        self.top == self.bottom || self.left == self.right
    }

    // How many rows it has.
    pub fn height(self) -> usize
        requires { self.top ≤ self.bottom }
        ensures { result ≡ self.bottom - self.top }
    {
        self.bottom - self.top
    }

    // How many columns it has.
    pub fn width(self) -> usize
        requires { self.left ≤ self.right }
        ensures { result ≡ self.right - self.left }
    {
        self.right - self.left
    }
}

// The word of the four corners.
#[tactic(auto, unfolding(passes::specs::Table::rectangle_sum))]
fn corners(plan: Plan, rectangle: Rectangle, table: &[u64]) -> u64
    requires { (needed_pixels plan ≤ length table.now) × Inside plan rectangle.top rectangle.left rectangle.bottom rectangle.right }
    ensures { result ≡ rectangle_sum (table_of plan table.now) rectangle.top rectangle.left rectangle.bottom rectangle.right }
{
    let inner = word::sub(
        corner(plan, rectangle.bottom, rectangle.right, table),
        corner(plan, rectangle.top, rectangle.right, table),
    );
    let strip = word::sub(inner, corner(plan, rectangle.bottom, rectangle.left, table));
    word::add(strip, corner(plan, rectangle.top, rectangle.left, table))
}

// The table at the row and column before these; 0 before the first.
#[tactic(auto, unfolding(passes::specs::Table::corner_of))]
fn corner(plan: Plan, row: usize, column: usize, table: &[u64]) -> u64
    requires { CornerFits plan (length table.now) row column }
    ensures { result ≡ corner_of (table_of plan table.now) row column }
{
    if row == 0 || column == 0 {
        0
    } else {
        table[(row - 1) * plan.grid.columns + (column - 1)]
    }
}

// The number of dropouts of the laser in a rectangle of a map.
#![tactic(auto)]

ghost use Rattle.std.specs.Prelude.{◌≡◌, ◌≤◌, length};
ghost use Rattle.std.specs.List.{count_by};
ghost use Rattle.buffer.specs.Pixel.{is_dropout};
ghost use Rattle.plan.specs.Sizes.{needed_pixels};
ghost use Rattle.rectangle.specs.Rectangle.{Inside};
ghost use Rattle.dropouts.specs.Dropouts.{dropouts_inside, dropouts_call, count_given};

use plan::{Lengths, Plan};
use rectangle::Rectangle;
use refusal::Refusal;

// The dropouts in a rectangle; 0 where it is empty.
#[tactic(auto, using(crate::proofs::CountAnswers::accepted_fits), unfolding(crate::specs::Dropouts::dropouts_call))]
pub fn count_dropouts(plan: Plan, rectangle: Rectangle, map: &[i32]) -> Result<usize, Refusal>
    ensures { count_given result ≡ dropouts_call plan map.now rectangle.top rectangle.left rectangle.bottom rectangle.right }
{
    let lent = Lengths {
        of7: None,
        strips: None,
        map: Some(map.len()),
        output: None,
    };
    rectangle.test(plan, lent)?;
    Ok(count_inside(plan, rectangle, map))
}

// The dropouts in a rectangle of the map, row by row.
#[tactic(auto, using(crate::proofs::Rows::row_on, crate::proofs::Rows::rows_are), unfolding(number::specs::Numbers::total))]
fn count_inside(plan: Plan, rectangle: Rectangle, map: &[i32]) -> usize
    requires { (needed_pixels plan ≤ length map.now) × Inside plan rectangle.top rectangle.left rectangle.bottom rectangle.right }
    ensures { result ≡ dropouts_inside plan map.now rectangle.top rectangle.left rectangle.bottom rectangle.right }
{
    let width = rectangle.width();
    let mut found = 0;
    for row in rectangle.top..rectangle.bottom {
        let start = row * plan.grid.columns + rectangle.left;
        found += count_row(&map[start..start + width]);
    }
    found
}

// The dropouts among the heights of a row.
// A sum of 0s and 1s, several at a time: `filter` and `count`, one by one, take three times as long.
fn count_row(heights: &[i32]) -> usize
    ensures { result ≡ count_by is_dropout heights.now }
{
    let mut found = 0;
    for height in heights {
        found += usize::from(buffer::is_dropout(*height));
    }
    found
}

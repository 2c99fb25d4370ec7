// The axis and the direction of a pass, by its number: passes 0 down, 1 up, 2 right and 3 left.
// Passes stay numbers: a plan's list of passes, the strips and the tasks of the C interface count them.
// Two names each, `along` and `across`, `if_forward` and `if_backward`, so that a call says which of the two is meant.
#![tactic(auto)]

ghost use Rattle.std.specs.Prelude.{◌≡◌};
ghost use Rattle.axis.specs.Axis.{axis_of, direction_of, along, across, is_backward, if_forward, if_backward};

// Of a height and a width, or of a row and a column, the one that runs along the lines of a pass: down and up run along columns,
pub fn along(pass: usize, vertical: usize, horizontal: usize) -> usize
    ensures { result ≡ along (axis_of pass) vertical horizontal }
{
    if pass < 2 { vertical } else { horizontal }
}

// and the one that runs across them.
pub fn across(pass: usize, vertical: usize, horizontal: usize) -> usize
    ensures { result ≡ across (axis_of pass) vertical horizontal }
{
    if pass < 2 { horizontal } else { vertical }
}

// Up and left run backward.
pub fn is_backward(pass: usize) -> bool
    ensures { result ≡ is_backward (direction_of pass) }
{
    pass % 2 == 1
}

// A number that counts in a forward pass alone,
pub fn if_forward(backward: bool, number: usize) -> usize
    ensures { result ≡ if_forward backward number }
{
    if backward { 0 } else { number }
}

// and one that counts in a backward pass alone.
pub fn if_backward(backward: bool, number: usize) -> usize
    ensures { result ≡ if_backward backward number }
{
    if backward { number } else { 0 }
}

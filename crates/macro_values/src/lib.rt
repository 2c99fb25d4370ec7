// Quantities of a rectangle as macro variables of a control: its total, and its number of pixels.
#![tactic(auto)]

ghost use Rattle.std.specs.Prelude.{◌≡◌};
ghost use Rattle.rectangle.specs.Rectangle.{sum_given};
ghost use Rattle.macro_values.specs.MacroValues.{float_of, total_value, quantity_value, value_by_sum, macro_call, pair_by_sum, pair_call, variable_of, value_given, pair_given};
ghost use Rattle.macro_values.specs.ExactOrVacant.{InFloatRange};
ghost use Rattle.macro_values.specs.SumFits.{RectangleFits, SumFits};

use plan::Plan;
use rectangle::Rectangle;
use refusal::Refusal;

// A macro variable: vacant, the control's state for no value, or a quantity as a float that equals the whole number.
#[derive(Clone, Copy)]
pub enum Macro {
    Vacant,
    Total(f64),
    Pixels(f64),
}

// Which quantity of a rectangle is wanted.
#[derive(Clone, Copy)]
pub enum Quantity {
    Total,
    Pixels,
}

// Both quantities of one rectangle.
#[derive(Clone, Copy)]
pub struct MacroPair {
    pub total: Macro,
    pub pixels: Macro,
}

// The largest whole number up to which, either way, every whole number is a 64-bit float: 2^53.
const EXACT_LIMIT: i64 = 9007199254740992;

// One quantity of a rectangle, the total by a summed-area table. Both are vacant where the rectangle is empty, a total
// also outside -2^53 to 2^53.
#[tactic(auto, using(crate::proofs::Quantities::sum_fits), unfolding(crate::specs::MacroValues::macro_call))]
pub fn macro_value(
    plan: Plan,
    quantity: Quantity,
    rectangle: Rectangle,
    table: &[u64],
) -> Result<Macro, Refusal>
    ensures { value_given result ≡ macro_call quantity plan table.now rectangle.top rectangle.left rectangle.bottom rectangle.right }
{
    let answer = rectangle::rectangle_sum(plan, rectangle, table);
    value_by_sum(answer, quantity, rectangle)
}

// Total and number of pixels of one rectangle, each as `macro_value` gives it.
#[tactic(auto, using(crate::proofs::Quantities::sum_fits), unfolding(crate::specs::MacroValues::pair_call))]
pub fn macro_pair(plan: Plan, rectangle: Rectangle, table: &[u64]) -> Result<MacroPair, Refusal>
    ensures { pair_given result ≡ pair_call plan table.now rectangle.top rectangle.left rectangle.bottom rectangle.right }
{
    let answer = rectangle::rectangle_sum(plan, rectangle, table);
    pair_by_sum(answer, rectangle)
}

// ---- by the sum

// One quantity, by what `rectangle_sum` answered of the same rectangle.
pub fn value_by_sum(
    answer: Result<i64, Refusal>,
    quantity: Quantity,
    rectangle: Rectangle,
) -> Result<Macro, Refusal>
    requires { SumFits answer rectangle.top rectangle.left rectangle.bottom rectangle.right }
    ensures { value_given result ≡ value_by_sum quantity (sum_given answer) rectangle.top rectangle.left rectangle.bottom rectangle.right }
{
    let sum = answer?;
    Ok(quantity_value(quantity, sum, rectangle))
}

// Both, by what `rectangle_sum` answered of the same rectangle.
pub fn pair_by_sum(answer: Result<i64, Refusal>, rectangle: Rectangle) -> Result<MacroPair, Refusal>
    requires { SumFits answer rectangle.top rectangle.left rectangle.bottom rectangle.right }
    ensures { pair_given result ≡ pair_by_sum (sum_given answer) rectangle.top rectangle.left rectangle.bottom rectangle.right }
{
    let sum = answer?;
    Ok(MacroPair {
        total: quantity_value(Quantity::Total, sum, rectangle),
        pixels: quantity_value(Quantity::Pixels, sum, rectangle),
    })
}

// A quantity of a rectangle of the map, by the rectangle's sum.
#[tactic(auto, unfolding(crate::specs::MacroValues::quantity_value))]
fn quantity_value(quantity: Quantity, sum: i64, rectangle: Rectangle) -> Macro
    requires { RectangleFits rectangle.top rectangle.left rectangle.bottom rectangle.right }
    ensures { variable_of result ≡ quantity_value quantity sum rectangle.top rectangle.left rectangle.bottom rectangle.right }
{
    if rectangle.is_empty() {
        return Macro::Vacant;
    }
    match quantity {
        Quantity::Total => total_value(sum),
        Quantity::Pixels => {
            let pixels = rectangle.height() * rectangle.width();
            Macro::Pixels(whole_float(pixels as i64))
        }
    }
}

// The total of a rectangle that is not empty.
#[tactic(auto, unfolding(crate::specs::MacroValues::total_value))]
fn total_value(sum: i64) -> Macro
    ensures { variable_of result ≡ total_value sum }
{
    if sum < -EXACT_LIMIT || EXACT_LIMIT < sum {
        Macro::Vacant
    } else {
        Macro::Total(whole_float(sum))
    }
}

// The float that equals a whole number from -2^53 to 2^53.
#[tactic(auto, using(crate::proofs::WholeFloats::machine_converts))]
fn whole_float(number: i64) -> f64
    requires { InFloatRange number }
    ensures { result ≡ float_of number }
{
    number as f64
}

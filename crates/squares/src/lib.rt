// Passes along single lines, and the squares of the links: how a history moves across a line of zeros.
// An inner crate: what its functions require, their callers in this repository show. Places of whole buffers stay numbers, as those
// of `buffer` do.
#![tactic(auto)]

ghost use Rattle.std.specs.Prelude.{◌≡◌, ℕ, ◌+◌, ◌*◌, ◌<◌, ◌≤◌, length};
ghost use Rattle.number.specs.Numbers.{row_major};
ghost use Rattle.grid.specs.Grid.{side_limit};
ghost use Rattle.plan.specs.Rules.{order_limit};
ghost use Rattle.buffer.specs.Lists.{word_at};
ghost use Rattle.axis.specs.Axis.{direction_of};
ghost use Rattle.filter.specs.Windows.{beyond};
ghost use Rattle.squares.specs.LineBuffers.{row_words, filter_at, OrdersFit, rows_before, line_pass, unit_lines, square_at, LinesFit, UnitsFit};
ghost use Rattle.squares.specs.LinePasses.{axis_start, axis_passes};
ghost use Rattle.squares.specs.Rows.{LinesPassed};

use filter::{FilterWords, Window};

// The words of a row of lines: the longest line, and a history at both ends.
pub const ROW: usize = plan::PADDED_LINE;

// The words of a buffer of lines: a row for each place of the histories of four passes.
pub const LINES: usize = plan::ORDER_SUM_LIMIT * ROW;

// The index, from the start of a margin of ORDER_LIMIT places on, of the place at a distance past an extent, on the side
// where a pass comes from.
pub fn margin(pass: usize, extent: usize, distance: usize) -> usize
    requires { (extent ≤ side_limit) × (distance < order_limit) }
    ensures { result ≡ beyond (direction_of pass) order_limit extent distance }
{
    if axis::is_backward(pass) {
        plan::ORDER_LIMIT + extent + distance
    } else {
        plan::ORDER_LIMIT - 1 - distance
    }
}

// Of the passes, the first that runs along the same axis as a pass,
pub fn axis_start(pass: usize) -> usize
    ensures { result ≡ axis_start pass }
{
    axis::along(pass, 0, 2)
}

// and how many there are from that one to the pass itself.
pub fn axis_passes(pass: usize) -> usize
    ensures { result ≡ axis_passes pass }
{
    if axis::is_backward(pass) { 2 } else { 1 }
}

// The rows of the passes before a pass.
pub fn rows_before(filters: &[FilterWords; 4], pass: usize) -> usize
    requires { OrdersFit (filter_at filters.now) × (pass ≤ 4) }
    ensures { result ≡ rows_before (filter_at filters.now) pass }
{
    let mut rows = 0;
    for filter in &filters[..pass] {
        rows += filter.order;
    }
    rows
}

// A pass along the lines of a buffer, in the rows of the passes up to it: the rows of later passes wait for theirs.
fn line_pass(lines: &mut [u64], places: usize, filters: &[FilterWords; 4], pass: usize)
    requires { LinesFit (length lines.old) (filter_at filters.now) places pass 1 }
    ensures { lines.new ≡ line_pass (filter_at filters.now) places pass lines.old }
{
    let rows = rows_before(filters, pass + 1);
    if 0 < rows {
        let window = Window {
            stride: ROW,
            top: 0,
            left: plan::ORDER_LIMIT,
            height: rows,
            width: places,
        };
        // Right for a forward pass, left for a backward one.
        let along_rows = 1 + axis_passes(pass);
        filter::run_pass(lines, window, along_rows, plan::ORDER_LIMIT, filters[pass]);
    }
}

// The passes from `first` on, `count` of them, along the lines of a buffer.
pub fn run_lines(
    lines: &mut [u64],
    places: usize,
    filters: &[FilterWords; 4],
    first: usize,
    count: usize,
)
    requires { LinesFit (length lines.old) (filter_at filters.now) places first count }
    ensures { LinesPassed (filter_at filters.now) places first count lines.old lines.new }
{
    for pass in first..first + count {
        line_pass(lines, places, filters, pass);
    }
}

// Puts the unit history j beside line j, from a row on, for each j below the order.
#[tactic(auto, using(crate::proofs::Lines::margin_below))]
pub fn unit_lines(lines: &mut [u64], row: usize, pass: usize, places: usize, order: usize)
    requires { UnitsFit (length lines.old) row places order }
    ensures { lines.new ≡ unit_lines (direction_of pass) row places order lines.old }
{
    for line in 0..order {
        let column = margin(pass, places, line);
        lines[(row + line) * ROW + column] = 1;
    }
}

// A row of a square: the words of a line from `start` in the buffer on.
fn square_row(lines: &[u64], start: usize) -> [u64; plan::ORDER_LIMIT]
    requires { start + order_limit ≤ length lines.now }
    ensures { (place : ℕ) → place < order_limit → word_at result place ≡ word_at lines.now (start + place) }
{
    let mut words = [0; plan::ORDER_LIMIT];
    words.copy_from_slice(&lines[start..start + plan::ORDER_LIMIT]);
    words
}

// A square: what each of `count` lines, from a row on, has in the columns from column `from` on. Its rows are whole, also
// where fewer columns are meant: the compiler then moves a row at once.
pub fn square_from(
    lines: &[u64],
    row: usize,
    count: usize,
    from: usize,
) -> [[u64; plan::ORDER_LIMIT]; plan::ORDER_LIMIT]
    requires { (count ≤ order_limit) × (from + order_limit ≤ row_words) × ((row + count) * row_words ≤ length lines.now) }
    ensures { (line place : ℕ) → line < count → place < order_limit → square_at result line place ≡ word_at lines.now (row_major row_words (row + line) (from + place)) }
{
    let mut square = [[0; plan::ORDER_LIMIT]; plan::ORDER_LIMIT];
    for line in 0..count {
        square[line] = square_row(lines, (row + line) * ROW + from);
    }
    square
}

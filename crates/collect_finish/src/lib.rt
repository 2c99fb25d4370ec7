// Collect and finish: the passes over one block, in a work array with a margin of words around the block.
// An inner crate: what its functions require, their callers in this repository show.
// Buffers come whole, with places as numbers, as those of `buffer` do.
#![tactic(auto)]

ghost use Rattle.std.specs.Prelude.{◌≡◌, ◌+◌, ◌<◌, ◌≤◌, length};
ghost use Rattle.axis.specs.Axis.{axis_of, direction_of};
ghost use Rattle.filter.specs.FilterWords.{filter_with};
ghost use Rattle.task_words.specs.declared.Half.TheVariants.{Lone};
ghost use Rattle.task_words.specs.Strips.{strip_written};
ghost use Rattle.filter.specs.PlanFilters.{map_of};
ghost use Rattle.task_words.specs.Writes.{collected, finished};
ghost use Rattle.strips.specs.StripRecord.{strip_before, EdgeFits};
ghost use Rattle.buffer.specs.Copies.{scaled_from, heights_from, stride_heights, stride_written, StrideFits};
ghost use Rattle.buffer.specs.Written.{row_written};
ghost use Rattle.plan.specs.Sizes.{needed_pixels};
ghost use Rattle.collect_finish.specs.Work.{work_stride, work_words, block_loaded, work_place, margin_start, MarginLoaded, block_pass, PassesRun, work_edge};
ghost use Rattle.collect_finish.specs.Rectangles.{CopyFits, rectangle_copied};
ghost use Rattle.collect_finish.specs.WorkFits.{ShapedBlock, CollectFits, FinishFits, PassFits, ReadyToFinish, StripMoves, MarginFits};

use filter::{FilterWords, Window};
use grid::BlockShape;
use plan::Plan;
use task_words::Half;

// The margin on each side of the block, the words of a row of the work array, and the first word of the block in it.
const MARGIN: usize = plan::ORDER_LIMIT;

const STRIDE: usize = plan::PADDED_LINE;

const CORNER: usize = MARGIN * STRIDE + MARGIN;

// As many heights as a cache line of 64 bytes holds, and the pairs that they make.
const LINE_HEIGHTS: usize = 16;

const LINE_PAIRS: usize = LINE_HEIGHTS / 2;

// The rows of a rectangle in a buffer: where the first begins, and how far apart they begin.
#[derive(Clone, Copy)]
struct Rows {
    start: usize,
    stride: usize,
}

// A rectangle in a buffer: its rows, their number, and the words of each.
#[derive(Clone, Copy)]
struct BufferRectangle {
    start: usize,
    stride: usize,
    height: usize,
    width: usize,
}

// Block k of a plan, and its shape. That the plan keeps its rules, and the block is in its map, stands here once.
#[derive(Drop)]
struct Block {
    plan: Plan,
    k: usize,
    shape: BlockShape,
    ghost placed: { ShapedBlock plan k shape },
}

// Block k's four lone strips: the passes over its pixels, zeros around it. The passes run with gain 1; a strip takes the
// gains of its pass and of those before it.
#[tactic(auto, using(crate::proofs::WorkCells::blank_sized))]
pub fn collect(plan: Plan, k: usize, map: &[i32], strips: &mut [u64])
    requires { CollectFits plan k (length map.now) (length strips.old) }
    ensures { strips.new ≡ collected plan (map_of plan map.now) k strips.old }
{
    let shape = plan.grid.block_shape(k);
    let block = Block { plan, k, shape };
    let mut work = [0; STRIDE * STRIDE];
    block.load(map, &mut work);
    for (pass, described) in plan.passes.iter().enumerate() {
        let words = filter::filter_with_gain(*described, 1);
        block.run_pass(pass, words, &mut work);
        let gain = filter::gains_from(plan, 0, pass + 1);
        block.write_strip(pass, gain, &work, strips);
    }
}

// Block k's output words: one copy of its pixels into the work array, the four passes there, one copy of its words out.
#[tactic(auto, using(crate::proofs::WorkCells::blank_sized))]
pub fn finish(plan: Plan, k: usize, map: &[i32], strips: &[u64], output: &mut [u64])
    requires { FinishFits plan k (length map.now) (length strips.now) (length output.old) }
    ensures { output.new ≡ finished plan (map_of plan map.now) strips.now k output.old }
{
    let shape = plan.grid.block_shape(k);
    let block = Block { plan, k, shape };
    let mut work = [0; STRIDE * STRIDE];
    block.load(map, &mut work);
    block.run_passes(strips, 4, &mut work);
    let source = BufferRectangle {
        start: CORNER,
        stride: STRIDE,
        height: shape.rows,
        width: shape.columns,
    };
    let target = Rows {
        start: shape.start,
        stride: plan.grid.columns,
    };
    source.copy(&work, output, target, 1);
}

impl Block {
    // The block's pixels into the work array, in groups of columns as wide as a cache line. Its rows lie far apart in
    // the map, and a copy of whole rows waits for one row's lines after another's; of a group, the lines of many rows
    // are on their way together.
    #[tactic(auto, using(crate::proofs::WorkPlaces::shape_in_work))]
    fn load(&self, map: &[i32], work: &mut [u64])
        requires { (needed_pixels self.now.plan ≤ length map.now) × (length work.old ≡ work_words) }
        ensures { work.new ≡ block_loaded self.now.shape (stride_heights map.now self.now.shape.start self.now.plan.grid.columns) work.old }
    {
        let shape = self.shape;
        let stride = self.plan.grid.columns;
        for column in (0..shape.columns).step_by(LINE_HEIGHTS) {
            let group = BufferRectangle {
                start: shape.start + column,
                stride,
                height: shape.rows,
                width: LINE_HEIGHTS.min(shape.columns - column),
            };
            group.load(map, work, CORNER + column);
        }
    }

    // The first `count` passes over the block in the work array (finish wants all four; what holds is said over their
    // number), the neighbours' strips past its edges: each goes into the margin before the pass that reads it. The
    // first pass runs with all four gains, the others with gain 1; a strip takes the gains of the passes after its own.
    fn run_passes(&self, strips: &[u64], count: usize, work: &mut [u64])
        requires { ReadyToFinish self.now.plan self.now.shape count (length strips.now) work.old }
        ensures { PassesRun self.now.plan self.now.k self.now.shape strips.now count work.old work.new }
    {
        for pass in 0..count {
            let gain = filter::gains_after(self.plan, pass, 3);
            self.load_margin(pass, gain, strips, work);
            let words = filter::gains_first(self.plan, pass);
            self.run_pass(pass, words, work);
        }
    }

    // One pass over the block in the work array, the margin standing for the outputs past its edge.
    #[tactic(auto, using(crate::proofs::WorkPlaces::shape_in_work, crate::proofs::WorkPlaces::window_fits), unfolding(crate::specs::Work::block_pass))]
    fn run_pass(&self, pass: usize, words: FilterWords, work: &mut [u64])
        requires { PassFits words.order (length work.old) }
        ensures { work.new ≡ block_pass self.now.shape pass (filter_with words) work.old }
    {
        let window = Window {
            stride: STRIDE,
            top: MARGIN,
            left: MARGIN,
            height: self.shape.rows,
            width: self.shape.columns,
        };
        filter::run_pass(work, window, pass, words.order, words);
    }

    // The words past the block's edge, from the linked strip of the neighbour there, times a gain. Where no word of the
    // neighbour stands, the margin is 0 from the start.
    fn load_margin(&self, pass: usize, gain: u64, strips: &[u64], work: &mut [u64])
        requires { MarginFits self.now.plan self.now.shape pass (length strips.now) work.old }
        ensures { MarginLoaded self.now.plan self.now.shape pass gain (strip_before self.now.plan self.now.k pass) strips.now work.old work.new }
    {
        let order = self.plan.order(pass);
        let strip = strips::strip_before(self.plan, self.k, pass);
        let first = strip.first;
        let places = strip.past - first;
        let index = margin_start(pass, order, self.shape.extent(pass)) + first;
        let height = axis::along(pass, places, strip.lines);
        let width = axis::across(pass, places, strip.lines);
        let source = BufferRectangle {
            start: strip.first_at(first),
            stride: axis::along(pass, strip.place_step, strip.line_step),
            height,
            width,
        };
        let target = Rows {
            start: work_place(pass, index),
            stride: STRIDE,
        };
        source.copy(strips, work, target, gain);
    }

    // The block's lone strip of a pass from the work array, times a gain, zeros around the block; 0 where no neighbour
    // needs the strip.
    fn write_strip(&self, pass: usize, gain: u64, work: &[u64], strips: &mut [u64])
        requires { StripMoves self.now.plan pass (length strips.old) (length work.now) }
        ensures { strips.new ≡ strip_written self.now.plan Lone self.now.k pass (work_edge self.now.plan self.now.k pass gain work.now) strips.old }
    {
        let grid = self.plan.grid;
        let needed = grid.goes_on(grid.position(self.k), pass);
        let side = grid.side;
        let order = self.plan.order(pass);
        let start = strips::strip_start(self.plan, Half::Lone, self.k, pass);
        if !needed {
            buffer::clear_words(strips, start, 1, side * order);
            return;
        }
        let index = strips::edge_start(pass, order, self.shape.extent(pass));
        let width = axis::across(pass, order, side);
        let height = axis::along(pass, order, side);
        let source = BufferRectangle {
            start: work_place(pass, index),
            stride: STRIDE,
            height,
            width,
        };
        let target = Rows {
            start,
            stride: width,
        };
        source.copy(work, strips, target, gain);
    }
}

impl BufferRectangle {
    // The rectangle, times a gain, into rows of another buffer: along its longer side, since a loop over a few words
    // costs more than the words.
    fn copy(self, from: &[u64], to: &mut [u64], target: Rows, gain: u64)
        requires { CopyFits self target (length from.now) (length to.old) × (self.width ≤ target.stride) }
        ensures { to.new ≡ rectangle_copied gain self target from.now to.old }
    {
        if self.width < self.height {
            self.copy_columns(from, to, target, gain)
        } else {
            self.copy_rows(from, to, target, gain)
        }
    }

    // Column by column, of at least one row. The places in `to` differ, so that their order does not count.
    // Columns and rows by two loops: a row's words stand together, and move at once where nothing scales them.
    #[tactic(auto, using(crate::proofs::CopiedColumns::columns_none))]
    fn copy_columns(self, from: &[u64], to: &mut [u64], target: Rows, gain: u64)
        requires { CopyFits self target (length from.now) (length to.old) × (self.width ≤ target.stride) × (0 < self.height) }
        ensures { to.new ≡ rectangle_copied gain self target from.now to.old }
    {
        for column in 0..self.width {
            buffer::scale_words(
                from,
                self.start + column,
                self.stride,
                to,
                target.start + column,
                target.stride,
                self.height,
                gain,
            );
        }
    }

    // Row by row.
    #[tactic(auto, using(crate::proofs::CopiedRows::rows_none))]
    fn copy_rows(self, from: &[u64], to: &mut [u64], target: Rows, gain: u64)
        requires { CopyFits self target (length from.now) (length to.old) }
        ensures { to.new ≡ rectangle_copied gain self target from.now to.old }
    {
        for row in 0..self.height {
            copy_row(
                from,
                self.start + row * self.stride,
                to,
                target.start + row * target.stride,
                self.width,
                gain,
            );
        }
    }

    // The words of its heights, row by row, to rows of the work array: the loop of `copy_rows`, over a row that is read and not
    // copied.
    #[tactic(auto, using(crate::proofs::CopiedRows::rows_none))]
    fn load(self, map: &[i32], work: &mut [u64], work_start: usize)
        requires { StrideFits (length map.now) self.start self.stride self.height self.width × StrideFits (length work.old) work_start work_stride self.height self.width }
        ensures { work.new ≡ stride_written work_start work_stride self.width (stride_heights map.now self.start self.stride) self.height work.old }
    {
        for row in 0..self.height {
            load_row(
                map,
                self.start + row * self.stride,
                work,
                work_start + row * STRIDE,
                self.width,
            );
        }
    }
}

// Words times a gain. With gain 1 they are a plain copy, which the compiler moves at once.
#[tactic(auto, using(buffer::proofs::Copies::words_fit, crate::proofs::CopiedRows::unscaled_row))]
fn copy_row(
    from: &[u64],
    from_start: usize,
    to: &mut [u64],
    to_start: usize,
    count: usize,
    gain: u64,
)
    requires { (from_start + count ≤ length from.now) × (to_start + count ≤ length to.old) }
    ensures { to.new ≡ row_written to_start (scaled_from gain from.now from_start 1) count to.old }
{
    if gain == 1 {
        buffer::copy_words(from, from_start, to, to_start, count);
    } else {
        buffer::scale_words(from, from_start, 1, to, to_start, 1, count, gain);
    }
}

// The words of two heights. Both are read before one is stored: the compiler, which does not know that map and work
// array lie apart, then handles the two at once.
fn load_pair(map: &[i32], map_start: usize, work: &mut [u64], work_start: usize)
    requires { (map_start + 2 ≤ length map.now) × (work_start + 2 ≤ length work.old) }
    ensures { work.new ≡ row_written work_start (heights_from map.now map_start) 2 work.old }
{
    let first = buffer::read_pixel(map[map_start]);
    let second = buffer::read_pixel(map[map_start + 1]);
    work[work_start] = first;
    work[work_start + 1] = second;
}

// The words of as many heights as a cache line holds, in a loop of known length, which the compiler writes out.
fn load_line(map: &[i32], map_start: usize, work: &mut [u64], work_start: usize)
    requires { (map_start + 16 ≤ length map.now) × (work_start + 16 ≤ length work.old) }
    ensures { work.new ≡ row_written work_start (heights_from map.now map_start) 16 work.old }
{
    for pair in 0..LINE_PAIRS {
        load_pair(map, map_start + 2 * pair, work, work_start + 2 * pair);
    }
}

// The words of a row's heights: a whole line by the loop of known length, which is the faster.
fn load_row(map: &[i32], map_start: usize, work: &mut [u64], work_start: usize, count: usize)
    requires { (map_start + count ≤ length map.now) × (work_start + count ≤ length work.old) }
    ensures { work.new ≡ row_written work_start (heights_from map.now map_start) count work.old }
{
    if count == LINE_HEIGHTS {
        load_line(map, map_start, work, work_start);
    } else {
        buffer::read_heights(map, map_start, work, work_start, count);
    }
}

// The place in the work array of an index of the block's first line.
#[tactic(auto, using(crate::proofs::WorkPlaces::place_along))]
fn work_place(pass: usize, index: usize) -> usize
    requires { index ≤ work_stride }
    ensures { result ≡ work_place (axis_of pass) 0 index }
{
    axis::along(pass, index * STRIDE + MARGIN, MARGIN * STRIDE + index)
}

// The first index of the margin that a pass reads, of a block of so many places along the pass.
#[tactic(auto, using(axis::proofs::Passes::runs_forward, axis::proofs::Passes::runs_backward))]
fn margin_start(pass: usize, order: usize, extent: usize) -> usize
    requires { EdgeFits order extent }
    ensures { result ≡ margin_start (direction_of pass) order extent }
{
    if axis::is_backward(pass) {
        MARGIN + extent
    } else {
        MARGIN - order
    }
}

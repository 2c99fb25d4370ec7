// The responses: what the strips of the needs bring to the link's own. The passes of the other axis, which come before those of
// the link's own, run over them, with the ends of the lines past them.
ghost use Rattle.std.specs.Prelude.{◌≡◌, ℕ, ◌<◌, length};
ghost use Rattle.buffer.specs.Lists.{word_at};
ghost use Rattle.axis.specs.Axis.{direction_of};
ghost use Rattle.squares.specs.LineBuffers.{filter_at};
ghost use Rattle.link.specs.Lines.{LinesReady};
ghost use Rattle.grid.specs.Grid.{side_limit};
ghost use Rattle.plan.specs.Rules.{order_limit};
ghost use Rattle.link.specs.Crossing.{response_place, ends_copied, EndsFit, Crossed, CrossFits, crossed_words, Held};

use super::{BlockLink, Course};
use filter::Window;

// The words of a buffer of responses: a row of ORDER_LIMIT words for each line, between margins of ORDER_LIMIT rows.
pub(crate) const RESPONSES: usize = squares::ROW * plan::ORDER_LIMIT;

// Where the response at a line and a place stands.
pub(crate) fn response_place(line: usize, place: usize) -> usize
    requires { (line < side_limit) × (place < order_limit) }
    ensures { result ≡ response_place line place }
{
    (plan::ORDER_LIMIT + line) * plan::ORDER_LIMIT + place
}

// Puts the ends of lines, from a row on, into the margin of the responses.
fn copy_ends(
    responses: &mut [u64],
    lines: &[u64],
    row: usize,
    course: &Course,
    pass: usize,
    order: usize,
)
    requires { EndsFit course.now row order (length lines.now) (length responses.old) }
    ensures { responses.new
        ≡ ends_copied (direction_of pass) course.now row lines.now order responses.old }
{
    for distance in 0..order {
        let to = squares::margin(pass, course.lines, distance);
        buffer::copy_words(
            lines,
            (row + distance) * squares::ROW + course.from,
            responses,
            to * plan::ORDER_LIMIT,
            course.order,
        );
    }
}

impl BlockLink {
    // A pass of the other axis over the responses.
    fn cross_pass(&self, responses: &mut [u64], lines: &[u64], pass: usize)
        requires { CrossFits (filter_at self.now.filters) self.now.course (length lines.now) (length responses.old) × (pass < 2) }
        ensures { Crossed (filter_at self.now.filters) self.now.course pass lines.now
            responses.old responses.new }
    {
        let course = &self.course;
        let filter = &self.filters[pass];
        let row = squares::rows_before(&self.filters, pass);
        copy_ends(responses, lines, row, course, pass, filter.order);
        let window = Window {
            stride: plan::ORDER_LIMIT,
            top: plan::ORDER_LIMIT,
            left: 0,
            height: course.lines,
            width: course.order,
        };
        filter::run_pass(responses, window, pass, plan::ORDER_LIMIT, *filter);
    }

    // The passes of the other axis that come before those of the link's own, over the responses.
    pub(crate) fn cross(&self, responses: &mut [u64], lines: &[u64])
        requires cross_fits { CrossFits (filter_at self.now.filters) self.now.course (length lines.now) (length responses.old) }
        requires by_index { (z : ℕ) → word_at responses.old z ≡ 0 }
        ensures { (H : ℕ → ℕ → ℕ → ℕ) → LinesReady (filter_at self.now.filters) self.now.course H lines.now
            → Held self.now.course (crossed_words (filter_at self.now.filters) self.now.course H) responses.new }
    {
        for pass in 0..self.course.first {
            self.cross_pass(responses, lines, pass);
        }
    }
}

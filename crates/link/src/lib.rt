// The four links: of a lone strip and the strips of its needs, the linked strip. No heights are read, and no block is swept:
// the passes run along the unit histories of each pass, along the few lines past the block's edges, and over their ends. They
// run with gain 1; the words past an edge take the gains of the passes after their own, up to the link's.
// An inner crate: what its functions require, their callers in this repository show. Places of whole buffers stay numbers, as those
// of `buffer` do.
#![tactic(auto)]

mod ahead;
mod carrying;
mod crossing;
mod lines;
mod writing;

ghost use Rattle.std.specs.Prelude.{◌≡◌, ◌<◌, ◌≤◌, length};
ghost use Rattle.axis.specs.Axis.{direction_of};
ghost use Rattle.task_words.specs.Strips.{from_edge};
ghost use Rattle.task_words.specs.Writes.{linked};
ghost use Rattle.strips.specs.StripRecord.{StripAt, EdgeFits};
ghost use Rattle.link.specs.Courses.{unit_gain_filters, course_along, course_of, edge_of, LinkAt};

use filter::FilterWords;
use plan::Plan;
use strips::Strip;
use task_words::Half;

// The link of a pass of block k: its linked strip is that of the whole map where the strips of its needs are.
pub fn link(plan: Plan, k: usize, pass: usize, strips: &mut [u64])
    requires { LinkAt plan k pass (length strips.old) }
    ensures { strips.new ≡ linked plan k pass strips.old }
{
    let course = course_of(plan, k, pass);
    if course.order == 0 {
        return;
    }
    let link = BlockLink {
        plan,
        k,
        course,
        filters: unit_gain_filters(plan),
    };
    // Both buffers are cleared before any pass runs: a link takes longer with a clear between (docs/changes/CR08.md).
    let mut lines = [0; squares::LINES];
    let mut responses = [0; crossing::RESPONSES];
    let read = ahead::read_strips(strips, plan, k, pass);
    link.link_lines(&mut lines, strips);
    link.cross(&mut responses, &lines);
    link.carry(&mut responses, &lines, strips);
    // What was read ahead goes into the margin, where nothing reads it.
    responses[0] = read;
    let lone = strips::strip_of(plan, Half::Lone, k, pass);
    let shift = plan.half_words();
    let side = plan.grid.side;
    writing::write_strip(strips, lone, shift, course.order, side, &responses);
}

// The passes along the axis of a link, `passes` of them from `first` on; the lines that they run along and the places of each;
// and the column, in a row of lines, of the first place of the strip.
#[derive(Clone, Copy)]
pub struct Course {
    pub pass: usize,
    pub first: usize,
    pub passes: usize,
    pub places: usize,
    pub lines: usize,
    pub from: usize,
    pub order: usize,
}

// The link of a pass of block k of a plan: its course, and the plan's filters with gain 1.
#[derive(Clone, Copy)]
pub struct BlockLink {
    pub plan: Plan,
    pub k: usize,
    pub course: Course,
    pub filters: [FilterWords; 4],
}

// An edge of a block: the strip past it, the pass that comes from there and its order, and the gain that the strip's words are
// taken times.
#[derive(Clone, Copy)]
pub struct Edge {
    pub strip: Strip,
    pub pass: usize,
    pub order: usize,
    pub gain: u64,
}

impl BlockLink {
    // The edge where a pass comes from. The gain is that of the passes after it, up to the link's own.
    fn edge(&self, pass: usize) -> Edge
        requires { StripAt self.now.plan self.now.k pass × (pass ≤ self.now.course.pass) × (self.now.course.pass < 4) }
        ensures { result ≡ edge_of self.now pass }
    {
        Edge {
            strip: strips::strip_before(self.plan, self.k, pass),
            pass,
            order: self.filters[pass].order,
            gain: filter::gains_after(self.plan, pass, self.course.pass),
        }
    }
}

impl Edge {
    // The place of the strip's lines at a distance from the edge.
    fn place(&self, distance: usize) -> usize
        requires { distance < self.now.order }
        ensures { result ≡ from_edge (direction_of self.now.pass) self.now.order distance }
    {
        if axis::is_backward(self.pass) {
            distance
        } else {
            self.order - 1 - distance
        }
    }
}

// The course of a link of a pass along lines of so many places.
fn course_along(pass: usize, places: usize, lines: usize, order: usize) -> Course
    requires { EdgeFits order places }
    ensures { result ≡ course_along pass places lines order }
{
    Course {
        pass,
        first: squares::axis_start(pass),
        passes: squares::axis_passes(pass),
        places,
        lines,
        from: strips::edge_start(pass, order, places),
        order,
    }
}

// The course of the link of a pass of block k.
fn course_of(plan: Plan, k: usize, pass: usize) -> Course
    requires { StripAt plan k pass }
    ensures { result ≡ course_of plan k pass }
{
    let grid = plan.grid;
    let shape = grid.block_shape(k);
    course_along(
        pass,
        shape.extent(pass),
        shape.lines(pass),
        plan.order(pass),
    )
}

// The words of the four filters of a plan, with gain 1.
fn unit_gain_filters(plan: Plan) -> [FilterWords; 4]
    ensures { result ≡ unit_gain_filters plan }
{
    // One by one: `map` would ask for a contract on its closure, and move the passes into an iterator first.
    let [down, up, right, left] = plan.passes;
    [
        filter::filter_with_gain(down, 1),
        filter::filter_with_gain(up, 1),
        filter::filter_with_gain(right, 1),
        filter::filter_with_gain(left, 1),
    ]
}

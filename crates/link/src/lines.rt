// The lines of a link, each in a row of words: the lines past the block's edges, and the unit histories of the passes of its
// axis. These passes run along them.
ghost use Rattle.std.specs.Prelude.{◌≡◌, ◌+◌, ◌<◌, length};
ghost use Rattle.axis.specs.Axis.{direction_of};
ghost use Rattle.squares.specs.LineBuffers.{line_words, filter_at};
ghost use Rattle.link.specs.Courses.{LinkFits, edges_of};
ghost use Rattle.link.specs.Lines.{lines_inside, strip_line, strip_lines, StripRows, PassToFill, PassFilled, ZeroWords, LinesFilled, LinesReady};

use super::{BlockLink, Edge};
use strips::Strip;

// How many of the first `count` lines of a strip have a word in the block at a place.
#[tactic(auto, unfolding(crate::specs::Lines::lines_inside))]
pub(crate) fn lines_inside(strip: Strip, place: usize, count: usize) -> usize
    ensures { result ≡ lines_inside strip place count }
{
    if strip.first <= place && place < strip.past {
        count.min(strip.lines)
    } else {
        0
    }
}

impl Edge {
    // Puts the words of the strip at one place of its lines, times the gain, into a row of lines; the words outside the block
    // are left out.
    fn put_line(&self, lines: &mut [u64], row: usize, places: usize, strips: &[u64], place: usize)
        requires { StripRows (length lines.old) row 1 places (length strips.now) self.now.strip }
        ensures { lines.new ≡ strip_line self.now.gain self.now.strip strips.now place row places lines.old }
    {
        let count = lines_inside(self.strip, place, places);
        if 0 < count {
            buffer::scale_words(
                strips,
                self.strip.first_at(place),
                self.strip.line_step,
                lines,
                row * squares::ROW + plan::ORDER_LIMIT,
                1,
                count,
                self.gain,
            );
        }
    }

    // Puts the lines of the strip at each distance from the edge, times the gain, into rows of lines, from a row on.
    fn put_lines(&self, lines: &mut [u64], row: usize, places: usize, strips: &[u64])
        requires { StripRows (length lines.old) row self.now.order places (length strips.now) self.now.strip }
        ensures { lines.new
            ≡ strip_lines self.now.gain (direction_of self.now.pass) self.now.order self.now.strip strips.now row places self.now.order lines.old }
    {
        for distance in 0..self.order {
            let place = self.place(distance);
            self.put_line(lines, row + distance, places, strips, place);
        }
    }
}

impl BlockLink {
    // Fills the rows of a pass: with the lines past the block's edge, times the gains of the passes after it, where the pass
    // runs along the other axis, and with the unit histories where it runs along the link's own.
    fn fill_pass(&self, lines: &mut [u64], strips: &[u64], pass: usize)
        requires { PassToFill self.now (length strips.now) pass lines.old }
        ensures { PassFilled (filter_at self.now.filters) self.now.course (edges_of self.now strips.now) pass
            lines.old lines.new }
    {
        let places = self.course.places;
        let row = squares::rows_before(&self.filters, pass);
        if pass < self.course.first {
            let edge = self.edge(pass);
            edge.put_lines(lines, row, places, strips);
        } else {
            squares::unit_lines(lines, row, pass, places, self.filters[pass].order);
        }
    }

    // Fills the rows of all passes.
    fn fill_lines(&self, lines: &mut [u64], strips: &[u64])
        requires link_fits { LinkFits self.now (length strips.now) }
        requires zero_words { ZeroWords line_words lines.old }
        ensures { LinesFilled (filter_at self.now.filters) self.now.course (edges_of self.now strips.now)
            (self.now.course.first + self.now.course.passes) lines.new }
    {
        for pass in 0..self.course.first + self.course.passes {
            self.fill_pass(lines, strips, pass);
        }
    }

    // The lines of a link after the passes of its axis: the ends of the lines past the block's edges, and the squares.
    pub(crate) fn link_lines(&self, lines: &mut [u64], strips: &[u64])
        requires link_fits { LinkFits self.now (length strips.now) }
        requires zero_words { ZeroWords line_words lines.old }
        ensures { LinesReady (filter_at self.now.filters) self.now.course (edges_of self.now strips.now) lines.new }
    {
        let course = &self.course;
        self.fill_lines(lines, strips);
        squares::run_lines(
            lines,
            course.places,
            &self.filters,
            course.first,
            course.passes,
        );
    }
}

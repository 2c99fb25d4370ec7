// The histories of the lines in the link's own axis, moved across the block by their squares and added to the responses.
ghost use Rattle.std.specs.Prelude.{◌≡◌, ◌+◌, ◌*◌, ◌<◌, ◌≤◌, length};
ghost use Rattle.word.specs.Word.{◌⊗◌};
ghost use Rattle.plan.specs.Rules.{order_limit};
ghost use Rattle.buffer.specs.Lists.{word_at};
ghost use Rattle.axis.specs.Axis.{direction_of};
ghost use Rattle.strips.specs.StripRecord.{strip_read};
ghost use Rattle.squares.specs.LineBuffers.{filter_at};
ghost use Rattle.link.specs.Crossing.{crossed_words, Held};
ghost use Rattle.link.specs.Carrying.{WordPerLine, multiple_added, MultiplesFit, MultiplesAdded, DistanceAdded, HistoriesFit, history_word, HistoriesAdded, CarryFits, PassToCarry, Carried, response_of};
ghost use Rattle.link.specs.Courses.{edges_of};

use super::{BlockLink, Course, Edge};

// Adds a multiple of words that lie `step` apart in the strips, one for each line, to a place of the responses.
fn add_multiple(
    responses: &mut [u64],
    place: usize,
    strips: &[u64],
    at: usize,
    step: usize,
    lines: usize,
    weight: u64,
)
    requires { (place < order_limit) × WordPerLine (length responses.old) (length strips.now) at step lines }
    ensures { responses.new
        ≡ multiple_added place strips.now at step weight lines responses.old }
{
    for line in 0..lines {
        let to = super::crossing::response_place(line, place);
        let product = word::mul(strips[at + line * step], weight);
        responses[to] = word::add(responses[to], product);
    }
}

// Adds such words, times a gain, to all places of the responses, times the weight of each place. The weight takes the
// gain, once for all lines.
fn add_multiples(
    responses: &mut [u64],
    order: usize,
    strips: &[u64],
    at: usize,
    step: usize,
    lines: usize,
    weights: &[u64; plan::ORDER_LIMIT],
    gain: u64,
)
    requires { MultiplesFit order (length responses.old) (length strips.now) at step lines }
    ensures { MultiplesAdded lines order (λ l. gain ⊗ word_at strips.now (at + l * step))
        (word_at weights.now) responses.old responses.new }
{
    for place in 0..order {
        let weight = word::mul(gain, weights[place]);
        add_multiple(responses, place, strips, at, step, lines, weight);
    }
}

impl Edge {
    // Adds the strip's words at one place of its lines, times the gain, to all places of the responses, times what each weighs
    // for the distance of that place from the edge.
    fn add_distance(
        &self,
        responses: &mut [u64],
        strips: &[u64],
        course: &Course,
        place: usize,
        weights: &[u64; plan::ORDER_LIMIT],
    )
        requires { HistoriesFit course.now (length responses.old) (length strips.now) self.now.strip }
        ensures { DistanceAdded course.now.lines course.now.order (λ l. self.now.gain ⊗ strip_read self.now.strip strips.now l place)
            (word_at weights.now) responses.old responses.new }
    {
        let lines = super::lines::lines_inside(self.strip, place, course.lines);
        if 0 < lines {
            add_multiples(
                responses,
                course.order,
                strips,
                self.strip.first_at(place),
                self.strip.line_step,
                lines,
                weights,
                self.gain,
            );
        }
    }

    // Adds the histories of all lines, times the gain, to the responses, weighted by a square.
    fn add_histories(
        &self,
        responses: &mut [u64],
        strips: &[u64],
        course: &Course,
        square: [[u64; plan::ORDER_LIMIT]; plan::ORDER_LIMIT],
    )
        requires { HistoriesFit course.now (length responses.old) (length strips.now) self.now.strip × (self.now.order ≤ order_limit) }
        ensures { HistoriesAdded course.now.lines course.now.order self.now.order
            (history_word self.now.gain (direction_of self.now.pass) self.now.order self.now.strip strips.now) square
            responses.old responses.new }
    {
        for distance in 0..self.order {
            let place = self.place(distance);
            self.add_distance(responses, strips, course, place, &square[distance]);
        }
    }
}

impl BlockLink {
    // Adds the histories of a pass of the link's axis, times the gains of the passes after it, to the responses.
    fn carry_pass(&self, responses: &mut [u64], lines: &[u64], strips: &[u64], pass: usize)
        requires carry_fits { CarryFits self.now strips.now lines.now }
        requires pass_to_carry { PassToCarry self.now.course pass (length responses.old) }
        ensures { Carried (filter_at self.now.filters) self.now.course pass (edges_of self.now strips.now pass)
            responses.old responses.new }
    {
        let edge = self.edge(pass);
        let row = squares::rows_before(&self.filters, pass);
        let square = squares::square_from(lines, row, edge.order, self.course.from);
        edge.add_histories(responses, strips, &self.course, square);
    }

    // Adds the histories of all passes of the link's axis to the responses.
    pub(crate) fn carry(&self, responses: &mut [u64], lines: &[u64], strips: &[u64])
        requires carry_fits { CarryFits self.now strips.now lines.now }
        requires held { Held self.now.course (crossed_words (filter_at self.now.filters) self.now.course (edges_of self.now strips.now))
            responses.old }
        ensures { Held self.now.course (response_of (filter_at self.now.filters) self.now.course (edges_of self.now strips.now))
            responses.new }
    {
        for done in 0..self.course.passes {
            self.carry_pass(responses, lines, strips, self.course.first + done);
        }
    }
}

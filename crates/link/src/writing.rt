// The linked strip of a link: the lone one, with the responses added to the words that lie in the block.
ghost use Rattle.std.specs.Prelude.{◌≡◌, ◌+◌, length};
ghost use Rattle.link.specs.Writing.{responses_added, ResponsesFit, linked_word, StripLaid, PlaceWritten, PlacesWritten};

use strips::Strip;

// Adds the responses of the first lines at a place to words of the strips, from `from` on, and writes the sums to others,
// from `to` on. Both lie `step` apart.
fn add_responses(
    strips: &mut [u64],
    from: usize,
    to: usize,
    step: usize,
    lines: usize,
    responses: &[u64],
    place: usize,
)
    requires { ResponsesFit place (length responses.now) (length strips.old) from to step lines }
    ensures { strips.new ≡ responses_added from to step responses.now place lines strips.old }
{
    for line in 0..lines {
        let before = line * step;
        let response = responses[super::crossing::response_place(line, place)];
        strips[to + before] = word::add(strips[from + before], response);
    }
}

// Writes the linked strip, which lies `shift` words after the lone one, at one place of its lines: 0 outside the block.
fn write_place(
    strips: &mut [u64],
    lone: Strip,
    shift: usize,
    side: usize,
    responses: &[u64],
    place: usize,
)
    requires { StripLaid (length strips.old) lone shift (place + 1) side (length responses.now) }
    ensures { PlaceWritten lone shift side place (linked_word lone strips.old responses.now)
        strips.old strips.new }
{
    let from = lone.first_at(place);
    let to = from + shift;
    let lines = super::lines::lines_inside(lone, place, side);
    add_responses(strips, from, to, lone.line_step, lines, responses, place);
    // Where no line is left to clear, the sum could pass the largest address.
    if lines < side {
        buffer::clear_words(
            strips,
            to + lines * lone.line_step,
            lone.line_step,
            side - lines,
        );
    }
}

// Writes the linked strip at all places of its lines, as many as the order.
pub(crate) fn write_strip(
    strips: &mut [u64],
    lone: Strip,
    shift: usize,
    order: usize,
    side: usize,
    responses: &[u64],
)
    requires { StripLaid (length strips.old) lone shift order side (length responses.now) }
    ensures { PlacesWritten lone shift side order (linked_word lone strips.old responses.now)
        strips.old strips.new }
{
    for place in 0..order {
        write_place(strips, lone, shift, side, responses, place);
    }
}

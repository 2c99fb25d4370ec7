// Strips in code: where the strip of a pass of a block lies in the list of strips, and what is read there.
// An inner crate: what its functions require, their callers in this repository show.
#![tactic(auto)]

ghost use Rattle.std.specs.Prelude.{◌≡◌, true, ◌<◌, ◌^◌};
ghost use Rattle.axis.specs.Axis.{direction_of};
ghost use Rattle.plan.specs.Rules.{keeps_rules};
ghost use Rattle.task_words.specs.Strips.{words_before_half, strip_start};
ghost use Rattle.strips.specs.StripRecord.{StripAt, EdgeFits, edge_start, address_in, first_inside, past_inside, strip_of, strip_before};

use plan::Plan;
use task_words::Half;

// A strip of lines: the word at a line and a place stands at `start + line * line_step + place * place_step`. The lines
// below `lines` and the places from `first` to before `past` lie in the block.
#[derive(Clone, Copy)]
pub struct Strip {
    pub start: usize,
    pub line_step: usize,
    pub place_step: usize,
    pub lines: usize,
    pub first: usize,
    pub past: usize,
}

impl Strip {
    // The strip without lines, which is 0 everywhere.
    const EMPTY: Strip = Strip {
        start: 0,
        line_step: 0,
        place_step: 0,
        lines: 0,
        first: 0,
        past: 0,
    };

    // Where the word of the first line at a place stands.
    pub fn first_at(self, place: usize) -> usize
        requires { address_in self 0 place < 2 ^ 64 }
        ensures { result ≡ address_in self 0 place }
    {
        self.start + place * self.place_step
    }
}

// The words of a slot before a half of it. Callers name the half, so that the compiler takes one of the two.
fn words_before_half(plan: Plan, half: Half) -> usize
    requires { keeps_rules plan ≡ true }
    ensures { result ≡ words_before_half plan half }
{
    match half {
        Half::Lone => 0,
        Half::Linked => plan.half_words(),
    }
}

// The first word of block k's strip of a pass in a half. The four stay parameters: a struct of them would be
// built for each call.
pub fn strip_start(plan: Plan, half: Half, k: usize, pass: usize) -> usize
    requires { StripAt plan k pass }
    ensures { result ≡ strip_start plan half k pass }
{
    let slot = k * (2 * plan.half_words());
    slot + words_before_half(plan, half) + plan.grid.side * plan.order_sum(pass)
}

// The places of a strip that lie in a block of `extent` places along the pass, from the first to before the second: its last
// where the pass runs forward, its first where it runs backward.
fn places_inside(pass: usize, order: usize, extent: usize) -> (usize, usize)
    ensures { result ≡ (first_inside (direction_of pass) order extent, past_inside (direction_of pass) order extent) }
{
    let inside = order.min(extent);
    if axis::is_backward(pass) {
        (0, inside)
    } else {
        (order - inside, order)
    }
}

// The first index of a strip of a block of `extent` places along the pass, counted from the edge of an array that has a
// margin of ORDER_LIMIT places around the block.
pub fn edge_start(pass: usize, order: usize, extent: usize) -> usize
    requires { EdgeFits order extent }
    ensures { result ≡ edge_start (direction_of pass) order extent }
{
    if axis::is_backward(pass) {
        plan::ORDER_LIMIT
    } else {
        plan::ORDER_LIMIT + extent - order
    }
}

// Block k's strip of a pass in a half.
pub fn strip_of(plan: Plan, half: Half, k: usize, pass: usize) -> Strip
    requires { StripAt plan k pass }
    ensures { result ≡ strip_of plan half k pass }
{
    let shape = plan.grid.block_shape(k);
    let order = plan.order(pass);
    let (first, past) = places_inside(pass, order, shape.extent(pass));
    Strip {
        start: strip_start(plan, half, k, pass),
        line_step: axis::along(pass, 1, order),
        place_step: axis::along(pass, plan.grid.side, 1),
        lines: shape.lines(pass),
        first,
        past,
    }
}

// The linked strip of the block that a pass comes from: where the map ends, one without lines, so that callers need no case.
pub fn strip_before(plan: Plan, k: usize, pass: usize) -> Strip
    requires { StripAt plan k pass }
    ensures { result ≡ strip_before plan k pass }
{
    match plan.grid.neighbour(k, pass) {
        Some(j) => strip_of(plan, Half::Linked, j, pass),
        None => Strip::EMPTY,
    }
}

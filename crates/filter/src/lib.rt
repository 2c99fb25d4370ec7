// The kernel of every pass: one recursive filter over the lines of a window of a buffer, in place.
// An inner crate: what its functions require, their callers in this repository show. Buffers come whole, with places as numbers: a
// contract then says what the whole holds afterwards. That a filter has taps is asked where pairs of places need it, and no more.
#![tactic(auto)]

ghost use Rattle.std.specs.Prelude.{◌≡◌, cond, ◌&&◌, leb, ltb, ◌+◌, ◌-◌, ◌*◌, ◌^◌, ◌<◌, ◌≤◌, length};
ghost use Rattle.word.specs.Word.{residue};
ghost use Rattle.plan.specs.Rules.{order_limit};
ghost use Rattle.axis.specs.Axis.{columns, forward, axis_of, direction_of, along, across};
ghost use Rattle.passes.specs.Gains.{gains_from};
ghost use Rattle.buffer.specs.Written.{row_written};
ghost use Rattle.buffer.specs.Copies.{scaled_from};
ghost use Rattle.filter.specs.FilterWords.{filter_with, filter_words, with_gain, gains_after, gains_first_words};
ghost use Rattle.filter.specs.PlanFilters.{filters_of};
ghost use Rattle.filter.specs.Windows.{window_lines, window_pass, window_scaled, WindowFits};

mod in_place;
mod output;

use in_place::Lines;
use output::Taps;

// A filter: the gain and the coefficients of a pass as residues modulo 2^64.
#[derive(Clone, Copy)]
pub struct FilterWords {
    pub gain: u64,
    pub order: usize,
    pub coefficients: [u64; plan::ORDER_LIMIT],
}

// A rectangle of a buffer of rows of `stride` words.
#[derive(Clone, Copy)]
pub struct Window {
    pub stride: usize,
    pub top: usize,
    pub left: usize,
    pub height: usize,
    pub width: usize,
}

// The filter of a pass.
pub fn filter_words(pass: plan::Pass) -> FilterWords
    ensures { result ≡ filter_words pass }
{
    // By index: with the array's `map` a link takes up to a tenth longer.
    let mut coefficients = [0; plan::ORDER_LIMIT];
    for place in 0..plan::ORDER_LIMIT {
        coefficients[place] = word::residue(pass.coefficients[place]);
    }
    FilterWords {
        gain: word::residue(pass.gain),
        order: pass.order,
        coefficients,
    }
}

// The filter of a pass with another gain.
pub fn filter_with_gain(pass: plan::Pass, gain: u64) -> FilterWords
    ensures { result ≡ with_gain gain (filter_words pass) }
{
    FilterWords {
        gain,
        ..filter_words(pass)
    }
}

// The product of the gains of `count` passes of a plan, from pass `first` on. The loop goes over all four: the compiler
// unrolls it, and copies no plan to cut a slice from.
pub fn gains_from(plan: plan::Plan, first: usize, count: usize) -> u64
    requires { first + count ≤ 4 }
    ensures { result ≡ gains_from (filters_of plan) first count }
{
    let mut product = 1;
    for (i, pass) in plan.passes.iter().enumerate() {
        if (first..first + count).contains(&i) {
            product = word::mul(product, word::residue(pass.gain));
        }
    }
    product
}

// The product of the gains of the passes after a pass, up to the last.
pub fn gains_after(plan: plan::Plan, pass: usize, last: usize) -> u64
    requires { (pass ≤ last) × (last < 4) }
    ensures { result ≡ gains_after plan pass last }
{
    gains_from(plan, pass + 1, last - pass)
}

// The filter of a pass of a plan with the gains of all passes in the first, so that the others have gain 1.
pub fn gains_first(plan: plan::Plan, pass: usize) -> FilterWords
    requires { pass < 4 }
    ensures { result ≡ gains_first_words plan pass }
{
    if pass == 0 {
        filter_with_gain(plan.passes[0], gains_from(plan, 0, 4))
    } else {
        filter_with_gain(plan.passes[pass], 1)
    }
}

impl Window {
    // The lines of a window along which a pass runs, each with its history first.
    #[tactic(auto, using(crate::proofs::Numbers::numbers_fit))]
    fn lines(self, pass: usize, history: usize) -> Lines
        requires { WindowFits (2 ^ 63) (axis_of pass) (direction_of pass) self history }
        ensures { result ≡ window_lines (axis_of pass) (direction_of pass) self history }
    {
        let backward = axis::is_backward(pass);
        let step = axis::along(pass, self.stride, 1);
        let length = axis::along(pass, self.height, self.width);
        let corner = self.top * self.stride + self.left;
        let past = axis::if_backward(backward, length + history - 1) * step;
        let before = axis::if_forward(backward, history) * step;
        Lines {
            first: corner + past - before,
            forth: axis::if_forward(backward, step),
            back: axis::if_backward(backward, step),
            apart: axis::across(pass, self.stride, 1),
            count: axis::across(pass, self.height, self.width),
        }
    }

    // The words of a window, each times `gain`.
    #[tactic(auto, using(crate::proofs::Scaling::row_fits))]
    fn scale(self, buffer: &mut [u64], gain: u64)
        requires { WindowFits (length buffer.old) columns forward self 0 }
        ensures { buffer.new ≡ window_scaled gain self self.height buffer.old }
    {
        if gain == 1 {
            return;
        }
        for row in 0..self.height {
            let start = (self.top + row) * self.stride + self.left;
            scale_row(buffer, start, self.width, gain);
        }
    }
}

// The words from `start` on, each times `gain`.
fn scale_row(buffer: &mut [u64], start: usize, width: usize, gain: u64)
    requires { start + width ≤ length buffer.old }
    ensures { buffer.new ≡ row_written start (scaled_from gain buffer.old start 1) width buffer.old }
{
    for word in &mut buffer[start..start + width] {
        *word = word::mul(gain, *word);
    }
}

// Pass 0, 1, 2 or 3 (down, up, right, left) over a window, each line after the `history` words beside it in the buffer,
// on the side where the pass comes from, and 0 past these. The gain comes first, to all words at once, which leaves a
// filter of gain 1.
pub fn run_pass(
    buffer: &mut [u64],
    window: Window,
    pass: usize,
    history: usize,
    filter: FilterWords,
)
    requires { (filter.order ≤ order_limit) × WindowFits (length buffer.old) (axis_of pass) (direction_of pass) window history }
    ensures { buffer.new ≡ window_pass pass window history (filter_with filter) buffer.old }
{
    window.scale(buffer, filter.gain);
    if filter.order == 0 {
        return;
    }
    let coefficients = filter.coefficients;
    let taps = Taps {
        order: filter.order,
        coefficients: &coefficients,
    };
    let places = axis::along(pass, window.height, window.width);
    window
        .lines(pass, history)
        .filter(buffer, history, places, taps);
}

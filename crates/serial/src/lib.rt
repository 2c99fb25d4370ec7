// The four passes over a whole map of heights or of words, in the lent output and in two sweeps through it: down from the
// top, and up from the bottom with right and left behind it.
#![tactic(auto)]

ghost use Rattle.std.specs.Prelude.{◌≡◌, true, ◌++◌, ℕ, ◌+◌, ◌<◌, ◌≤◌, length, drop};
ghost use Rattle.refusal.specs.Table.{answer_of};
ghost use Rattle.plan.specs.Rules.{keeps_rules};
ghost use Rattle.plan.specs.Sizes.{needed_pixels};
ghost use Rattle.axis.specs.Axis.{axis_of, direction_of};
ghost use Rattle.buffer.specs.Pixel.{pixel};
ghost use Rattle.filter.specs.PlanFilters.{word_map_of};
ghost use Rattle.serial.specs.Serial.{serial_answer, result_words, serial_output, serial_words_output};
ghost use Rattle.serial.specs.Stages.{map_words, words_read, MapFits, RowsFit, BandFits, history_rows, rows_passed, band_count, band_of, band_passed, band_finished, bands_read_down, bands_finished};

use filter::Window;
use grid::Grid;
use plan::{Lengths, Plan};
use refusal::Refusal;

// The rows of a band: as many as a filter can have taps, so that up over a band reads no further than the next; enough
// that the chains of multiplies of their row passes overlap, and few enough that a band stays in the cache from one step
// to the next. `band_rows` of specs/Stages.antt is the same number.
const BAND: usize = plan::ORDER_LIMIT;

// Where a band lies in the map, and how many rows it has.
#[derive(Clone, Copy)]
struct Band {
    top: usize,
    height: usize,
}

impl Band {
    // How many of a map's rows a pass along columns does before it comes to those of the band; a pass along rows begins
    // with each row.
    fn history_rows(self, rows: usize, pass: usize) -> usize
        requires { self.top + self.height ≤ rows }
        ensures { result ≡ history_rows (axis_of pass) (direction_of pass) rows self.top self.height }
    {
        let before = if axis::is_backward(pass) {
            rows - self.top - self.height
        } else {
            self.top
        };
        axis::along(pass, before, 0)
    }
}

// A pixel of a lent map: a height, which the pixel reader makes a word of, or a word as it is.
trait Pixel {
    ghost word: { Self → ℕ };

    // The words of so many pixels, read into the output from the place on where they stand in the map.
    fn read_words(map: &[Self], output: &mut [u64], from: usize, count: usize)
        requires { (from + count ≤ length map.now) × (from + count ≤ length output.old) }
        ensures { output.new ≡ words_read from count (map_words word map.now) output.old };
}

impl Pixel for i32 {
    ghost word = { pixel };

    fn read_words(map: &[i32], output: &mut [u64], from: usize, count: usize) {
        buffer::read_heights(map, from, output, from, count);
    }
}

impl Pixel for u64 {
    ghost word = { λ w. w };

    fn read_words(map: &[u64], output: &mut [u64], from: usize, count: usize) {
        buffer::copy_words(map, from, output, from, count);
    }
}

// The passes down, up, right and left over a map of heights: the first rows × columns words of the output are their
// result.
#[tactic(auto, using(crate::proofs::Outputs::heights_as_words))]
pub fn serial_passes(plan: Plan, map: &[i32], output: &mut [u64]) -> Result<(), Refusal>
    ensures answer { answer_of result ≡ serial_answer plan (length map.now) (length output.old) }
    ensures result { output.new ≡ serial_output plan map.now output.old }
{
    run_passes(plan, map, output)
}

// The same over a map of words, none of which is taken for a dropout: sums and differences of maps, or an output.
pub fn serial_words(plan: Plan, map: &[u64], output: &mut [u64]) -> Result<(), Refusal>
    ensures answer { answer_of result ≡ serial_answer plan (length map.now) (length output.old) }
    ensures result { output.new ≡ serial_words_output plan map.now output.old }
{
    run_passes(plan, map, output)
}

// The call over a map of either kind.
fn run_passes<P: Pixel>(plan: Plan, map: &[P], output: &mut [u64]) -> Result<(), Refusal>
    ensures answer { answer_of result ≡ serial_answer plan (length map.now) (length output.old) }
    ensures result { output.new ≡ serial_words_output plan (map_words P.word map.now) output.old }
{
    let lent = Lengths {
        of7: None,
        strips: None,
        map: Some(map.len()),
        output: Some(output.len()),
    };
    plan.sizes_for(lent)?;
    filter_map(plan, map, output);
    Ok(())
}

// The passes over a map that fits.
#[tactic(auto, using(crate::proofs::Serial::steps_reach))]
fn filter_map<P: Pixel>(plan: Plan, map: &[P], output: &mut [u64])
    requires { MapFits plan (length map.now) (length output.old) }
    ensures { output.new ≡ result_words plan (word_map_of plan (map_words P.word map.now)) ++ drop (needed_pixels plan) output.old }
{
    read_down(plan, map, output);
    finish_up(plan, output);
}

// How many bands a map has: its rows of blocks, were a band's rows the block side.
fn band_count(plan: Plan) -> usize
    ensures { result ≡ band_count plan }
{
    let grid = Grid {
        rows: plan.grid.rows,
        columns: plan.grid.columns,
        side: BAND,
    };
    grid.block_rows()
}

// Where a band of a map lies: the last band is what is left of the map.
fn band_of(plan: Plan, band: usize) -> Band
    requires { band < band_count plan }
    ensures { result ≡ band_of plan band }
{
    Band {
        top: band * BAND,
        height: grid::counted_extent(plan.grid.rows, BAND, band),
    }
}

// The map read and the pass down over it, band by band from the top.
#[tactic(auto, using(crate::proofs::Stages::bands), unfolding(crate::specs::Stages::bands_read_down))]
fn read_down<P: Pixel>(plan: Plan, map: &[P], output: &mut [u64])
    requires { MapFits plan (length map.now) (length output.old) }
    ensures { output.new ≡ bands_read_down plan (map_words P.word map.now) (band_count plan) output.old }
{
    for band in 0..band_count(plan) {
        let at = band_of(plan, band);
        let from = at.top * plan.grid.columns;
        let count = at.height * plan.grid.columns;
        P::read_words(map, output, from, count);
        pass_over_rows(plan, output, at, 0);
    }
}

// A pass of the plan over the rows of a band, with the rows that it has done before them for history.
// Plan and output are two parameters: a struct of both would need a clause in each function that its plan stays.
#[tactic(auto, using(crate::proofs::Stages::rows_passed_law))]
fn pass_over_rows(plan: Plan, output: &mut [u64], band: Band, pass: usize)
    requires { RowsFit plan (length output.old) band.top band.height pass }
    ensures { output.new ≡ rows_passed plan band.top band.height pass output.old }
{
    let filter = filter::gains_first(plan, pass);
    let window = Window {
        stride: plan.grid.columns,
        top: band.top,
        left: 0,
        height: band.height,
        width: plan.grid.columns,
    };
    let history = band.history_rows(plan.grid.rows, pass);
    filter::run_pass(output, window, pass, history, filter);
}

// A pass over a band.
#[tactic(auto, using(crate::proofs::Stages::bands))]
fn pass_over_band(plan: Plan, output: &mut [u64], band: usize, pass: usize)
    requires { BandFits plan (length output.old) band pass }
    ensures { output.new ≡ band_passed plan band pass output.old }
{
    pass_over_rows(plan, output, band_of(plan, band), pass);
}

// Both row passes over a band.
#[tactic(auto, unfolding(crate::specs::Stages::band_finished))]
fn finish_band(plan: Plan, output: &mut [u64], band: usize)
    requires { (keeps_rules plan ≡ true) × (band < band_count plan) × (needed_pixels plan ≤ length output.old) }
    ensures { output.new ≡ band_finished plan band output.old }
{
    pass_over_band(plan, output, band, 2);
    pass_over_band(plan, output, band, 3);
}

// The pass up, band by band from the bottom, and both row passes one band behind it: over a band, up reads the band
// below as it left it and nothing further down, since a band has no fewer rows than a filter has taps.
#[tactic(auto, using(crate::proofs::Stages::some_bands), unfolding(crate::specs::Stages::bands_passed_up, crate::specs::Stages::bands_finished))]
fn finish_up(plan: Plan, output: &mut [u64])
    requires { (keeps_rules plan ≡ true) × (needed_pixels plan ≤ length output.old) }
    ensures { output.new ≡ bands_finished plan output.old }
{
    let last = band_count(plan) - 1;
    pass_over_band(plan, output, last, 1);
    for band in (0..last).rev() {
        pass_over_band(plan, output, band, 1);
        finish_band(plan, output, band + 1);
    }
    finish_band(plan, output, 0);
}

// Document 01's program on its input: the tests, the plan, the heights, and the whole job. How an input is read whole stands here
// for both programs; what they read, and printing, are left to their mains.
#![tactic(auto)]

ghost use Rattle.std.specs.Prelude.{◌≡◌, true, ◌+◌, ◌*◌, ◌/◌, ◌<◌, ◌≤◌, length, take, IfOk};
ghost use Rattle.std.specs.Io.KnownBytes.{Consumes, IsAtEnd};
ghost use Rattle.plan.specs.Rules.{keeps_rules};
ghost use Rattle.refusal.specs.Refusals.{number_of, place_of};
ghost use Rattle.plan.specs.Sizes.{needed_pixels, word_limit};
ghost use Rattle.buffer.specs.Lists.{list_of};
ghost use Rattle.plan_reader.specs.ReadPlan.{read_plan, read_given};
ghost use Rattle.report.specs.Report.{report};
ghost use Rattle.smooth_job.specs.Program.{pixel_limit, word_in, plan_length, signed32, heights_in, job, asked, asked_with, refused_with, reported_with, answer_to, smooth_given, output_of, cut_limit, cut_length};

use plan::Plan;
use refusal::Refusal;
use std::io;
use std::io::Read;

// The most pixels, and room for the strips of any job of so many: `pixel_limit` and `strip_limit` of specs/Program.antt are the same
// numbers.
pub const PIXEL_LIMIT: usize = 64;

pub const STRIP_LIMIT: usize = PIXEL_LIMIT * 2 * grid::SIDE_LIMIT * plan::ORDER_SUM_LIMIT;

// The most bytes of an input that asks for a job, and of what stands for any input.
pub const INPUT_LIMIT: usize = 4 * (plan::WORD_LIMIT + PIXEL_LIMIT);

pub const CUT_LIMIT: usize = INPUT_LIMIT + 7;

// The size, the tasks marked and the tally.
#[derive(Clone, Copy)]
pub struct Smoothed {
    pub rows: usize,
    pub columns: usize,
    pub marked: usize,
    pub tally: usize,
}

// Does the whole job that the input asks for, its words in the output.
pub fn smooth(input: &[u8], output: &mut [u64]) -> Result<Smoothed, Refusal>
    ensures answer { smooth_given result ≡ answer_to (asked input.now) output.old }
    ensures output { output.new ≡ output_of (asked input.now) output.old }
{
    if input.len() % 4 != 0 {
        return Err(Refusal::InputUnfit);
    }
    let length = plan_length(input);
    let plan = plan_in(input, length)?;
    smooth_plan(plan, length, input, output)
}

// How many bytes stand for an input: of a longer one than any that asks for a job, the first bytes, one word more, and the
// bytes over. No test tells the two apart.
pub fn cut_length(length: usize) -> usize
    ensures { (result ≡ cut_length length) × (result ≤ cut_limit) }
{
    if length <= INPUT_LIMIT {
        length
    } else {
        INPUT_LIMIT + 4 + length % 4
    }
}

// ---- bytes and words

// Reads until the buffer is full or the input ends, and answers how many bytes came. A read tells how many bytes came with it:
// no count runs by one, and std's `read_exact` does not say how many came before an end.
pub fn read_full<R: Read>(reader: &mut R, buffer: &mut [u8]) -> io::Result<usize>
    ensures room { IfOk result (λ count. count ≤ length buffer.new) }
    ensures bytes { IfOk result (λ count. Consumes (R.remaining reader.old) (R.remaining reader.new) (take count buffer.new)) }
    ensures end { IfOk result (λ count. count < length buffer.new → IsAtEnd (R.remaining reader.new)) }
{
    let mut count = 0;
    while count < buffer.len() {
        let more = reader.read(&mut buffer[count..])?;
        if more == 0 {
            return Ok(count);
        }
        count += more;
    }
    Ok(count)
}

// A word of the input, its lowest byte first.
#[tactic(auto, unfolding(crate::specs::Program::word_in))]
pub fn word_at(input: &[u8], i: usize) -> u32
    requires { 4 * i + 3 < length input.now }
    ensures { result ≡ word_in input.now i }
{
    let at = 4 * i;
    u32::from_le_bytes([input[at], input[at + 1], input[at + 2], input[at + 3]])
}

// How many words the plan has: up to its first word of kind 6, looking at the limit at most.
pub fn plan_length(input: &[u8]) -> usize
    ensures { result ≡ plan_length input.now }
{
    let most = (input.len() / 4).min(plan::WORD_LIMIT);
    for i in 0..most {
        if number::kind_of(word_at(input, i)) == plan_reader::END_KIND {
            return i + 1;
        }
    }
    most
}

// The plan in the first words of the input, in a buffer of just a plan's words; the test program `calls_run` takes all of its own.
fn plan_in(input: &[u8], count: usize) -> Result<Plan, Refusal>
    requires { (count ≤ word_limit) × (count ≤ length input.now / 4) }
    ensures { read_given result ≡ read_plan (list_of (word_in input.now) count) }
{
    let mut words = [0; plan::WORD_LIMIT];
    for i in 0..count {
        words[i] = word_at(input, i);
    }
    plan_reader::read_plan(&words[..count])
}

// A word of 32 bits as a height, two's complement.
pub fn decode_signed32(word: u32) -> i32
    ensures { result ≡ signed32 word }
{
    word.cast_signed()
}

fn height_at(input: &[u8], i: usize) -> i32
    requires { 4 * i + 3 < length input.now }
    ensures { result ≡ signed32 (word_in input.now i) }
{
    decode_signed32(word_at(input, i))
}

// ---- the job

// With a plan that was read, its words the first of the input.
fn smooth_plan(
    plan: Plan,
    first: usize,
    input: &[u8],
    output: &mut [u64],
) -> Result<Smoothed, Refusal>
    requires { (keeps_rules plan ≡ true) × (first ≡ plan_length input.now) × (first ≤ word_limit) }
    ensures answer { smooth_given result ≡ answer_to (asked_with input.now plan) output.old }
    ensures output { output.new ≡ output_of (asked_with input.now plan) output.old }
{
    let sizes = plan.sizes()?;
    smooth_counted(plan, first, sizes.pixels, input, output)
}

// The pixels, then the number of heights, then the job.
fn smooth_counted(
    plan: Plan,
    first: usize,
    pixels: usize,
    input: &[u8],
    output: &mut [u64],
) -> Result<Smoothed, Refusal>
    requires { (pixels ≡ needed_pixels plan) × (first ≡ plan_length input.now) × (first ≤ word_limit) }
    ensures answer { smooth_given result ≡ answer_to (asked_with input.now plan) output.old }
    ensures output { output.new ≡ output_of (asked_with input.now plan) output.old }
{
    if PIXEL_LIMIT < pixels {
        return Err(Refusal::InputUnfit);
    }
    if input.len() / 4 != first + pixels {
        return Err(Refusal::InputUnfit);
    }
    smooth_map(plan, first, pixels, input, output)
}

// The job on the heights from a word of the input on.
fn smooth_map(
    plan: Plan,
    first: usize,
    pixels: usize,
    input: &[u8],
    output: &mut [u64],
) -> Result<Smoothed, Refusal>
    requires { (pixels ≤ pixel_limit) × (first + pixels ≤ length input.now / 4) }
    ensures answer { smooth_given result ≡ answer_to (job plan (heights_in input.now first pixels)) output.old }
    ensures output { output.new ≡ output_of (job plan (heights_in input.now first pixels)) output.old }
{
    let mut heights = [0; PIXEL_LIMIT];
    for q in 0..pixels {
        heights[q] = height_at(input, first + q);
    }
    smooth_heights(plan, &heights[..pixels], output)
}

// The whole job, with marks and strips of its own, and the report after it.
fn smooth_heights(plan: Plan, map: &[i32], output: &mut [u64]) -> Result<Smoothed, Refusal>
    ensures answer { smooth_given result ≡ answer_to (job plan map.now) output.old }
    ensures output { output.new ≡ output_of (job plan map.now) output.old }
{
    let mut marks = [0; PIXEL_LIMIT];
    let mut strips = [0; STRIP_LIMIT];
    whole_job::whole_job(plan, map, &mut marks, &mut strips, output)?;
    reported(plan, &marks)
}

// The size and what the report says of the marks.
fn reported(plan: Plan, marks: &[u32]) -> Result<Smoothed, Refusal>
    ensures { smooth_given result ≡ reported_with plan (report plan marks.now) }
{
    let progress = report::report(plan, marks)?;
    Ok(Smoothed {
        rows: plan.grid.rows,
        columns: plan.grid.columns,
        marked: progress.marked,
        tally: progress.tally,
    })
}

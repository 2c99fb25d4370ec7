// A test program: it performs a list of calls from standard input, the first half with `job::run_calls` and the rest with
// `job::run_steps`, and prints all that is left of the job.
//
// The input has little-endian words of 32 bits: the plan up to its first word of kind 6, the heights, and pairs of a task and a
// block. The task number 6 is a recall of the block in the second half, and a task that does not exist in the first. What is
// past the limits below is not looked at. A job that needs more marks or strips than there is room for is refused by 7 or 14 at
// its start; with too many pixels, or heights missing, each call of a task is refused by 15 and none is accepted, so that no
// block is collected and each recall is refused too.
#![tactic(auto)]

ghost use Rattle.std.specs.Prelude.{◌≤◌, length};

use plan::Plan;
use std::io;
use std::io::Write;

const PIXEL_LIMIT: usize = 256;

// Any job of so many pixels needs fewer: its M×N×b is below twice the limit, and a slot has two halves.
const STRIP_LIMIT: usize = 4 * PIXEL_LIMIT * plan::ORDER_SUM_LIMIT;

const CALL_LIMIT: usize = 2048;

const INPUT_WORDS: usize = plan::WORD_LIMIT + PIXEL_LIMIT + 2 * CALL_LIMIT;

// What stands in the output before the first call.
const UNWRITTEN: u64 = 77;

fn main(rt: HostRuntime) -> io::Result<()> {
    let mut input = [0; 4 * INPUT_WORDS];
    let count = smooth_job::read_full(&mut rt.stdin(), &mut input)?;
    run_input(&mut io::writer(&rt), &input[..count])
}

// The plan, and then the job on the words after it.
fn run_input<W: Write>(out: &mut W, input: &[u8]) -> io::Result<()> {
    let mut words = [0; INPUT_WORDS];
    let count = take_words(input, &mut words);
    let first = smooth_job::plan_length(input).min(count);
    match plan_reader::read_plan(&words[..first]) {
        Ok(plan) => run_plan(out, plan, &words[first..count]),
        Err(refusal) => writeln!(out, "{refusal}"),
    }
}

// The heights, and buffers of just the needed lengths.
fn run_plan<W: Write>(out: &mut W, plan: Plan, words: &[u32]) -> io::Result<()> {
    let Ok(sizes) = plan.sizes() else {
        return Ok(());
    };
    let mut heights = [0; PIXEL_LIMIT];
    let pixels = take_heights(words, sizes.pixels, &mut heights);
    let mut marks = [0; PIXEL_LIMIT];
    let mark_count = sizes.marks.min(PIXEL_LIMIT);
    let mut strips = [0; STRIP_LIMIT];
    let strip_count = sizes.strips.min(STRIP_LIMIT);
    let mut output = [UNWRITTEN; PIXEL_LIMIT];
    run_job(
        out,
        plan,
        &words[pixels..],
        &heights[..pixels],
        &mut marks[..mark_count],
        &mut strips[..strip_count],
        &mut output[..pixels],
    )
}

// The start, and then the calls that the words name.
fn run_job<W: Write>(
    out: &mut W,
    plan: Plan,
    words: &[u32],
    map: &[i32],
    marks: &mut [u32],
    strips: &mut [u64],
    output: &mut [u64],
) -> io::Result<()> {
    let mut tasks = [0; CALL_LIMIT];
    let mut blocks = [0; CALL_LIMIT];
    let count = take_calls(words, &mut tasks, &mut blocks);
    match job::start(plan, marks, strips) {
        Ok(()) => run_list(
            out,
            plan,
            &tasks[..count],
            &blocks,
            map,
            marks,
            strips,
            output,
        ),
        Err(refusal) => writeln!(out, "{refusal}"),
    }
}

// The first half of the calls, and then the rest, with recalls among it. Both times more blocks than tasks are lent.
fn run_list<W: Write>(
    out: &mut W,
    plan: Plan,
    tasks: &[usize],
    blocks: &[usize],
    map: &[i32],
    marks: &mut [u32],
    strips: &mut [u64],
    output: &mut [u64],
) -> io::Result<()>
    requires { length tasks.now ≤ length blocks.now }
{
    let half = tasks.len() / 2;
    let first = job::run_calls(plan, &tasks[..half], blocks, map, marks, strips, output);
    let rest = job::run_steps(
        plan,
        &tasks[half..],
        &blocks[half..],
        map,
        marks,
        strips,
        output,
    );
    print_job(out, first, rest, marks, strips, output)
}

// ---- words

// Takes the whole words of the input, as many as have room, and answers how many.
fn take_words(input: &[u8], words: &mut [u32]) -> usize
    ensures { result ≤ length words.new }
{
    let count = (input.len() / 4).min(words.len());
    for i in 0..count {
        words[i] = smooth_job::word_at(input, i);
    }
    count
}

// Takes words as heights, as many as are wanted, given and have room, and answers how many.
fn take_heights(words: &[u32], wanted: usize, heights: &mut [i32]) -> usize
    ensures { (result ≤ length words.now) × (result ≤ length heights.new) }
{
    let count = wanted.min(words.len()).min(heights.len());
    for i in 0..count {
        heights[i] = smooth_job::decode_signed32(words[i]);
    }
    count
}

// Takes pairs of words as a task and a block, as many as are given and have room, and answers how many.
fn take_calls(words: &[u32], tasks: &mut [usize], blocks: &mut [usize]) -> usize
    ensures { (result ≤ length tasks.new) × (result ≤ length blocks.new) }
{
    let count = (words.len() / 2).min(tasks.len()).min(blocks.len());
    for i in 0..count {
        tasks[i] = words[2 * i] as usize;
        blocks[i] = words[2 * i + 1] as usize;
    }
    count
}

// ---- printing

// How many calls of each list were accepted, and the buffers.
fn print_job<W: Write>(
    out: &mut W,
    first: usize,
    rest: usize,
    marks: &[u32],
    strips: &[u64],
    output: &[u64],
) -> io::Result<()> {
    writeln!(out, "accepted {first} {rest}")?;
    print_marks(out, marks)?;
    print_words(out, "strips", strips)?;
    print_words(out, "output", output)
}

fn print_marks<W: Write>(out: &mut W, marks: &[u32]) -> io::Result<()> {
    write!(out, "marks")?;
    for mark in marks {
        print_mark(out, *mark)?;
    }
    writeln!(out)
}

// A mark in hexadecimal.
fn print_mark<W: Write>(out: &mut W, mark: u32) -> io::Result<()> {
    write!(out, " {mark:08x}")
}

fn print_words<W: Write>(out: &mut W, name: &str, words: &[u64]) -> io::Result<()> {
    write!(out, "{name}")?;
    for word in words {
        write!(out, " {word}")?;
    }
    writeln!(out)
}

// Strips read ahead. A link uses up to six strips one after another, each in another place of memory: where they are in no
// cache, it waits for each. So it first reads a word of each of their cache lines, and the lines are on their way together.
// What these words are does not count. Joined by `or` to one word, they are stored where nothing reads it: if they were not
// stored, the compiler would leave the reads out. Plan, block and pass stay parameters, as in `strips`.
ghost use Rattle.std.specs.Prelude.{length};
ghost use Rattle.link.specs.Courses.{LinkAt};

use plan::Plan;
use task_words::Half;

// The words of a cache line of 64 bytes.
const LINE_WORDS: usize = 8;

// Reads every eighth word, so one of each cache line (but for the last line, where the words do not begin with a line),
// joined.
fn read_words(words: &[u64]) -> u64 {
    // By index: `step_by` counts a second number down beside it, and a link takes up to 2 % longer.
    let mut read = 0;
    let mut i = 0;
    while i < words.len() {
        read |= words[i];
        i += LINE_WORDS;
    }
    read
}

// Reads ahead block k's strip of a pass in a half.
fn read_strip(strips: &[u64], plan: Plan, half: Half, k: usize, pass: usize) -> u64
    requires { LinkAt plan k pass (length strips.now) }
{
    let start = strips::strip_start(plan, half, k, pass);
    let count = plan.grid.side * plan.order(pass);
    read_words(&strips[start..start + count])
}

// Reads ahead the linked strip of the block that a pass comes from, where there is one.
fn read_edge(strips: &[u64], plan: Plan, k: usize, pass: usize) -> u64
    requires { LinkAt plan k pass (length strips.now) }
{
    match plan.grid.neighbour(k, pass) {
        Some(j) => read_strip(strips, plan, Half::Linked, j, pass),
        None => 0,
    }
}

// Reads ahead the strips of the link of a pass of block k: its lone one, the one that it writes, and those of its needs,
// which are of the passes up to its own. The answer is all that was read, joined.
pub(crate) fn read_strips(strips: &[u64], plan: Plan, k: usize, pass: usize) -> u64
    requires { LinkAt plan k pass (length strips.now) }
{
    let mut read = read_strip(strips, plan, Half::Lone, k, pass);
    read |= read_strip(strips, plan, Half::Linked, k, pass);
    for need in 0..=pass {
        read |= read_edge(strips, plan, k, need);
    }
    read
}

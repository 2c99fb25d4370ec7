// The C interface: each function takes its arguments apart, calls the Rattle function of the same job, or for macro
// variables the two that it is made of, and answers one number: 0 where the call is accepted, else the documents' number
// of the refusal times 2^32, plus its place.
#![tactic(auto, using(crate::proofs::Calls::call_answers), unfolding(macro_values::specs::MacroValues::macro_call, macro_values::specs::MacroValues::pair_call))]

ghost use Rattle.std.specs.Prelude.{◌≡◌, length};
ghost use Rattle.refusal.specs.Refusals.{refused_for};
ghost use Rattle.refusal.specs.Table.{answer_of};
ghost use Rattle.plan.specs.FirstTests.{plan_sizes};
ghost use Rattle.plan_reader.specs.ReadPlan.{read_plan};
ghost use Rattle.plan_writer.specs.WritePlan.{write_plan, written_words};
ghost use Rattle.plan_record.specs.Records.{plan_of_record, record_of_plan};
ghost use Rattle.serial.specs.Serial.{serial_answer, serial_output, serial_words_output};
ghost use Rattle.rectangle.specs.Rectangle.{rectangle_call, sum_given};
ghost use Rattle.dropouts.specs.Dropouts.{dropouts_call};
ghost use Rattle.macro_values.specs.MacroValues.{macro_call, pair_call, variable_of, pair_of};
ghost use Rattle.job_spec.specs.Calls.{lists, start_answer, marks_after_start, strips_after_start, task_answer, after_task};
ghost use Rattle.report.specs.Values.{values_of};
ghost use Rattle.report.specs.Report.{report};
ghost use Rattle.recall.specs.RecallCall.{recall_answer, marks_after_recall};
ghost use Rattle.turns.specs.Dispatch.{turn_values, dispatch};
ghost use Rattle.mulzhegat.specs.Places.{Fits};
ghost use Rattle.mulzhegat.specs.Codes.{code_of, capped_code, sizes_record, progress_record, turn_record, state_of, float_in, VariableWritten, pair_states, pair_floats, PairWritten};

use macro_values::{Macro, MacroPair, Quantity};
use plan::Sizes;
use rectangle::Rectangle;
use refusal::Refusal;
use report::{Progress, Ready};
use turns::{Job, Turn};

// ---- plans

// Reads a plan from its words; the record is all zeros beside a refusal.
#[unsafe(no_mangle)]
pub extern "C" fn mzg_plan_read(words: &[u32], plan: &mut [i64; plan_record::RECORD_LENGTH]) -> u64
    ensures { (result ≡ code_of (read_plan words.now).answer) × (plan.new ≡ record_of_plan (read_plan words.now).value) }
{
    let answer = plan_reader::read_plan(words);
    *plan = answer.map_or([0; plan_record::RECORD_LENGTH], plan_record::record_of_plan);
    answer_code(answer)
}

// Writes the words of a plan.
#[unsafe(no_mangle)]
pub extern "C" fn mzg_plan_write(plan: &[i64; plan_record::RECORD_LENGTH], words: &mut [u32]) -> u64
    ensures { (result ≡ code_of (write_plan (plan_of_record plan.now) (length words.old)).answer) × (words.new ≡ written_words (plan_of_record plan.now) words.old) }
{
    let answer = plan_writer::write_plan(plan_record::plan_of_record(plan), words);
    answer_code(answer)
}

// Gives the lengths that a plan needs; all zeros beside a refusal.
#[unsafe(no_mangle)]
pub extern "C" fn mzg_plan_sizes(
    plan: &[i64; plan_record::RECORD_LENGTH],
    sizes: &mut [u64; 7],
) -> u64
    ensures { (result ≡ code_of (plan_sizes (plan_of_record plan.now)).answer) × (sizes.new ≡ sizes_record (plan_sizes (plan_of_record plan.now)).value) }
{
    let answer = plan_record::plan_of_record(plan).sizes();
    *sizes = answer.map_or([0; 7], sizes_record);
    answer_code(answer)
}

// ---- jobs

// Starts a job: no task is marked, and all needed strip words are 0.
#[unsafe(no_mangle)]
pub extern "C" fn mzg_start(
    plan: &[i64; plan_record::RECORD_LENGTH],
    marks: &mut [u32],
    strips: &mut [u64],
) -> u64
    ensures answer { result ≡ code_of (start_answer (plan_of_record plan.now) marks.old strips.old) }
    ensures marked { marks.new ≡ marks_after_start (plan_of_record plan.now) marks.old strips.old }
    ensures stripped { strips.new ≡ strips_after_start (plan_of_record plan.now) marks.old strips.old }
{
    let answer = job::start(plan_record::plan_of_record(plan), marks, strips);
    answer_code(answer)
}

// Calls one task at one block.
#[unsafe(no_mangle)]
pub extern "C" fn mzg_task(
    plan: &[i64; plan_record::RECORD_LENGTH],
    task: usize,
    block: usize,
    map: &[i32],
    marks: &mut [u32],
    strips: &mut [u64],
    output: &mut [u64],
) -> u64
    ensures answer { result ≡ code_of (task_answer (plan_of_record plan.now) map.now (lists marks.old strips.old output.old) task block) }
    ensures written { lists marks.new strips.new output.new ≡ after_task (plan_of_record plan.now) map.now task block (lists marks.old strips.old output.old) }
{
    let taken = plan_record::plan_of_record(plan);
    let answer = job::task(taken, task, block, map, marks, strips, output);
    answer_code(answer)
}

// Reports on a job's marks; all zeros beside a refusal.
#[unsafe(no_mangle)]
pub extern "C" fn mzg_report(
    plan: &[i64; plan_record::RECORD_LENGTH],
    marks: &[u32],
    progress: &mut [u64; 5],
) -> u64
    ensures answer { result ≡ code_of (report (plan_of_record plan.now) marks.now).answer }
    ensures values { progress.new ≡ progress_record (report (plan_of_record plan.now) marks.now).value }
{
    let answer = report::report(plan_record::plan_of_record(plan), marks);
    *progress = answer.map_or([0; 5], progress_record);
    answer_code(answer)
}

// Recalls a block that is scanned again: the bits of its tasks and of every task that needs one of them are cleared.
#[unsafe(no_mangle)]
pub extern "C" fn mzg_recall(
    plan: &[i64; plan_record::RECORD_LENGTH],
    block: usize,
    marks: &mut [u32],
) -> u64
    ensures answer { result ≡ code_of (recall_answer (plan_of_record plan.now) marks.old block) }
    ensures cleared { marks.new ≡ marks_after_recall (plan_of_record plan.now) block marks.old }
{
    let answer = recall::recall(plan_record::plan_of_record(plan), block, marks);
    answer_code(answer)
}

// ---- several jobs

// Names the job whose turn it is, with its task; all zeros where none is named and beside a refusal.
#[unsafe(no_mangle)]
pub extern "C" fn mzg_dispatch(jobs: &[Job], last: usize, marks: &[u32], turn: &mut [u64; 4]) -> u64
    ensures answer { result ≡ capped_code (dispatch jobs.now last marks.now).answer }
    ensures words { turn.new ≡ turn_record (dispatch jobs.now last marks.now).value }
{
    let answer = dispatch::dispatch(jobs, last, marks);
    *turn = answer.map_or([0; 4], turn_record);
    match answer {
        Ok(_) => 0,
        Err(refusal) => capped_code(refusal),
    }
}

// ---- whole maps

// Runs the four passes over a whole map of heights.
#[unsafe(no_mangle)]
pub extern "C" fn mzg_serial(
    plan: &[i64; plan_record::RECORD_LENGTH],
    map: &[i32],
    output: &mut [u64],
) -> u64
    ensures { (result ≡ code_of (serial_answer (plan_of_record plan.now) (length map.now) (length output.old))) × (output.new ≡ serial_output (plan_of_record plan.now) map.now output.old) }
{
    let answer = serial::serial_passes(plan_record::plan_of_record(plan), map, output);
    answer_code(answer)
}

// Runs the four passes over a whole map of words, none of which is taken for a dropout.
#[unsafe(no_mangle)]
pub extern "C" fn mzg_serial_words(
    plan: &[i64; plan_record::RECORD_LENGTH],
    map: &[u64],
    output: &mut [u64],
) -> u64
    ensures { (result ≡ code_of (serial_answer (plan_of_record plan.now) (length map.now) (length output.old))) × (output.new ≡ serial_words_output (plan_of_record plan.now) map.now output.old) }
{
    let answer = serial::serial_words(plan_record::plan_of_record(plan), map, output);
    answer_code(answer)
}

// Gives the sum over a rectangle of a summed-area table; 0 beside a refusal.
#[unsafe(no_mangle)]
pub extern "C" fn mzg_rectangle(
    plan: &[i64; plan_record::RECORD_LENGTH],
    top: usize,
    left: usize,
    bottom: usize,
    right: usize,
    table: &[u64],
    sum: &mut i64,
) -> u64
    ensures { (result ≡ code_of (rectangle_call (plan_of_record plan.now) table.now top left bottom right).answer) × (sum.new ≡ (rectangle_call (plan_of_record plan.now) table.now top left bottom right).value) }
{
    let rectangle = rectangle_of(top, left, bottom, right);
    let answer = rectangle_by_record(plan, rectangle, table);
    *sum = answer.unwrap_or(0);
    answer_code(answer)
}

// Counts the dropouts in a rectangle of a map; 0 beside a refusal.
#[unsafe(no_mangle)]
pub extern "C" fn mzg_dropouts(
    plan: &[i64; plan_record::RECORD_LENGTH],
    top: usize,
    left: usize,
    bottom: usize,
    right: usize,
    map: &[i32],
    count: &mut u64,
) -> u64
    ensures { (result ≡ code_of (dropouts_call (plan_of_record plan.now) map.now top left bottom right).answer) × (count.new ≡ (dropouts_call (plan_of_record plan.now) map.now top left bottom right).value) }
{
    let taken = plan_record::plan_of_record(plan);
    let rectangle = rectangle_of(top, left, bottom, right);
    let answer = dropouts::count_dropouts(taken, rectangle, map);
    *count = answer.unwrap_or(0) as u64;
    answer_code(answer)
}

// ---- macro variables

// Gives the total of a rectangle as a macro variable, exact or vacant; vacant beside a refusal.
#[unsafe(no_mangle)]
pub extern "C" fn mzg_macro_total(
    plan: &[i64; plan_record::RECORD_LENGTH],
    top: usize,
    left: usize,
    bottom: usize,
    right: usize,
    table: &[u64],
    state: &mut u64,
    value: &mut f64,
) -> u64
    ensures { VariableWritten (macro_call Quantity.Total (plan_of_record plan.now) table.now top left bottom right) result state.new value.new }
{
    let rectangle = rectangle_of(top, left, bottom, right);
    macro_quantity(plan, Quantity::Total, rectangle, table, state, value)
}

// Gives the number of pixels of a rectangle as a macro variable, exact or vacant; vacant beside a refusal.
#[unsafe(no_mangle)]
pub extern "C" fn mzg_macro_pixels(
    plan: &[i64; plan_record::RECORD_LENGTH],
    top: usize,
    left: usize,
    bottom: usize,
    right: usize,
    table: &[u64],
    state: &mut u64,
    value: &mut f64,
) -> u64
    ensures { VariableWritten (macro_call Quantity.Pixels (plan_of_record plan.now) table.now top left bottom right) result state.new value.new }
{
    let rectangle = rectangle_of(top, left, bottom, right);
    macro_quantity(plan, Quantity::Pixels, rectangle, table, state, value)
}

// Gives total and number of pixels of a rectangle as macro variables, the total first; both vacant beside a refusal.
#[unsafe(no_mangle)]
pub extern "C" fn mzg_macro_pair(
    plan: &[i64; plan_record::RECORD_LENGTH],
    top: usize,
    left: usize,
    bottom: usize,
    right: usize,
    table: &[u64],
    states: &mut [u64; 2],
    values: &mut [f64; 2],
) -> u64
    ensures { PairWritten (pair_call (plan_of_record plan.now) table.now top left bottom right) result states.new values.new }
{
    let rectangle = rectangle_of(top, left, bottom, right);
    let sum = rectangle_by_record(plan, rectangle, table);
    let answer = macro_values::pair_by_sum(sum, rectangle);
    let pair = answer.unwrap_or(MacroPair {
        total: Macro::Vacant,
        pixels: Macro::Vacant,
    });
    *states = pair_states(pair);
    *values = pair_floats(pair);
    answer_code(answer)
}

// One quantity, for the total and for the number of pixels.
fn macro_quantity(
    plan: &[i64; plan_record::RECORD_LENGTH],
    quantity: Quantity,
    rectangle: Rectangle,
    table: &[u64],
    state: &mut u64,
    value: &mut f64,
) -> u64
    ensures { VariableWritten (macro_call quantity (plan_of_record plan.now) table.now rectangle.top rectangle.left rectangle.bottom rectangle.right) result state.new value.new }
{
    let sum = rectangle_by_record(plan, rectangle, table);
    let answer = macro_values::value_by_sum(sum, quantity, rectangle);
    let variable = answer.unwrap_or(Macro::Vacant);
    *state = macro_state(variable);
    *value = macro_float(variable);
    answer_code(answer)
}

// ---- rectangles

// The rectangle of four numbers as C gives them.
fn rectangle_of(top: usize, left: usize, bottom: usize, right: usize) -> Rectangle
    ensures { result ≡ record { top = top; left = left; bottom = bottom; right = right } }
{
    Rectangle {
        top,
        left,
        bottom,
        right,
    }
}

// The rectangle sum, for all calls that begin with it: one function, so that the record is copied once.
fn rectangle_by_record(
    plan: &[i64; plan_record::RECORD_LENGTH],
    rectangle: Rectangle,
    table: &[u64],
) -> Result<i64, Refusal>
    ensures { sum_given result ≡ rectangle_call (plan_of_record plan.now) table.now rectangle.top rectangle.left rectangle.bottom rectangle.right }
{
    rectangle::rectangle_sum(plan_record::plan_of_record(plan), rectangle, table)
}

// ---- answers

// The number that C is answered, where every place fits its lower half.
fn answer_code<T: Copy>(answer: Result<T, Refusal>) -> u64
    requires { Fits (answer_of answer) }
    ensures { result ≡ code_of (answer_of answer) }
{
    match answer {
        Ok(_) => 0,
        Err(refusal) => refusal_code(refusal),
    }
}

fn refusal_code(refusal: Refusal) -> u64
    requires { Fits (refused_for refusal) }
    ensures { result ≡ code_of (refused_for refusal) }
{
    u64::from(refusal.number()) * 4294967296 + (refusal.place() as u64)
}

// The same of a refusal whose place may be too long for the lower half: the most that it holds stands for such a place. Only the
// dispatcher's may be; the codes of all other calls are exact, by another definition.
fn capped_code(refusal: Refusal) -> u64
    ensures { result ≡ capped_code (refused_for refusal) }
{
    u64::from(refusal.number()) * 4294967296 + (refusal.place().min(4294967295) as u64)
}

fn sizes_record(known: Sizes) -> [u64; 7]
    ensures { result ≡ sizes_record known }
{
    [
        known.words as u64,
        known.block_rows as u64,
        known.block_columns as u64,
        known.marks as u64,
        known.strips as u64,
        known.pixels as u64,
        known.tasks as u64,
    ]
}

fn progress_record(made: Progress) -> [u64; 5]
    ensures { result ≡ progress_record (values_of made) }
{
    let marked = made.marked as u64;
    let tally = made.tally as u64;
    match made.next {
        Some(Ready { task, block }) => [marked, tally, 1, task as u64, block as u64],
        None => [marked, tally, 0, 0, 0],
    }
}

fn turn_record(made: Option<Turn>) -> [u64; 4]
    ensures { result ≡ turn_record (turn_values made) }
{
    match made {
        Some(Turn { job, task, block }) => [1, job as u64, task as u64, block as u64],
        None => [0; 4],
    }
}

fn macro_state(variable: Macro) -> u64
    ensures { result ≡ state_of (variable_of variable) }
{
    match variable {
        Macro::Vacant => 0,
        Macro::Total(_) => 1,
        Macro::Pixels(_) => 2,
    }
}

fn macro_float(variable: Macro) -> f64
    ensures { result ≡ float_in (variable_of variable) }
{
    match variable {
        Macro::Vacant => 0.0,
        Macro::Total(total) => total,
        Macro::Pixels(pixels) => pixels,
    }
}

fn pair_states(pair: MacroPair) -> [u64; 2]
    ensures { result ≡ pair_states (pair_of pair) }
{
    [macro_state(pair.total), macro_state(pair.pixels)]
}

fn pair_floats(pair: MacroPair) -> [f64; 2]
    ensures { result ≡ pair_floats (pair_of pair) }
{
    [macro_float(pair.total), macro_float(pair.pixels)]
}

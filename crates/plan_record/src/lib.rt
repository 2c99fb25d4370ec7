// The C record of a plan: an array of signed numbers, and the plan that it stands for.
#![tactic(auto)]

ghost use Rattle.std.specs.Prelude.{◌≡◌, ◌++◌, ◌≤◌, ◌<◌, ◌+◌, length, take};
ghost use Rattle.plan_record.specs.Records.{record_length, pass_length, pass_start, size_from, number_from, pass_of_record, plan_of_record, record_of_pass, record_of_plan};

use grid::Grid;
use plan::{Pass, Plan};

// The words of a pass: order, gain and a place for each coefficient.
pub const PASS_LENGTH: usize = 2 + plan::ORDER_LIMIT;

// The words of a record: rows, columns and side, and four passes.
pub const RECORD_LENGTH: usize = 3 + 4 * PASS_LENGTH;

// The place of the first word of pass i, a number as in `axis`.
fn pass_start(i: usize) -> usize
    requires { i < 4 }
    ensures { result ≡ pass_start i }
{
    3 + i * PASS_LENGTH
}

// Functions, not `From`: neither the array nor `Plan` is a type of this crate.

// The plan that a record stands for.
pub fn plan_of_record(words: &[i64; RECORD_LENGTH]) -> Plan
    ensures { result ≡ plan_of_record words.now }
{
    Plan {
        grid: Grid {
            rows: size_from(words[0]),
            columns: size_from(words[1]),
            side: size_from(words[2]),
        },
        passes: std::array::from_fn(|i| pass_of_record(words, pass_start(i))),
    }
}

fn size_from(number: i64) -> usize
    ensures { result ≡ size_from number }
{
    usize::try_from(number).unwrap_or(usize::MAX)
}

fn pass_of_record(words: &[i64; RECORD_LENGTH], place: usize) -> Pass
    requires { place + pass_length ≤ record_length }
    ensures { result ≡ pass_of_record words.now place }
{
    Pass {
        order: size_from(words[place]),
        gain: words[place + 1],
        coefficients: std::array::from_fn(|j| words[place + 2 + j]),
    }
}

// The record of a plan.
#[tactic(auto, using(crate::proofs::RecordWords::record_filled))]
pub fn record_of_plan(plan: Plan) -> [i64; RECORD_LENGTH]
    ensures { result ≡ record_of_plan plan }
{
    let mut words = [0; RECORD_LENGTH];
    words[0] = number_from(plan.grid.rows);
    words[1] = number_from(plan.grid.columns);
    words[2] = number_from(plan.grid.side);
    for (i, pass) in plan.passes.iter().enumerate() {
        write_pass(*pass, &mut words, pass_start(i));
    }
    words
}

// The words of a pass, from a place on; what stands behind them is left open.
#[tactic(auto, using(crate::proofs::RecordWords::pass_stored))]
fn write_pass(pass: Pass, words: &mut [i64], place: usize)
    requires { place + pass_length ≤ length words.old }
    ensures { take (place + pass_length) words.new ≡ take place words.old ++ record_of_pass pass }
{
    words[place] = number_from(pass.order);
    words[place + 1] = pass.gain;
    words[place + 2..place + PASS_LENGTH].copy_from_slice(&pass.coefficients);
}

fn number_from(size: usize) -> i64
    ensures { result ≡ number_from size }
{
    i64::try_from(size).unwrap_or(-1)
}

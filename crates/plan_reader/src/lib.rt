// Reads a plan from its words.
#![tactic(auto)]

ghost use Rattle.std.specs.Prelude.{◌≡◌, ◌+◌, ◌<◌, ◌≤◌};
ghost use Rattle.refusal.specs.Table.{first_due, answer_of};
ghost use Rattle.buffer.specs.Lists.{word_at};
ghost use Rattle.plan_reader.specs.PlanWords.{rows_in, columns_in, size_allowed, order_in, pass_allowed, signed28, kind_number};
ghost use Rattle.plan_reader.specs.ReadPlan.{payload_at, order_at, pass_place, word_rows, head_rows, coefficient_rows, pass_rows, passes_rows, end_rows, side_rows, plan_rows, pass_from, plan_from, read_plan, read_given};
ghost use Rattle.number.specs.KindWords.{payload_limit, word_of};

use grid::Grid;
use plan::{Pass, Plan};
use refusal::Refusal;

// The kinds of plan words, by document 01's numbers.
#[derive(Clone, Copy)]
pub enum Kind {
    Size = 1,
    Block,
    Pass,
    Gain,
    Coefficient,
    End,
}

impl Kind {
    // The word of this kind with a payload.
    pub fn word(self, payload: u32) -> u32
        requires { payload < payload_limit }
        ensures { result ≡ word_of (kind_number self) payload }
    {
        number::word_of(self as u32, payload)
    }
}

// The number of the end word's kind; `end_kind` of specs/PlanWords.antt is the same number.
pub const END_KIND: u32 = Kind::End as u32;

// The plan that the words hold, or the first refusal.
#[tactic(auto, unfolding(crate::specs::ReadPlan::read_plan))]
pub fn read_plan(words: &[u32]) -> Result<Plan, Refusal>
    ensures { read_given result ≡ read_plan words.now }
{
    test_plan(words)?;
    Ok(plan_from(words))
}

// ---- words

// The word at a place; 0 past the last.
fn word_at(words: &[u32], place: usize) -> u32
    ensures { result ≡ word_at words.now place }
{
    words.get(place).copied().unwrap_or(0)
}

fn payload_at(words: &[u32], place: usize) -> u32
    ensures { result ≡ payload_at words.now place }
{
    number::payload_of(word_at(words, place))
}

fn order_at(words: &[u32], place: usize) -> usize
    ensures { result ≡ order_at words.now place }
{
    order_in(payload_at(words, place))
}

// The place of the pass word of pass i, of the end word for i = 4. Passes stay numbers here too (see `axis`).
#[tactic(auto, using(crate::proofs::PassPlaces::walked))]
fn pass_place(words: &[u32], i: usize) -> usize
    requires { i ≤ 4 }
    ensures { result ≡ pass_place words.now i }
{
    let mut place = 2;
    for _ in 0..i {
        place += 2 + order_at(words, place);
    }
    place
}

fn rows_in(payload: u32) -> usize
    ensures { result ≡ rows_in payload }
{
    (payload / 8192 % 8192) as usize
}

fn columns_in(payload: u32) -> usize
    ensures { result ≡ columns_in payload }
{
    (payload % 8192) as usize
}

fn order_in(payload: u32) -> usize
    ensures { result ≡ order_in payload }
{
    (payload % 16) as usize
}

fn size_allowed(payload: u32) -> bool
    ensures { result ≡ size_allowed payload }
{
    number::within(rows_in(payload), grid::SIZE_LIMIT)
        && number::within(columns_in(payload), grid::SIZE_LIMIT)
        && payload / 67108864 == 0
}

fn pass_allowed(pass: usize, payload: u32) -> bool
    ensures { result ≡ pass_allowed pass payload }
{
    (payload / 16 % 4) as usize == pass
        && order_in(payload) <= plan::ORDER_LIMIT
        && payload / 64 == 0
}

// A payload of signed 28 bits, by its top bit: std has no number of that width.
#[tactic(auto, using(number::proofs::SignedBits::complement_low, number::proofs::SignedBits::complement_high), unfolding(crate::specs::PlanWords::signed28))]
fn decode_signed28(payload: u32) -> i64
    requires { payload < payload_limit }
    ensures { result ≡ signed28 payload }
{
    if payload < number::PAYLOAD_LIMIT / 2 {
        i64::from(payload)
    } else {
        i64::from(payload) - i64::from(number::PAYLOAD_LIMIT)
    }
}

// ---- refusals

#[tactic(auto, unfolding(crate::specs::ReadPlan::word_rows))]
fn test_word(words: &[u32], place: usize, kind: Kind, allowed: bool) -> Result<(), Refusal>
    ensures { answer_of result ≡ first_due (word_rows words.now place (kind_number kind) allowed) }
{
    let count = words.len();
    if count <= place {
        return Err(Refusal::WordsEndEarly(count));
    }
    if number::kind_of(words[place]) != kind as u32 {
        return Err(Refusal::AnotherKindDue(place));
    }
    if !allowed {
        return Err(Refusal::OutOfRange(place));
    }
    Ok(())
}

#[tactic(auto, using(crate::proofs::RefusalRows::in_turn), unfolding(crate::specs::ReadPlan::head_rows))]
fn test_head(words: &[u32]) -> Result<(), Refusal>
    ensures { answer_of result ≡ first_due (head_rows words.now) }
{
    test_word(words, 0, Kind::Size, size_allowed(payload_at(words, 0)))?;
    let side = payload_at(words, 1) as usize;
    let allowed = number::within(side, grid::SIDE_LIMIT);
    test_word(words, 1, Kind::Block, allowed)
}

#[tactic(auto, using(crate::proofs::RefusalRows::each_in_turn), unfolding(crate::specs::ReadPlan::coefficient_rows))]
fn test_coefficients(words: &[u32], place: usize, count: usize) -> Result<(), Refusal>
    requires { place + count < 4294967296 }
    ensures { answer_of result ≡ first_due (coefficient_rows words.now place count) }
{
    for j in 0..count {
        test_word(words, place + j, Kind::Coefficient, true)?;
    }
    Ok(())
}

#[tactic(auto, using(crate::proofs::RefusalRows::in_turn, crate::proofs::PassPlaces::pass_place_bounded), unfolding(crate::specs::ReadPlan::pass_rows))]
fn test_pass(words: &[u32], i: usize) -> Result<(), Refusal>
    requires { i < 4 }
    ensures { answer_of result ≡ first_due (pass_rows words.now i (pass_place words.now i)) }
{
    let place = pass_place(words, i);
    let allowed = pass_allowed(i, payload_at(words, place));
    test_word(words, place, Kind::Pass, allowed)?;
    test_word(words, place + 1, Kind::Gain, true)?;
    test_coefficients(words, place + 2, order_at(words, place))
}

#[tactic(auto, using(crate::proofs::RefusalRows::each_in_turn), unfolding(crate::specs::ReadPlan::passes_rows))]
fn test_passes(words: &[u32]) -> Result<(), Refusal>
    ensures { answer_of result ≡ first_due (passes_rows words.now 4) }
{
    for i in 0..4 {
        test_pass(words, i)?;
    }
    Ok(())
}

#[tactic(auto, using(crate::proofs::RefusalRows::in_turn, crate::proofs::PassPlaces::pass_place_bounded), unfolding(crate::specs::ReadPlan::end_rows))]
fn test_end(words: &[u32]) -> Result<(), Refusal>
    ensures { answer_of result ≡ first_due (end_rows words.now (pass_place words.now 4)) }
{
    let place = pass_place(words, 4);
    test_word(words, place, Kind::End, payload_at(words, place) == 0)?;
    if place + 1 < words.len() {
        return Err(Refusal::WordsAfterEnd(place + 1));
    }
    Ok(())
}

#[tactic(auto, using(crate::proofs::RefusalRows::side_tested))]
fn test_side(words: &[u32]) -> Result<(), Refusal>
    ensures { answer_of result ≡ first_due (side_rows words.now) }
{
    let side = payload_at(words, 1) as usize;
    for i in 0..4 {
        if side < order_at(words, pass_place(words, i)) {
            return Err(Refusal::SideBelowOrder);
        }
    }
    Ok(())
}

#[tactic(auto, using(crate::proofs::RefusalRows::in_turn), unfolding(crate::specs::ReadPlan::plan_rows))]
fn test_plan(words: &[u32]) -> Result<(), Refusal>
    ensures { answer_of result ≡ first_due (plan_rows words.now) }
{
    test_head(words)?;
    test_passes(words)?;
    test_end(words)?;
    test_side(words)
}

// ---- the record

fn pass_from(words: &[u32], place: usize) -> Pass
    requires { place ≤ 1000 }
    ensures { result ≡ pass_from words.now place }
{
    let order = order_at(words, place);
    Pass {
        order,
        gain: decode_signed28(payload_at(words, place + 1)),
        coefficients: std::array::from_fn(|j| {
            if j < order {
                decode_signed28(payload_at(words, place + 2 + j))
            } else {
                0
            }
        }),
    }
}

#[tactic(auto, using(crate::proofs::PassPlaces::pass_place_bounded))]
fn plan_from(words: &[u32]) -> Plan
    ensures { result ≡ plan_from words.now }
{
    let size = payload_at(words, 0);
    Plan {
        grid: Grid {
            rows: rows_in(size),
            columns: columns_in(size),
            side: payload_at(words, 1) as usize,
        },
        passes: std::array::from_fn(|i| pass_from(words, pass_place(words, i))),
    }
}

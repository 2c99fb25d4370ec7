// Writes a plan as its words.
#![tactic(auto)]

ghost use Rattle.std.specs.Prelude.{◌≡◌, true, ◌+◌, ◌*◌, ◌<◌, ◌≤◌, length};
ghost use Rattle.std.proofs.lemmas.List.Edits.{sets};
ghost use Rattle.grid.specs.Grid.{size_limit, side_limit};
ghost use Rattle.plan.specs.Rules.{keeps_rules, in_signed28};
ghost use Rattle.plan.specs.Sizes.{order_sum, word_count};
ghost use Rattle.plan_reader.specs.PlanWords.{kind_number};
ghost use Rattle.plan_writer.specs.Room.{PassFits, CoefficientsFit};
ghost use Rattle.plan_writer.specs.WritePlan.{payload28, size_payload, pass_payload, coefficient_words, pass_words, passes_words, words_of, write_plan, written_given, written_words};
ghost use Rattle.number.specs.KindWords.{word_of};

use plan::{BufferOf7, Pass, Plan};
use plan_reader::Kind;
use refusal::Refusal;

// Writes the words of a plan to the front of a lent buffer, and answers how many.
pub fn write_plan(plan: Plan, words: &mut [u32]) -> Result<usize, Refusal>
    ensures answer { written_given result ≡ write_plan plan (length words.old) }
    ensures written { words.new ≡ written_words plan words.old }
{
    let sizes = plan.sizes_for(plan::only_of_7(Some(BufferOf7::Words(words.len()))))?;
    write_words(plan, words);
    Ok(sizes.words)
}

fn write_words(plan: Plan, words: &mut [u32])
    requires { (keeps_rules plan ≡ true) × (word_count plan ≤ length words.old) }
    ensures { words.new ≡ sets words.old 0 (words_of plan) }
{
    words[0] = size_word(plan.grid.rows, plan.grid.columns);
    words[1] = block_word(plan.grid.side);
    let end = write_passes(plan, words, 2);
    words[end] = Kind::End.word(0);
}

// The words of all passes, from a place on; gives the place after them.
#[tactic(auto, using(crate::proofs::WrittenWords::passes_written))]
fn write_passes(plan: Plan, words: &mut [u32], place: usize) -> usize
    requires { (keeps_rules plan ≡ true) × (place + (8 + order_sum plan 4) ≤ length words.old) }
    ensures { (result ≡ place + (8 + order_sum plan 4)) × (words.new ≡ sets words.old place (passes_words plan 4)) }
{
    let mut next = place;
    for (i, pass) in plan.passes.iter().enumerate() {
        next = write_pass(*pass, i, words, next);
    }
    next
}

// The words of pass i, from a place on; gives the place after them.
#[tactic(auto, unfolding(crate::specs::WritePlan::pass_words))]
fn write_pass(pass: Pass, i: usize, words: &mut [u32], place: usize) -> usize
    requires { PassFits (length words.old) i pass place }
    ensures { (result ≡ place + (2 + pass.order)) × (words.new ≡ sets words.old place (pass_words i pass)) }
{
    words[place] = pass_word(i, pass.order);
    words[place + 1] = value_word(Kind::Gain, pass.gain);
    write_coefficients(pass, words, place + 2);
    place + 2 + pass.order
}

#[tactic(auto, using(crate::proofs::WrittenWords::coefficients_written))]
fn write_coefficients(pass: Pass, words: &mut [u32], place: usize)
    requires { CoefficientsFit (length words.old) pass place }
    ensures { words.new ≡ sets words.old place (coefficient_words pass pass.order) }
{
    for (j, value) in pass.coefficients[..pass.order].iter().enumerate() {
        words[place + j] = value_word(Kind::Coefficient, *value);
    }
}

fn size_word(rows: usize, columns: usize) -> u32
    requires { (rows ≤ size_limit) × (columns ≤ size_limit) }
    ensures { result ≡ word_of 1 (size_payload rows columns) }
{
    Kind::Size.word((rows as u32) * 8192 + columns as u32)
}

fn block_word(side: usize) -> u32
    requires { side ≤ side_limit }
    ensures { result ≡ word_of 2 side }
{
    Kind::Block.word(side as u32)
}

fn pass_word(i: usize, order: usize) -> u32
    requires { (i < 4) × (order < 16) }
    ensures { result ≡ word_of 3 (pass_payload i order) }
{
    Kind::Pass.word((i as u32) * 16 + order as u32)
}

// A word of a kind with a signed payload.
#[tactic(auto, using(crate::proofs::Payload::payload_below))]
fn value_word(kind: Kind, value: i64) -> u32
    requires { in_signed28 value ≡ true }
    ensures { result ≡ word_of (kind_number kind) (payload28 value) }
{
    kind.word(encode_signed28(value))
}

// A number of signed 28 bits as a payload.
#[tactic(auto, using(crate::proofs::Payload::encoding))]
fn encode_signed28(value: i64) -> u32
    requires { in_signed28 value ≡ true }
    ensures { result ≡ payload28 value }
{
    value.rem_euclid(i64::from(number::PAYLOAD_LIMIT)) as u32
}

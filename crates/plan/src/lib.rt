// The plan record, its check, the lengths of the buffers that a job needs, and the tests of record and lengths that every
// call begins with.
#![tactic(auto)]

ghost use Rattle.std.specs.Prelude.{◌≡◌, true, cond, ◌<◌, ◌≤◌, Some};
ghost use Rattle.refusal.specs.declared.Refusal.TheVariants.{BufferTooShort};
ghost use Rattle.refusal.specs.Refusals.{accepted, refused_for};
ghost use Rattle.refusal.specs.Table.{first_due, answer_of};
ghost use Rattle.plan.specs.Rules.{in_signed28, coefficient_kept, coefficients_kept, pass_kept, passes_kept, keeps_rules};
ghost use Rattle.plan.specs.Sizes.{order_of, order_sum, half_words, sizes_of};
ghost use Rattle.plan.specs.FirstTests.{too_short, of7_too_short, length_rows, only_of7, plan_sizes, sizes_for, sizes_given};

use grid::Grid;
use refusal::Refusal;

// The largest order of a pass: `order_limit` of specs/Rules.antt is the same number.
pub const ORDER_LIMIT: usize = 8;

// The most that the orders of the four passes can sum up to: `order_sum_limit` of specs/Sizes.antt is the same number.
pub const ORDER_SUM_LIMIT: usize = 4 * ORDER_LIMIT;

// The words that every plan has, and the most that one can have: `fixed_words` and `word_limit` of specs/Sizes.antt are the same
// numbers.
const FIXED_WORDS: usize = 11;

pub const WORD_LIMIT: usize = FIXED_WORDS + ORDER_SUM_LIMIT;

// The longest line of a block, with a margin of ORDER_LIMIT places at both ends: `padded_line` of specs/PaddedLine.antt is
// the same number.
pub const PADDED_LINE: usize = grid::SIDE_LIMIT + 2 * ORDER_LIMIT;

// One pass: its order, its gain and its coefficients, zero past the order.
#[derive(Clone, Copy)]
pub struct Pass {
    pub order: usize,
    pub gain: i64,
    pub coefficients: [i64; ORDER_LIMIT],
}

// A plan (document 01's term): the size of the map and the block side, and the passes down, up, right and left. Its rules are no
// invariant of the type: a record is what a caller gave, 6 is answered by `check`, and the definitions speak of any plan.
#[derive(Clone, Copy)]
pub struct Plan {
    pub grid: Grid,
    pub passes: [Pass; 4],
}

// What a plan needs: its own words, the block counts, the lengths of marks, strips and map, and the number of tasks.
#[derive(Clone, Copy)]
pub struct Sizes {
    pub words: usize,
    pub block_rows: usize,
    pub block_columns: usize,
    pub marks: usize,
    pub strips: usize,
    pub pixels: usize,
    pub tasks: usize,
}

// Which of the three buffers that 7 is for a call is lent, and its length: the words that a plan is written to, the
// marks, or the table of a rectangle.
#[derive(Clone, Copy)]
pub enum BufferOf7 {
    Words(usize),
    Marks(usize),
    Table(usize),
}

// The lengths of the buffers that a call is lent, in the order in which they are tested; none of a buffer that it is not
// lent.
#[derive(Clone, Copy)]
pub struct Lengths {
    pub of7: Option<BufferOf7>,
    pub strips: Option<usize>,
    pub map: Option<usize>,
    pub output: Option<usize>,
}

impl Plan {
    // Whether the record keeps document 01's rules.
    #[tactic(auto, unfolding(crate::specs::Rules::keeps_rules))]
    pub fn check(self) -> bool
        ensures { result ≡ keeps_rules self }
    {
        self.grid.check() && self.passes_kept()
    }

    // The sizes that follow from the record, or refusal 6.
    #[tactic(auto, unfolding(crate::specs::FirstTests::sizes_for, crate::specs::FirstTests::lent_rows))]
    pub fn sizes(self) -> Result<Sizes, Refusal>
        ensures { sizes_given result ≡ plan_sizes self }
    {
        if self.check() {
            Ok(self.kept_sizes())
        } else {
            Err(Refusal::RecordBreaksRule)
        }
    }

    // The sizes for a call that is lent buffers of these lengths, or its refusal: every call that is lent a buffer beside
    // a record tests both here, in the one order that document 02 gives them.
    #[tactic(auto, unfolding(crate::specs::FirstTests::sizes_for, crate::specs::FirstTests::lent_rows))]
    pub fn sizes_for(self, lent: Lengths) -> Result<Sizes, Refusal>
        ensures { sizes_given result ≡ sizes_for self lent }
    {
        let sizes = self.sizes()?;
        sizes.test_lengths(lent)?;
        Ok(sizes)
    }

    fn kept_sizes(self) -> Sizes
        requires { keeps_rules self ≡ true }
        ensures { result ≡ sizes_of self }
    {
        let grid = self.grid;
        let block_rows = grid.block_rows();
        let block_columns = grid.block_columns();
        let orders = self.order_sum(4);
        let marks = block_rows * block_columns;
        Sizes {
            words: FIXED_WORDS + orders,
            block_rows: block_rows,
            block_columns: block_columns,
            marks: marks,
            strips: marks * (2 * self.half_words()),
            pixels: grid.rows * grid.columns,
            tasks: 6 * marks - 2 * block_rows - 2 * block_columns,
        }
    }

    // The words of half the slot that each block has in the list of strips.
    pub fn half_words(self) -> usize
        requires { keeps_rules self ≡ true }
        ensures { result ≡ half_words self }
    {
        self.grid.side * self.order_sum(4)
    }

    // The sum of the orders of the first `count` passes. The loop goes over all four: the compiler unrolls it, and copies no
    // plan to index into.
    pub fn order_sum(self, count: usize) -> usize
        requires { (keeps_rules self ≡ true) × (count ≤ 4) }
        ensures { result ≡ order_sum self count }
    {
        let mut sum = 0;
        for (i, pass) in self.passes.iter().enumerate() {
            sum += number::counted_if(i < count, pass.order);
        }
        sum
    }

    // The order of a pass, by a loop over all four, as in `order_sum`. Two functions: a loop that is handed the test would have
    // to say in its contract what the test answers.
    pub fn order(self, pass: usize) -> usize
        requires { (keeps_rules self ≡ true) × (pass < 4) }
        ensures { result ≡ order_of self pass }
    {
        let mut order = 0;
        for (i, here) in self.passes.iter().enumerate() {
            order += number::counted_if(i == pass, here.order);
        }
        order
    }

    fn passes_kept(self) -> bool
        ensures { result ≡ passes_kept self }
    {
        for pass in &self.passes {
            if !pass.check(self.grid.side) {
                return false;
            }
        }
        true
    }
}

impl Sizes {
    // Refused for the first buffer that is too short, in the order of the tests.
    fn test_lengths(self, lent: Lengths) -> Result<(), Refusal>
        ensures { answer_of result ≡ first_due (length_rows self lent) }
    {
        if let Some(buffer) = lent.of7 {
            buffer.test(self)?;
        }
        test_length(lent.strips, self.strips, Refusal::StripsTooShort)?;
        test_length(lent.map, self.pixels, Refusal::MapTooShort)?;
        test_length(lent.output, self.pixels, Refusal::OutputTooShort)
    }
}

impl BufferOf7 {
    // Refused by 7 where it is too short.
    fn test(self, sizes: Sizes) -> Result<(), Refusal>
        ensures { answer_of result ≡ cond (of7_too_short (Some self) sizes) (refused_for BufferTooShort) accepted }
    {
        let (length, needed) = match self {
            BufferOf7::Words(length) => (length, sizes.words),
            BufferOf7::Marks(length) => (length, sizes.marks),
            BufferOf7::Table(length) => (length, sizes.pixels),
        };
        refusal::too_short(length, needed, Refusal::BufferTooShort)
    }
}

// Refused for a cause where a buffer is lent and too short.
fn test_length(lent: Option<usize>, needed: usize, cause: Refusal) -> Result<(), Refusal>
    ensures { answer_of result ≡ cond (too_short lent needed) (refused_for cause) accepted }
{
    match lent {
        Some(length) => refusal::too_short(length, needed, cause),
        None => Ok(()),
    }
}

// The lengths of a call that is lent no strips, map or output, and of the buffers that 7 is for this one or none. By name:
// `Lengths::from` would not say that nothing else is lent.
pub fn only_of_7(buffer: Option<BufferOf7>) -> Lengths
    ensures { result ≡ only_of7 buffer }
{
    Lengths {
        of7: buffer,
        strips: None,
        map: None,
        output: None,
    }
}

impl Pass {
    // Whether a pass keeps the rules beside a block side.
    #[tactic(auto, unfolding(crate::specs::Rules::pass_kept))]
    pub fn check(self, side: usize) -> bool
        ensures { result ≡ pass_kept side self }
    {
        self.order <= ORDER_LIMIT
            && self.order <= side
            && in_signed28(self.gain)
            && self.coefficients_kept()
    }

    fn coefficients_kept(self) -> bool
        ensures { result ≡ coefficients_kept self }
    {
        for (place, value) in self.coefficients.iter().enumerate() {
            if !coefficient_kept(self.order, place, *value) {
                return false;
            }
        }
        true
    }
}

// Zero may stand at any place, and is tested first: most places of most plans have it.
fn coefficient_kept(order: usize, place: usize, value: i64) -> bool
    ensures { result ≡ coefficient_kept order place value }
{
    value == 0 || place < order && in_signed28(value)
}

fn in_signed28(value: i64) -> bool
    ensures { result ≡ in_signed28 value }
{
    -134217729 < value && value < 134217728
}

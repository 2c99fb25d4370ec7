// One output of a filter of gain 1, from the words before it in a buffer.
ghost use Rattle.std.specs.Prelude.{◌≡◌, ◌<◌, ◌≤◌, length};
ghost use Rattle.plan.specs.Rules.{order_limit};

use super::in_place::Lines;

// The taps of a filter of gain 1: the first `order` of its coefficients. These by reference: taps that hold them are copied
// at each place, and the loops over lines then read the order from memory.
#[derive(Clone, Copy)]
pub(crate) struct Taps<'a> {
    pub(crate) order: usize,
    pub(crate) coefficients: &'a [u64; plan::ORDER_LIMIT],
    ghost few: { order ≤ order_limit },
}

impl<'a> Taps<'a> {
    ghost use Rattle.filter.specs.Kernel.{feedback_from, output_at, next_output_at, TapsFit, first_taps};
    ghost use Rattle.filter.specs.Taps.{filter_of_taps};

    // The first `count` taps, or all where there are fewer.
    pub(crate) fn first(self, count: usize) -> Taps<'a>
        ensures { filter_of_taps result ≡ first_taps count (filter_of_taps self.entry) }
    {
        Taps {
            order: self.order.min(count),
            coefficients: self.coefficients,
        }
    }

    // A word less the feedback of the taps from `taken` on. The count of taps is fixed, so that the compiler writes them
    // out; a tap past the order is a test that is never taken.
    fn less_feedback(
        self,
        buffer: &[u64],
        lines: Lines,
        place: usize,
        taken: usize,
        word: u64,
    ) -> u64
        requires { TapsFit (length buffer.now) place lines.forth lines.back self.order }
        ensures { result ≡ feedback_from taken self.entry.coefficients.now self.entry.order word lines.forth lines.back buffer.now place }
    {
        let mut sum = word;
        for tap in taken..plan::ORDER_LIMIT {
            let distance = tap + 1;
            if distance <= self.order {
                let before = place + distance * lines.back - distance * lines.forth;
                sum = word::sub(sum, word::mul(self.coefficients[tap], buffer[before]));
            }
        }
        sum
    }

    // The output at a place: the word there, less the coefficients times the words before it.
    pub(crate) fn output_at(self, buffer: &[u64], lines: Lines, place: usize) -> u64
        requires { TapsFit (length buffer.now) place lines.forth lines.back self.order }
        ensures { result ≡ output_at (filter_of_taps self.entry) lines.forth lines.back buffer.now place }
    {
        self.less_feedback(buffer, lines, place, 0, buffer[place])
    }

    // The output at a place where the output before it, `nearest`, is at hand and not in the buffer yet.
    pub(crate) fn next_output_at(
        self,
        buffer: &[u64],
        lines: Lines,
        place: usize,
        nearest: u64,
    ) -> u64
        requires { (0 < self.order) × TapsFit (length buffer.now) place lines.forth lines.back self.order }
        ensures { result ≡ next_output_at (filter_of_taps self.entry) lines.forth lines.back buffer.now place nearest }
    {
        let word = word::sub(buffer[place], word::mul(self.coefficients[0], nearest));
        self.less_feedback(buffer, lines, place, 1, word)
    }
}

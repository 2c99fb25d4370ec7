// The filter over many lines of a buffer, in place.
ghost use Rattle.std.specs.Prelude.{◌≡◌, ◌+◌, ◌-◌, ◌*◌, ◌^◌, ◌<◌, ◌≤◌, length};
ghost use Rattle.filter.specs.Kernel.{outputs_at, PlacesFit, outputs_at_two, TwoPlacesFit, lead_place, first_taps, outputs_at_time, filter_in_place, LinesFit, Apart};
ghost use Rattle.filter.specs.Taps.{filter_of_taps};

use super::output::Taps;

// Lines in a buffer: the first begins at `first`, each other lies `apart` above the one before, and each place of a
// line lies `forth` above the one before, or `back` below it.
#[derive(Clone, Copy)]
pub(crate) struct Lines {
    pub(crate) first: usize,
    pub(crate) forth: usize,
    pub(crate) back: usize,
    pub(crate) apart: usize,
    pub(crate) count: usize,
}

impl Lines {
    // Place `time` of the first line.
    fn lead_place(self, time: usize) -> usize
        requires { (self.first + time * self.forth < 2 ^ 64) × (time * self.back ≤ self.first) }
        ensures { result ≡ lead_place self time }
    {
        self.first + time * self.forth - time * self.back
    }

    // The outputs of all lines at one place: independent sums, which hide the latency of the multiply.
    fn outputs_at_place(self, buffer: &mut [u64], place: usize, taps: Taps<'_>)
        requires { PlacesFit (length buffer.old) place self.forth self.back self.apart self.count taps.order }
        ensures { buffer.new ≡ outputs_at (filter_of_taps taps.entry) self.forth self.back self.apart place self.count buffer.old }
    {
        for line in 0..self.count {
            let here = place + line * self.apart;
            buffer[here] = taps.output_at(buffer, self, here);
        }
    }

    // The outputs of all lines at one place and at the next, which share the words before them. Its own copy of the
    // coefficients, which no store to the buffer can change, stays in registers.
    fn outputs_at_two_places(self, buffer: &mut [u64], place: usize, taps: Taps<'_>)
        requires { (0 < taps.order) × TwoPlacesFit (length buffer.old) place self.forth self.back self.apart self.count taps.order }
        ensures { buffer.new ≡ outputs_at_two (filter_of_taps taps.entry) self.forth self.back self.apart place self.count buffer.old }
    {
        let coefficients = *taps.coefficients;
        let own = Taps {
            order: taps.order,
            coefficients: &coefficients,
        };
        for line in 0..self.count {
            let here = place + line * self.apart;
            let next = here + self.forth - self.back;
            let output = own.output_at(buffer, self, here);
            let later = own.next_output_at(buffer, self, next, output);
            buffer[here] = output;
            buffer[next] = later;
        }
    }

    // The outputs of all lines at place `time`, with no more taps than there are places before it.
    fn outputs_at_time(self, buffer: &mut [u64], time: usize, taps: Taps<'_>)
        requires { LinesFit (length buffer.old) self (time + 1) }
        ensures { buffer.new ≡ outputs_at_time self (first_taps time (filter_of_taps taps.entry)) time buffer.old }
    {
        let place = self.lead_place(time);
        self.outputs_at_place(buffer, place, taps.first(time));
    }

    // The outputs of all lines at `places` places after `history` others, place by place.
    fn outputs_one_by_one(self, buffer: &mut [u64], history: usize, places: usize, taps: Taps<'_>)
        requires { LinesFit (length buffer.old) self (history + places) }
        ensures { buffer.new ≡ filter_in_place self (filter_of_taps taps.entry) history places buffer.old }
    {
        for done in 0..places {
            self.outputs_at_time(buffer, history + done, taps);
        }
    }

    // The outputs of all lines at `pairs` pairs of places, from place `time` on, each with all its taps.
    fn outputs_in_pairs(self, buffer: &mut [u64], time: usize, pairs: usize, taps: Taps<'_>)
        requires { (0 < taps.order) × (0 < pairs → taps.order ≤ time) × LinesFit (length buffer.old) self (time + 2 * pairs) × Apart self (time + 2 * pairs) }
        ensures { buffer.new ≡ filter_in_place self (filter_of_taps taps.entry) time (2 * pairs) buffer.old }
    {
        for pair in 0..pairs {
            let place = self.lead_place(time + 2 * pair);
            self.outputs_at_two_places(buffer, place, taps);
        }
    }

    // The outputs of all lines at `places` places after `history` others, whose words are their history: one by one up to
    // the first place that has all its taps, then in pairs, then the last where it is alone.
    pub(crate) fn filter(self, buffer: &mut [u64], history: usize, places: usize, taps: Taps<'_>)
        requires { (0 < taps.order) × LinesFit (length buffer.old) self (history + places) × Apart self (history + places) }
        ensures { buffer.new ≡ filter_in_place self (filter_of_taps taps.entry) history places buffer.old }
    {
        let lead = places.min(taps.order.saturating_sub(history));
        self.outputs_one_by_one(buffer, history, lead, taps);
        let pairs = (places - lead) / 2;
        self.outputs_in_pairs(buffer, history + lead, pairs, taps);
        let done = lead + 2 * pairs;
        // Not one by one again: with a second call of that, the compiler no longer makes the loop of the pairs anew for
        // each low order.
        if done < places {
            self.outputs_at_time(buffer, history + done, taps);
        }
    }
}

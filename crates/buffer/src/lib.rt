// Words of lent buffers: copied, scaled, cleared, and read from heights, of which some are dropouts. An inner crate:
// what its functions require, their callers in this repository show.
// A buffer comes whole, with a start and a count, and not as a part of itself: so a contract says what the whole holds
// afterwards, and no caller's proof puts parts together.
#![tactic(auto)]

ghost use Rattle.std.specs.Prelude.{◌≡◌, ◌+◌, ◌*◌, ◌≤◌, length};
ghost use Rattle.buffer.specs.Pixel.{is_dropout, pixel};
ghost use Rattle.buffer.specs.Copies.{WordsFit, words_from, scaled_from, heights_from};
ghost use Rattle.buffer.specs.Written.{written, row_written, cleared};

// What the laser's head writes where the beam gets no return.
const DROPOUT: i32 = i32::MIN;

// Whether a height is a dropout.
#[tactic(auto, unfolding(crate::specs::Pixel::is_dropout))]
pub fn is_dropout(height: i32) -> bool
    ensures { result ≡ is_dropout height }
{
    height == DROPOUT
}

// The word that a pixel enters the passes with: 0 for a dropout.
#[tactic(auto, using(crate::proofs::Pixel::pixels))]
pub fn read_pixel(height: i32) -> u64
    ensures { result ≡ pixel height }
{
    if is_dropout(height) {
        0
    } else {
        word::residue_of_height(height)
    }
}

// The words of heights, one after another.
// The words by index: after `iter_mut().zip(..)` a proof knows how many words there are, and not which.
#[tactic(auto, using(crate::proofs::Copies::row_none))]
pub fn read_heights(map: &[i32], map_start: usize, to: &mut [u64], to_start: usize, count: usize)
    requires { (map_start + count ≤ length map.now) × (to_start + count ≤ length to.old) }
    ensures { to.new ≡ row_written to_start (heights_from map.now map_start) count to.old }
{
    for (i, height) in map[map_start..map_start + count].iter().enumerate() {
        to[to_start + i] = read_pixel(*height);
    }
}

// Words of one buffer to another. By index: where the compiler does not know that the two lie apart, `copy_from_slice` calls
// `memmove`, which the library does not ask for.
#[tactic(auto, using(crate::proofs::Copies::row_none))]
pub fn copy_words(from: &[u64], from_start: usize, to: &mut [u64], to_start: usize, count: usize)
    requires { (from_start + count ≤ length from.now) × (to_start + count ≤ length to.old) }
    ensures { to.new ≡ row_written to_start (words_from from.now from_start) count to.old }
{
    for i in 0..count {
        to[to_start + i] = from[from_start + i];
    }
}

// Words that lie a step apart, each times a gain, to places of another buffer that lie a step of its own apart.
// Start and step as two numbers: a struct of them would be built at each call, and read in one line here.
#[tactic(auto, using(crate::proofs::Written::written_none))]
pub fn scale_words(
    from: &[u64],
    from_start: usize,
    from_step: usize,
    to: &mut [u64],
    to_start: usize,
    to_step: usize,
    count: usize,
    gain: u64,
)
    requires { WordsFit (length from.now) from_start from_step count × WordsFit (length to.old) to_start to_step count }
    ensures { to.new ≡ written (λ i. to_start + i * to_step) (scaled_from gain from.now from_start from_step) count to.old }
{
    for i in 0..count {
        to[to_start + i * to_step] = word::mul(gain, from[from_start + i * from_step]);
    }
}

// Zeros to words that lie `step` apart, so `fill` does not fit.
#[tactic(auto, using(crate::proofs::Copies::cleared_none, crate::proofs::Copies::cleared_more))]
pub fn clear_words(words: &mut [u64], start: usize, step: usize, count: usize)
    requires { WordsFit (length words.old) start step count }
    ensures { words.new ≡ cleared start step count words.old }
{
    for i in 0..count {
        words[start + i * step] = 0;
    }
}

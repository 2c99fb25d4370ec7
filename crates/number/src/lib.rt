// Numbers: a number that counts by a test, a range from 1 on, and words of a kind and a
// payload.
#![tactic(auto)]

ghost use Rattle.std.specs.Prelude.{◌≡◌, cond, ◌<◌};
ghost use Rattle.number.specs.Numbers.{within};
ghost use Rattle.number.specs.KindWords.{payload_limit, kind_of, payload_of, word_of};

// A number where something holds, and 0 where not.
pub fn counted_if(holds: bool, number: usize) -> usize
    ensures { result ≡ cond holds number 0 }
{
    if holds { number } else { 0 }
}

// From 1 to `most`.
pub fn within(number: usize, most: usize) -> bool
    ensures { result ≡ within number most }
{
    1 <= number && number <= most
}

// Plan words and marks have a kind in the top four bits and a payload in the low 28, below 2^28: `payload_limit` of
// specs/KindWords.antt is the same number.
pub const PAYLOAD_LIMIT: u32 = 268435456;

pub fn kind_of(word: u32) -> u32
    ensures { result ≡ kind_of word }
{
    word / PAYLOAD_LIMIT
}

pub fn payload_of(word: u32) -> u32
    ensures { result ≡ payload_of word }
{
    word % PAYLOAD_LIMIT
}

pub fn word_of(kind: u32, payload: u32) -> u32
    requires { (kind < 16) × (payload < payload_limit) }
    ensures { result ≡ word_of kind payload }
{
    kind * PAYLOAD_LIMIT + payload
}

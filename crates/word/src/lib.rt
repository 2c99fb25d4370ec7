// Words of 64 bits modulo 2^64: sum, difference, product, the residues of signed numbers, and words read as signed.
// All but the product are one method of the standard library; the contracts here are in the words ⊕, ⊖, ⊗, `residue` and `signed`.
#![tactic(auto)]

ghost use Rattle.std.specs.Prelude.{◌≡◌};
ghost use Rattle.word.specs.Word.{◌⊕◌, ◌⊖◌, ◌⊗◌, residue, signed};

// a + b modulo 2^64.
pub fn add(a: u64, b: u64) -> u64
    ensures { result ≡ a ⊕ b }
{
    a.wrapping_add(b)
}

// a - b modulo 2^64.
pub fn sub(a: u64, b: u64) -> u64
    ensures { result ≡ a ⊖ b }
{
    a.wrapping_sub(b)
}

// a * b modulo 2^64, from halves of 32 bits, the form that document 01 names: the cross products count 2^32 times, and the
// product of the upper halves not at all. It compiles to one multiply instruction.
pub fn mul(a: u64, b: u64) -> u64
    ensures { result ≡ a ⊗ b }
{
    let a_low = a % 4294967296;
    let a_high = a / 4294967296;
    let b_low = b % 4294967296;
    let b_high = b / 4294967296;
    let cross = (a_low * b_high).wrapping_add(b_low * a_high);
    (cross << 32).wrapping_add(a_low * b_low)
}

// The residue of a signed number: a gain, a coefficient, or a height made wider.
pub fn residue(value: i64) -> u64
    ensures { result ≡ residue value }
{
    value.cast_unsigned()
}

// The residue of a height.
pub fn residue_of_height(height: i32) -> u64
    ensures { result ≡ residue height }
{
    residue(i64::from(height))
}

// A word read as a signed number, two's complement.
pub fn signed(word: u64) -> i64
    ensures { result ≡ signed word }
{
    word.cast_signed()
}

//! Sets of members: member i is in a set where its bit i is 1.
ghost use Rattle.std.specs.Prelude.{◌≡◌, ◌≢◌, ◌<◌, ◌≤◌, ℕ, IfSome, IfNone, true, false};
ghost use Rattle.std.specs.Int.{bit_at};

/// The least member of the set.
pub fn first(set: u64) -> Option<u32>
    ensures none { IfNone result (set ≡ 0) }
    ensures within { IfSome result (λ i. i < 64) }
    ensures member { IfSome result (λ i. bit_at set i ≡ 1) }
    ensures least { IfSome result (λ i. (j : ℕ) → j < i → bit_at set j ≡ 0) }
{
    if set == 0 {
        return None;
    }
    Some(set.trailing_zeros())
}

/// The set and this member.
pub fn with(set: u64, i: u32) -> u64
    requires { i < 64 }
    ensures member { bit_at result i ≡ 1 }
    ensures others { (j : ℕ) → j ≢ i → bit_at result j ≡ bit_at set j }
{
    set | 1 << i
}

/// The set and, where `is_in`, this member.
pub fn with_if(set: u64, i: u32, is_in: bool) -> u64
    requires { i < 64 }
    ensures member { is_in ≡ true → bit_at result i ≡ 1 }
    ensures not { is_in ≡ false → bit_at result i ≡ bit_at set i }
    ensures others { (j : ℕ) → j ≢ i → bit_at result j ≡ bit_at set j }
{
    if !is_in {
        return set;
    }
    with(set, i)
}

/// The set without this member.
pub fn without(set: u64, i: u32) -> u64
    requires { i < 64 }
    ensures member { bit_at result i ≡ 0 }
    ensures others { (j : ℕ) → j ≢ i → bit_at result j ≡ bit_at set j }
    ensures less { bit_at set i ≡ 1 → result < set }
{
    set & !(1 << i)
}

/// Who is in one of the two.
pub fn either(a: u64, b: u64) -> u64
    ensures first { (i : ℕ) → bit_at result i ≡ 0 → bit_at a i ≡ 0 }
    ensures second { (i : ℕ) → bit_at result i ≡ 0 → bit_at b i ≡ 0 }
    ensures only { (i : ℕ) → bit_at a i ≡ 0 → bit_at b i ≡ 0 → bit_at result i ≡ 0 }
{
    a | b
}

/// All members of a group of that size.
pub fn all(size: usize) -> u64
    requires some { 1 ≤ size }
    requires most { size ≤ 64 }
    ensures members { (i : ℕ) → i < size → bit_at result i ≡ 1 }
    ensures only { (i : ℕ) → size ≤ i → bit_at result i ≡ 0 }
{
    u64::MAX >> (64 - size as u32)
}

ghost use Rattle.std.specs.Prelude.{◌≡◌, ◌+◌, ◌<◌};

/// The number after k in a round of so many: after the last comes the first.
pub fn next_in_round(k: usize, count: usize) -> usize
    requires { k < count }
    ensures inner { k + 1 < count → result ≡ k + 1 }
    ensures last { k + 1 ≡ count → result ≡ 0 }
    ensures within { result < count }
{
    if k + 1 < count { k + 1 } else { 0 }
}

/// The number before k in a round of so many: before the first comes the last.
pub fn previous_in_round(k: usize, count: usize) -> usize
    requires { k < count }
    ensures later { 0 < k → result + 1 ≡ k }
    ensures first { k ≡ 0 → result + 1 ≡ count }
    ensures within { result < count }
{
    if k > 0 { k - 1 } else { count - 1 }
}

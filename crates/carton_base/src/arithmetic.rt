ghost use Rattle.std.specs.Prelude.{◌≡◌, ◌+◌, ◌≤◌, ◌^◌, pos, ◌+ℤ◌, ◌-ℤ◌, ◌*ℤ◌, ◌≤ℤ◌, unsigned_abs};

/// a * b, for a and b of sizes up to 2^M and 2^N.
pub fn product<const M: u32, const N: u32>(a: i128, b: i128) -> i128
    requires room { M + N ≤ 126 }
    requires first { unsigned_abs a ≤ 2 ^ M }
    requires second { unsigned_abs b ≤ 2 ^ N }
    ensures value { result ≡ a *ℤ b }
    ensures size { unsigned_abs result ≤ 2 ^ (M + N) }
{
    a * b
}

/// a * a, for a of a size up to 2^N.
pub fn square<const N: u32>(a: i128) -> i128
    requires room { N + N ≤ 126 }
    requires within { unsigned_abs a ≤ 2 ^ N }
    ensures value { result ≡ a *ℤ a }
    ensures from { pos 0 ≤ℤ result }
    ensures size { unsigned_abs result ≤ 2 ^ (N + N) }
{
    product::<N, N>(a, a)
}

/// a + b, for two numbers of sizes up to 2^N.
pub fn sum<const N: u32>(a: i128, b: i128) -> i128
    requires room { N ≤ 125 }
    requires first { unsigned_abs a ≤ 2 ^ N }
    requires second { unsigned_abs b ≤ 2 ^ N }
    ensures value { result ≡ a +ℤ b }
    ensures size { unsigned_abs result ≤ 2 ^ (N + 1) }
{
    a + b
}

/// a - b, for two numbers of sizes up to 2^N.
pub fn difference<const N: u32>(a: i128, b: i128) -> i128
    requires room { N ≤ 125 }
    requires first { unsigned_abs a ≤ 2 ^ N }
    requires second { unsigned_abs b ≤ 2 ^ N }
    ensures value { result ≡ a -ℤ b }
    ensures size { unsigned_abs result ≤ 2 ^ (N + 1) }
{
    sum::<N>(a, -b)
}

/// 2 * a, for a of a size up to 2^N.
pub fn double<const N: u32>(a: i128) -> i128
    requires room { N ≤ 125 }
    requires within { unsigned_abs a ≤ 2 ^ N }
    ensures value { result ≡ a +ℤ a }
    ensures size { unsigned_abs result ≤ 2 ^ (N + 1) }
{
    sum::<N>(a, a)
}

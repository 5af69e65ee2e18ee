ghost use Rattle.std.specs.Prelude.{◌≡◌, ◌≤◌, ◌^◌, unsigned_abs};
ghost use Rattle.std.specs.Int.{int_min, int_max};

/// How far some corners reach along an axis over a piece, in units of 2^-40. Each corner lies from
/// a low to a high bound; these are the least and the greatest of the low ones, and of the high ones.
#[derive(Clone, Copy)]
pub struct Reach {
    pub least_low: i128,
    pub least_high: i128,
    pub greatest_low: i128,
    pub greatest_high: i128,
    pub ghost small_least_low: { unsigned_abs least_low ≤ 2 ^ 66 },
    pub ghost small_least_high: { unsigned_abs least_high ≤ 2 ^ 66 },
    pub ghost small_greatest_low: { unsigned_abs greatest_low ≤ 2 ^ 66 },
    pub ghost small_greatest_high: { unsigned_abs greatest_high ≤ 2 ^ 66 },
}

/// How far some corners reach along each of the 13 axes, in their order.
#[derive(Clone, Copy)]
pub struct Reaches {
    pub axes: [Reach; 13],
}

impl Reach {
    // The reach of the corners of both.
    pub(crate) fn joined(self, other: Reach) -> Reach
        ensures least_low { result.least_low ≡ int_min self.least_low other.least_low }
        ensures least_high { result.least_high ≡ int_min self.least_high other.least_high }
        ensures greatest_low { result.greatest_low ≡ int_max self.greatest_low other.greatest_low }
        ensures greatest_high { result.greatest_high ≡ int_max self.greatest_high other.greatest_high }
    {
        Reach {
            least_low: self.least_low.min(other.least_low),
            least_high: self.least_high.min(other.least_high),
            greatest_low: self.greatest_low.max(other.greatest_low),
            greatest_high: self.greatest_high.max(other.greatest_high),
        }
    }
}

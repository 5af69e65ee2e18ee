use carton_text::{number_of, words};
use std::alloc::{AllocError, Global};

// Whether two words write numbers at most 2 apart, and the value lies between them.
fn enclose(low: &[u8], high: &[u8], value: i64) -> bool {
    let (Some(low), Some(high)) = (number_of(low), number_of(high)) else {
        return false;
    };
    let (Ok(low), Ok(high)) = (low.at_most(1_000_000), high.at_most(1_000_000)) else {
        return false;
    };
    low <= value && value <= high && i128::from(high) - i128::from(low) <= 2
}

/// Whether what stands behind the corner in a line of a pose tells this place, by thousandths of a unit.
///
/// # Errors
///
/// Want of memory.
pub fn tells_place(alloc: Global, rest: &[u8], place: [i64; 3]) -> Result<bool, AllocError> {
    let Ok(words) = words(alloc, rest) else {
        return Err(AllocError);
    };
    match words.as_slice() {
        [b"x", x0, x1, b"y", y0, y1, b"z", z0, z1] => Ok(
            enclose(x0, x1, place[0]) && enclose(y0, y1, place[1]) && enclose(z0, z1, place[2]),
        ),
        _ => Ok(false),
    }
}

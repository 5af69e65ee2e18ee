ghost use Rattle.std.specs.Prelude.{◌≡◌, ℤ, pos, ◌≤ℤ◌, ◌<ℤ◌, ◌<◌, ◌≤◌, ◌^◌, ◌*◌, ◌+◌};
ghost use Rattle.carton_base.specs.declared.limits.TheConstants.{MOST_HALVINGS};

/// The moment num/den of a move, from 0 at its start to 1 at its end.
#[derive(Clone, Copy, Debug, PartialEq, Eq)]
pub struct Moment {
    pub num: i64,
    pub den: i64,
    pub ghost begun: { pos 0 ≤ℤ num },
    pub ghost within: { num ≤ℤ den },
    pub ghost divides: { pos 0 <ℤ den },
}

/// The moments of a move from index/2^depth to (index + 1)/2^depth, both ends included.
#[derive(Clone, Copy, Debug, PartialEq, Eq)]
pub struct Piece {
    pub index: u64,
    pub depth: u8,
    pub ghost within: { index < 2 ^ depth },
    pub ghost shallow: { depth ≤ MOST_HALVINGS },
}

impl Piece {
    /// The whole move.
    pub fn whole() -> Piece
        ensures index { result.index ≡ 0 }
        ensures depth { result.depth ≡ 0 }
    {
        Piece { index: 0, depth: 0 }
    }

    // How many pieces of this depth a move has.
    fn pieces(self) -> u64
        ensures count { result ≡ 2 ^ self.depth }
        ensures bound { result ≤ 2 ^ MOST_HALVINGS }
    {
        1u64 << self.depth
    }

    /// The first moment of the piece.
    pub fn first(self) -> Moment
        ensures num { result.num ≡ pos self.index }
        ensures den { result.den ≡ pos (2 ^ self.depth) }
    {
        let pieces = self.pieces();
        Moment {
            num: self.index as i64,
            den: pieces as i64,
        }
    }

    /// The last moment of the piece.
    pub fn last(self) -> Moment
        ensures num { result.num ≡ pos (self.index + 1) }
        ensures den { result.den ≡ pos (2 ^ self.depth) }
    {
        let pieces = self.pieces();
        Moment {
            num: (self.index + 1) as i64,
            den: pieces as i64,
        }
    }

    /// The two halves of the piece, which together have all its moments.
    pub fn halves(self) -> (Piece, Piece)
        requires { self.depth < MOST_HALVINGS }
        ensures first_index { result.0.index ≡ 2 * self.index }
        ensures first_depth { result.0.depth ≡ self.depth + 1 }
        ensures second_index { result.1.index ≡ 2 * self.index + 1 }
        ensures second_depth { result.1.depth ≡ self.depth + 1 }
    {
        let index = 2 * self.index;
        let depth = self.depth + 1;
        (
            Piece { index, depth },
            Piece {
                index: index + 1,
                depth,
            },
        )
    }
}

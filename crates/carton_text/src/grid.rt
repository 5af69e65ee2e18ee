ghost use Rattle.std.specs.Prelude.{◌≡◌, ◌≤◌};
ghost use Rattle.carton_text.specs.Grids.{stops_of};

/// The grids of a job: how many stops a right angle has.
#[derive(Clone, Copy)]
pub enum Grid {
    Eight,
    Sixteen,
}

impl Grid {
    /// The number of stops in a right angle.
    pub fn stops(self) -> u8
        ensures value { result ≡ stops_of self }
        ensures few { result ≤ 16 }
    {
        match self {
            Grid::Eight => 8,
            Grid::Sixteen => 16,
        }
    }
}

ghost use Rattle.std.specs.Prelude.{◌≡◌, ◌<◌};
ghost use Rattle.carton_made.specs.Kinds.{kind_of as kind_in, size_of as size_in, name_of};

/// What a made carton is: a base with four flaps, a row of nine panels that is folded up and down in
/// turn, or a row of four that is folded round.
#[derive(Clone, Copy, Debug, PartialEq, Eq)]
pub enum Kind {
    Tray,
    Strip,
    Tube,
}

impl Kind {
    /// The kind's name, in small letters.
    pub fn name(self) -> &'static str
        ensures { result.now ≡ name_of self }
    {
        match self {
            Kind::Tray => "tray",
            Kind::Strip => "strip",
            Kind::Tube => "tube",
        }
    }
}

/// The kind of the carton of number `k`.
pub fn kind_of(k: u32) -> Kind
    ensures { result ≡ kind_in k }
{
    match k % 3 {
        0 => Kind::Tray,
        1 => Kind::Strip,
        _ => Kind::Tube,
    }
}

/// The size of the carton of number `k`, in dieline units: the side of a tray's base, or the width of
/// a panel in a row.
pub fn size_of(k: u32) -> u32
    requires { k < 60 }
    ensures { result ≡ size_in k }
{
    100 + 10 * (k / 3)
}

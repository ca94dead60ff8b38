//! The variables of template URIs.

ghost use Rattle.std.specs.Prelude.{◌≡◌};

/// The number of a tile that is put in a variable's place (OGC 22-025r4, "Template URIs").
#[derive(Clone, Copy, Debug, Drop, PartialEq, Eq)]
pub(crate) enum Variable {
    Level,
    X,
    Y,
    Z,
}

impl Variable {
    ghost use Rattle.tile_uri.specs.Templates as templates;

    /// The number that this variable stands for.
    pub(crate) fn number(self, level: u8, x: u32, y: u32, z: u32) -> u32
        ensures { result ≡ templates.number_of level x y z self }
    {
        match self {
            Variable::Level => u32::from(level),
            Variable::X => x,
            Variable::Y => y,
            Variable::Z => z,
        }
    }
}

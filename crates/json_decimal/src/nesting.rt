//! What nests: lists and objects (RFC 8259, sections 4 and 5).
ghost use Rattle.std.specs.Prelude.{◌≡◌};
ghost use Rattle.json_decimal.specs.Nested.{closing};

/// What has values inside it.
#[derive(Clone, Copy)]
pub enum Nesting {
    List,
    Object,
}

impl Nesting {
    /// The bracket that closes it.
    #[inline(always)]
    pub fn closing(self) -> u8
        ensures { result ≡ closing self }
    {
        match self {
            Nesting::List => b']',
            Nesting::Object => b'}',
        }
    }
}

//! Why a text is refused, and which of the parser's errors count as want of memory.

ghost use Rattle.std.specs.Prelude.{◌≡◌, ◌⊎◌, ◌↔◌, IsTrue};
ghost use Rattle.url.specs.Parser.{IsOutOfRoom};

use thiserror::Error;
use url::ParseError;

/// Why a text is no address, or no template. Of several causes the first in this order is answered.
#[derive(Clone, Copy, Debug, Drop, PartialEq, Eq, Error)]
pub enum UriError {
    /// The URL Standard's parse gives no address, or one that holds a space.
    #[error("not an address")]
    NotAnAddress,
    /// A `{` that doesn't begin a variable of the template.
    #[error("a brace that begins no variable")]
    Placeholder,
    /// The address or the template has more than 4,096 bytes.
    #[error("longer than 4,096 bytes")]
    TooLong,
    /// There is no memory.
    #[error("out of memory")]
    OutOfMemory,
}

/// The cause behind an error of the parser, whose texts of 4 GB count as want of memory.
pub(crate) fn cause_of(error: ParseError) -> UriError
    ensures { (result ≡ UriError.OutOfMemory)
        ⊎ ((result ≡ UriError.NotAnAddress) × (¬ (IsOutOfRoom error))) }
{
    if is_out_of_room(error) {
        UriError::OutOfMemory
    } else {
        UriError::NotAnAddress
    }
}

fn is_out_of_room(error: ParseError) -> bool
    ensures { IsTrue result ↔ IsOutOfRoom error }
{
    matches!(error, ParseError::OutOfMemory | ParseError::Overflow)
}

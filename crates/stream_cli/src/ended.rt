//! How a run ended.

ghost use Rattle.std.specs.Prelude.{◌≡◌};
ghost use Rattle.stream_cli.specs.Causes.{status_of};

use crate::cause::Cause;

/// How a run ended.
#[derive(Clone, Copy, Debug, PartialEq, Eq)]
pub struct Ended {
    /// The exit status, which is that of the cause.
    pub status: u8,
    pub cause: Cause,
}

impl Ended {
    /// The end by a cause, with its status.
    pub fn by(cause: Cause) -> Ended
        ensures cause { result.cause ≡ cause }
        ensures status { result.status ≡ status_of cause }
    {
        Ended {
            status: cause.status(),
            cause,
        }
    }
}

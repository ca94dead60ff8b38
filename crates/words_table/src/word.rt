//! What single words stand for.

ghost use Rattle.std.specs.Prelude.{◌≡◌, ◌≢◌, ◌⊎◌};
ghost use Rattle.words_table.specs.Commands.{Answers, root_of};
ghost use Rattle.session_script.specs.Views as views;

use crate::error::WordsError;
use error_test::View;
use session_script::read_view;
use std::alloc::Global;
use tile_uri::{Address, Base, UriError};

/// What words are resolved below.
const BASE: &str = "http://tiles/";

/// The address that a root word stands for (URL Standard, section 4.4).
pub(crate) fn root_of(alloc: Global, word: &str) -> Result<Address, WordsError>
    ensures { Answers result (root_of word.now) }
{
    let Ok(base) = Base::new(alloc, BASE) else {
        return Err(WordsError::OutOfMemory);
    };
    match base.resolve(alloc, word) {
        Ok(address) => Ok(address),
        Err(error) => Err(cause_of(error)),
    }
}

/// The cause behind the error of an address.
fn cause_of(error: UriError) -> WordsError
    ensures { (result ≡ WordsError.OutOfMemory)
        ⊎ ((result ≡ WordsError.NotACommand) × (error ≢ UriError.OutOfMemory)) }
{
    if error == UriError::OutOfMemory {
        WordsError::OutOfMemory
    } else {
        WordsError::NotACommand
    }
}

/// The view that a word spells. Takes no memory.
pub(crate) fn view_of(word: &str) -> Option<View>
    ensures { result ≡ views.view_of word.now }
{
    read_view(word)
}

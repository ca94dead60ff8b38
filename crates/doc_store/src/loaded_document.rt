//! A document beside its bytes.

use crate::reading::Reading;
use bytes::Bytes;

/// The bytes of a document, and what is read from them.
#[derive(Drop)]
pub(crate) struct LoadedDocument {
    pub(crate) bytes: Bytes,
    pub(crate) reading: Reading,
}

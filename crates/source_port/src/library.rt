//! Files of a library.

use bytes::Bytes;
use lists::List;
use tile_types::Text;

/// A file of a library: its address and its bytes.
#[derive(Debug, Drop)]
pub struct NamedFile {
    pub address: Text,
    pub bytes: Bytes,
}

/// Files, of which the last of an address counts.
pub type FileList = List<NamedFile>;

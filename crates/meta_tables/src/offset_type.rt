//! How offsets of texts are written.

/// A type of offsets (OGC 22-025r4, "Strings", `stringOffsetType`).
#[derive(Clone, Copy, Debug)]
pub enum OffsetType {
    Uint8,
    Uint16,
    Uint32,
    Uint64,
}

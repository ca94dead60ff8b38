//! The parts of a document that a cause may speak of.

/// A part of a document (OGC 22-025r4, "Tileset JSON").
#[derive(Clone, Copy, Debug, PartialEq, Eq)]
pub enum Field {
    /// The top object.
    Top,
    /// `asset`.
    Asset,
    /// `asset.version`.
    Version,
    /// `extensionsRequired`.
    ExtensionsRequired,
    /// `geometricError`, of the top object or of a tile.
    GeometricError,
    /// `root`.
    Root,
    /// A tile itself.
    Tile,
    /// `boundingVolume`.
    BoundingVolume,
    /// `viewerRequestVolume`.
    ViewerRequestVolume,
    /// `refine`.
    Refine,
    /// `transform`.
    Transform,
    /// `content` or `contents`, or an entry of these.
    Content,
    /// The `uri` of a content.
    Uri,
    /// `implicitTiling`.
    ImplicitTiling,
    /// `implicitTiling.subdivisionScheme`.
    Scheme,
    /// `implicitTiling.subtreeLevels`.
    SubtreeLevels,
    /// `implicitTiling.availableLevels`.
    AvailableLevels,
    /// `implicitTiling.subtrees`, or its `uri`.
    Subtrees,
    /// `children`.
    Children,
}

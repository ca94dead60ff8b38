//! The types of whole numbers.

ghost use Rattle.std.specs.Prelude.{◌≡◌};
ghost use Rattle.meta_schema.specs.Components as spec;

/// A type of whole numbers (OGC 22-025r4, "Component type").
#[derive(Clone, Copy, Debug)]
pub enum ComponentType {
    Int8,
    Uint8,
    Int16,
    Uint16,
    Int32,
    Uint32,
    Int64,
    Uint64,
}

impl ComponentType {
    /// How many bytes a value has, which stand little-endian.
    #[inline]
    pub fn byte_count(self) -> u8
        ensures { result ≡ spec.byte_count self }
    {
        match self {
            ComponentType::Int8 | ComponentType::Uint8 => 1,
            ComponentType::Int16 | ComponentType::Uint16 => 2,
            ComponentType::Int32 | ComponentType::Uint32 => 4,
            ComponentType::Int64 | ComponentType::Uint64 => 8,
        }
    }

    /// The least value.
    pub(crate) fn least(self) -> i128
        ensures { result ≡ spec.type_least self }
    {
        match self {
            ComponentType::Int8 => i128::from(i8::MIN),
            ComponentType::Int16 => i128::from(i16::MIN),
            ComponentType::Int32 => i128::from(i32::MIN),
            ComponentType::Int64 => i128::from(i64::MIN),
            _ => 0,
        }
    }

    /// The greatest value.
    pub(crate) fn greatest(self) -> i128
        ensures { result ≡ spec.type_greatest self }
    {
        match self {
            ComponentType::Int8 => i128::from(i8::MAX),
            ComponentType::Uint8 => i128::from(u8::MAX),
            ComponentType::Int16 => i128::from(i16::MAX),
            ComponentType::Uint16 => i128::from(u16::MAX),
            ComponentType::Int32 => i128::from(i32::MAX),
            ComponentType::Uint32 => i128::from(u32::MAX),
            ComponentType::Int64 => i128::from(i64::MAX),
            ComponentType::Uint64 => i128::from(u64::MAX),
        }
    }

    /// The type of this name, if it is one.
    pub(crate) fn named(name: &str) -> Option<ComponentType>
        ensures { result ≡ spec.component_named name.now }
    {
        match name {
            "INT8" => Some(ComponentType::Int8),
            "UINT8" => Some(ComponentType::Uint8),
            "INT16" => Some(ComponentType::Int16),
            "UINT16" => Some(ComponentType::Uint16),
            "INT32" => Some(ComponentType::Int32),
            "UINT32" => Some(ComponentType::Uint32),
            "INT64" => Some(ComponentType::Int64),
            "UINT64" => Some(ComponentType::Uint64),
            _ => None,
        }
    }
}

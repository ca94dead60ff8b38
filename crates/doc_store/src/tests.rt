//! What no clause says of a store: that documents are read, which causes come, how much it holds,
//! and printed texts. Expected values are worked out by hand from the documents' texts.

ghost use Rattle.std.specs.Prelude.{◌≡◌, IfOk};
ghost use Rattle.doc_store.specs.Store.{IsDocumentKind};

mod subtrees;

use super::*;
use avail_bits::{OCTREE_SUBTREE_LEVELS, QUADTREE_SUBTREE_LEVELS};
use bytes::Bytes;
use std::alloc::{AllocError, Global};
use std::process::Abort;
use std::test::Fail;
use tile_types::{Key, Kind, Text};
use tile_uri::{ADDRESS_LIMIT, Address, Base};
use tileset_schema::{Document, DocumentError, Field};

/// Three documents, each with its address and what its root tile's content is: the root, an
/// external tileset below it, and one below that, whose content isn't a tileset.
static NEST: [(&str, &str, &str); 3] = [
    ("http://tiles/t.json", "a/u.json", "http://tiles/a/u.json"),
    ("http://tiles/a/u.json", "v.json", "http://tiles/a/v.json"),
    ("http://tiles/a/v.json", "w.glb", "http://tiles/a/w.glb"),
];

/// What stands before the content of a document of one tile, and behind it.
const FRONT: &str = r#"{"asset":{"version":"1.1"},"geometricError":10,"root":{"geometricError":1,
    "boundingVolume":{"sphere":[0,0,0,5]},"content":{"uri":""#;

const BACK: &str = r#""}}}"#;

/// A document of one tile with this content.
fn document(alloc: Global, content: &str) -> Result<Bytes, AllocError> {
    let text = format!(in alloc; "{FRONT}{content}{BACK}")?;
    Bytes::copy_from_slice(alloc, text.as_bytes())
}

fn address(alloc: Global, text: &str) -> Result<Address, Fail> {
    let base = Base::new(alloc, text)?;
    Ok(base.resolve(alloc, text)?)
}

fn key(alloc: Global, kind: Kind, text: &str) -> Result<Key, AllocError>
    ensures { IfOk result (λ key. key.kind ≡ kind) }
{
    Ok(Key {
        kind,
        address: Text::new(alloc, text)?,
    })
}

/// A store of the nest's root document.
fn nest(rt: &impl Abort, alloc: Global) -> Result<DocStore, Fail> {
    let (root, content, _) = NEST[0];
    let bytes = document(alloc, content)?;
    assert!(rt; bytes.len() <= DOCUMENT_LIMIT as usize);
    Ok(DocStore::open(alloc, &address(alloc, root)?, bytes)?)
}

/// The kind is a document's.
fn check_kind(rt: &impl Abort, kind: Kind)
    ensures { IsDocumentKind kind }
{
    match kind {
        Kind::Content => assert!(rt; false),
        Kind::Tileset => {}
        Kind::Subtree { octree, levels, .. } => {
            let most = if octree {
                OCTREE_SUBTREE_LEVELS
            } else {
                QUADTREE_SUBTREE_LEVELS
            };
            assert!(rt; 1 <= levels && levels <= most);
        }
    }
}

/// Adds a document of which nothing is known.
fn add(
    rt: &impl Abort,
    alloc: Global,
    store: &mut DocStore,
    kind: Kind,
    text: &str,
    bytes: Bytes,
) -> Result<Added, Fail> {
    let key = key(alloc, kind, text)?;
    check_kind(rt, kind);
    assert!(rt; bytes.len() <= DOCUMENT_LIMIT as usize);
    assert!(rt; store.state_of(&key) == DocState::NotLoaded);
    Ok(store.add(alloc, key, bytes)?)
}

/// Adds a document of which nothing is known, and for which there is room.
fn keep(
    rt: &impl Abort,
    alloc: Global,
    store: &mut DocStore,
    kind: Kind,
    text: &str,
    bytes: Bytes,
) -> Result<(), Fail> {
    assert_eq!(rt; add(rt, alloc, store, kind, text, bytes)?, Added::Kept);
    Ok(())
}

/// The first content of the root tile.
fn content_of(document: Option<&Document>) -> Option<&str> {
    let root = document?.tiles().first()?;
    if root.content_count() == 0 {
        return None;
    }
    Some(root.content(0).as_str())
}

#[test]
fn a_nest_of_documents(rt: HostRuntime) -> Result<(), Fail> {
    let alloc = rt.alloc();
    let mut store = nest(&rt, alloc)?;
    for (text, content, _) in NEST.iter().skip(1) {
        let bytes = document(alloc, content)?;
        keep(&rt, alloc, &mut store, Kind::Tileset, text, bytes)?;
    }
    for (number, (text, _, below)) in (0..3).zip(NEST.iter()) {
        let key = key(alloc, Kind::Tileset, text)?;
        assert_eq!(rt; store.state_of(&key), DocState::Read);
        assert_eq!(rt; store.number_of(&key), Some(number));
        assert_eq!(rt; content_of(store.tileset(&key)), Some(*below));
        assert_eq!(rt; content_of(store.document(number)), Some(*below));
        assert!(rt; store.document_at(number) == Some(&key));
    }
    Ok(())
}

/// Addresses of tilesets that are added behind the root document.
static BEHIND: [&str; 3] = ["http://tiles/a/v.json", "a b", "http://tiles/a.json"];

/// The root document's address, also behind further documents.
#[test]
fn the_root_document(rt: HostRuntime) -> Result<(), Fail> {
    let alloc = rt.alloc();
    let mut store = nest(&rt, alloc)?;
    assert_eq!(rt; store.root().as_str(), "http://tiles/t.json");
    for text in BEHIND.iter() {
        let bytes = document(alloc, "w.glb")?;
        keep(&rt, alloc, &mut store, Kind::Tileset, text, bytes)?;
        assert_eq!(rt; store.root().as_str(), "http://tiles/t.json");
    }
    Ok(())
}

/// Root documents that aren't read, and why.
static CAUSES: [(&str, DocumentError); 3] = [
    ("", DocumentError::NotJson),
    (
        "[]",
        DocumentError::Shape {
            field: Field::Top,
            tile: 0,
        },
    ),
    (r#"{"asset":{"version":"2.0"}}"#, DocumentError::Version),
];

#[test]
fn a_root_that_is_refused(rt: HostRuntime) -> Result<(), Fail> {
    let alloc = rt.alloc();
    let root = address(alloc, "http://tiles/t.json")?;
    for (text, cause) in CAUSES.iter() {
        let bytes = Bytes::copy_from_slice(alloc, text.as_bytes())?;
        assert!(rt; bytes.len() <= DOCUMENT_LIMIT as usize);
        assert!(rt; DocStore::open(alloc, &root, bytes).err() == Some(*cause));
    }
    Ok(())
}

/// Addresses at which there is no tileset, with the contents of what is loaded there.
static REFUSED: [(&str, Option<&str>); 3] = [
    ("http://tiles/r.json", None),
    ("a b", Some("c.glb")),
    ("r.json", Some("c.glb")),
];

/// A document of this content, or bytes that are no document.
fn refused_bytes(alloc: Global, content: &Option<&str>) -> Result<Bytes, AllocError> {
    match content {
        Some(content) => document(alloc, content),
        None => Bytes::copy_from_slice(alloc, b"{"),
    }
}

#[test]
fn refused_tilesets(rt: HostRuntime) -> Result<(), Fail> {
    let alloc = rt.alloc();
    let mut store = nest(&rt, alloc)?;
    for (text, content) in REFUSED.iter() {
        let bytes = refused_bytes(alloc, content)?;
        keep(&rt, alloc, &mut store, Kind::Tileset, text, bytes)?;
        let key = key(alloc, Kind::Tileset, text)?;
        assert_eq!(rt; store.state_of(&key), DocState::Refused);
        assert!(rt; store.tileset(&key).is_none());
    }
    Ok(())
}

#[test]
fn an_absent_tileset(rt: HostRuntime) -> Result<(), Fail> {
    let alloc = rt.alloc();
    let mut store = nest(&rt, alloc)?;
    store.reserve(1)?;
    let key = key(alloc, Kind::Tileset, "http://tiles/x.json")?;
    assert_eq!(rt; store.state_of(&key), DocState::NotLoaded);
    store.mark_absent(key.copy(alloc)?);
    assert_eq!(rt; store.state_of(&key), DocState::Absent);
    assert_eq!(rt; store.number_of(&key), None);
    Ok(())
}

/// A content isn't loaded where there is a tileset at its address.
#[test]
fn a_content_at_an_address_of_a_tileset(rt: HostRuntime) -> Result<(), Fail> {
    let alloc = rt.alloc();
    let store = nest(&rt, alloc)?;
    let content = Key {
        kind: Kind::Content,
        address: Text::new(alloc, NEST[0].0)?,
    };
    assert_eq!(rt; store.state_of(&content), DocState::NotLoaded);
    Ok(())
}

#[test]
fn a_text_too_long_for_an_address(rt: HostRuntime) -> Result<(), Fail> {
    let alloc = rt.alloc();
    let mut store = nest(&rt, alloc)?;
    let mut text = String::from_str(alloc, "http://tiles/")?;
    for _ in 0..ADDRESS_LIMIT {
        text.push('a')?;
    }
    let bytes = document(alloc, "c.glb")?;
    keep(&rt, alloc, &mut store, Kind::Tileset, text.as_str(), bytes)?;
    let key = key(alloc, Kind::Tileset, text.as_str())?;
    assert_eq!(rt; store.state_of(&key), DocState::Refused);
    Ok(())
}

/// Bytes that no document has, so many that sixteen times as many fill a store.
fn large(alloc: Global) -> Result<Bytes, AllocError> {
    let bytes = vec![in alloc; b'x'; DOCUMENT_LIMIT as usize]?;
    Ok(Bytes::from_vec(bytes)?)
}

/// Adds fifteen documents of the most bytes that a document has.
fn add_fifteen(
    rt: &impl Abort,
    alloc: Global,
    store: &mut DocStore,
    large: &Bytes,
) -> Result<(), Fail> {
    for number in 0..15 {
        let text = format!(in alloc; "http://tiles/{number}.json")?;
        keep(
            rt,
            alloc,
            store,
            Kind::Tileset,
            text.as_str(),
            large.clone()?,
        )?;
    }
    Ok(())
}

/// Adds a tileset of the first bytes of these.
fn add_first(
    rt: &impl Abort,
    alloc: Global,
    store: &mut DocStore,
    text: &str,
    bytes: &Bytes,
    len: usize,
) -> Result<Added, Fail> {
    assert!(rt; len <= bytes.len());
    add(rt, alloc, store, Kind::Tileset, text, bytes.slice(..len)?)
}

/// What is added behind the nest's root document, which has 147 bytes, and fifteen documents of
/// 16,777,216 bytes: how many bytes, and what becomes of them. 16,777,069 are left.
static LAST: [(&str, usize, Added); 4] = [
    ("http://tiles/15.json", 16_777_070, Added::Full),
    ("http://tiles/15.json", 16_777_069, Added::Kept),
    ("http://tiles/16.json", 1, Added::Full),
    ("http://tiles/16.json", 0, Added::Kept),
];

#[test]
fn full_by_bytes(rt: HostRuntime) -> Result<(), Fail> {
    let alloc = rt.alloc();
    let mut store = nest(&rt, alloc)?;
    let large = large(alloc)?;
    add_fifteen(&rt, alloc, &mut store, &large)?;
    for (text, len, added) in LAST.iter() {
        let answer = add_first(&rt, alloc, &mut store, text, &large, *len)?;
        assert_eq!(rt; answer, *added);
    }
    Ok(())
}

#[test]
fn full_by_documents(rt: HostRuntime) -> Result<(), Fail> {
    let alloc = rt.alloc();
    let mut store = nest(&rt, alloc)?;
    let empty = Bytes::new();
    for number in 1..STORE_DOCUMENTS {
        let text = format!(in alloc; "{number}")?;
        keep(
            &rt,
            alloc,
            &mut store,
            Kind::Tileset,
            text.as_str(),
            empty.clone()?,
        )?;
    }
    assert_eq!(rt;
        add(&rt, alloc, &mut store, Kind::Tileset, "0", empty)?,
        Added::Full
    );
    let key = key(alloc, Kind::Tileset, "65534")?;
    assert_eq!(rt; store.number_of(&key), Some(65534));
    Ok(())
}

#[test]
fn printed_texts(rt: HostRuntime) -> Result<(), Fail> {
    let alloc = rt.alloc();
    let text = format!(in alloc;
        "{:?} {:?} {:?}",
        DocState::NotLoaded,
        DocState::Read,
        Added::Full
    )?;
    assert_eq!(rt; text.as_str(), "NotLoaded Read Full");
    Ok(())
}

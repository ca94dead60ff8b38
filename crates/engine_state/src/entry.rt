//! What happens to an engine.

use crate::entry_view::EntryView;
use crate::gone::Gone;
use bytes::Bytes;
use frame_pins::Why;
use lists::List;
use tile_types::{Key, Order, Text, TextList};

/// What happened to an engine. All that it ever does is told by the list of its entries, its
/// journal: where an entry is allowed and what it changes is defined by `allowed` and `after`.
///
/// `pass` is the number of the pass that brought the entry about.
#[derive(Debug, Drop)]
pub enum Entry {
    /// The engine was opened with the root document, its address and its bytes, a budget for the
    /// bytes of the resident contents, and the order in which wants are loaded.
    Opened {
        root: Text,
        bytes: Bytes,
        budget: u64,
        order: Order,
    },
    /// A viewer looked, and has the frame of this number: the first has 1. `settled` where it asked
    /// to look once nothing was left to load.
    Looked {
        pass: u32,
        id: u64,
        viewer: u8,
        view: EntryView,
        settled: bool,
    },
    /// A viewer looked, and has no frame.
    LookRefused {
        pass: u32,
        viewer: u8,
        view: EntryView,
        settled: bool,
        why: Why,
    },
    /// The frame of this number was given back.
    Returned {
        pass: u32,
        id: u64,
    },
    /// The best key was taken, and flies from now on: its bytes are being fetched.
    Taken {
        pass: u32,
        key: Key,
    },
    /// The bytes of a document came.
    DocumentArrived {
        pass: u32,
        key: Key,
        bytes: Bytes,
    },
    /// A content came: its address, its length in bytes, its SHA-256 digest (FIPS 180-4), and the
    /// addresses of the residents that went to make room for it.
    ContentArrived {
        pass: u32,
        address: Text,
        length: u64,
        digest: [u8; 32],
        evicted: TextList,
    },
    /// A content of this length in bytes came for which there is no room. It isn't taken again
    /// before what is in use may have changed.
    Squeezed {
        pass: u32,
        address: Text,
        length: u64,
    },
    /// Nothing comes of the key, for good.
    Absent {
        pass: u32,
        key: Key,
        why: Gone,
    },
    /// The source failed to answer. `count` is how many faults it has counted.
    Failed {
        pass: u32,
        key: Key,
        count: u64,
    },
    /// There was no memory for what came.
    Starved {
        pass: u32,
        key: Key,
    },
    /// What failed may be tried anew.
    Retried {
        pass: u32,
    },
    /// The engine was closed: now frames are given back and fetches end, and nothing else.
    Closed {
        pass: u32,
    },
}

/// A journal: entries, the first first.
pub type JournalList = List<Entry>;

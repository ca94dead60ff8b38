//! The course of a session. Expected values are worked out by hand from the definitions.

ghost use Rattle.std.specs.Prelude.{None};

use crate::{Session, SessionError};
use bytes::Bytes;
use doc_store::DOCUMENT_LIMIT;
use engine_state::{Entry, Gone};
use error_test::View;
use fixed_geometry::Point;
use session_script::ScriptLine;
use source_port::{FetchError, LibraryName, Source};
use std::alloc::{AllocError, Global};
use std::test::Fail;
use tile_types::{Order, TextList};
use tile_uri::Base;

/// A tile with one content.
const ONE: &str = r#"{"asset":{"version":"1.1"},"geometricError":9,"root":
    {"boundingVolume":{"sphere":[0,0,0,5]},"geometricError":0,"content":{"uri":"a.glb"}}}"#;

/// A source that has nothing. Its library isn't told.
#[derive(Drop)]
struct EmptySource {
    fetched: u64,
}

impl LibraryName for EmptySource {
    ghost library = { λ _. None };
}

impl Source for EmptySource {
    ghost faults = { λ _. 0 };

    ghost fetches = { λ s. s.fetched };

    fn fetch(
        &mut self,
        _alloc: Global,
        _address: &str,
        _limit: u32,
        _into: &mut Vec<u8>,
    ) -> Result<(), FetchError> {
        self.fetched = self.fetched.saturating_add(1);
        Err(FetchError::Missing)
    }

    fn fork(&self, _alloc: Global) -> Result<EmptySource, AllocError> {
        Ok(EmptySource { fetched: 0 })
    }

    fn faults(&self) -> u64 {
        0
    }
}

/// From above the tile, so that all of it is seen.
fn view() -> Option<View> {
    let eye = Point {
        x: 0,
        y: 0,
        z: 100_000,
    };
    View::new(eye, 1080, 1, 2, 256, &[]).ok()
}

/// Whether these texts are answered.
fn are(answer: &Result<TextList, SessionError>, expected: &[&str]) -> bool {
    match answer {
        Ok(texts) => {
            texts.len() == expected.len()
                && texts
                    .as_slice()
                    .iter()
                    .zip(expected)
                    .all(|(text, expected)| text.as_str() == *expected)
        }
        Err(_) => false,
    }
}

#[test]
fn a_session_without_contents(rt: HostRuntime) -> Result<(), Fail> {
    let alloc = rt.alloc();
    let view = view().expect(&rt, "a view");
    let base = Base::new(alloc, "http://tiles/")?;
    let address = base.resolve(alloc, "t.json")?;
    let bytes = Bytes::copy_from_slice(alloc, ONE.as_bytes())?;
    assert!(rt; bytes.len() <= DOCUMENT_LIMIT as usize);
    let mut source = EmptySource { fetched: 0 };
    let name = EmptySource { fetched: 0 };
    let mut session = Session::open(alloc, name, &address, bytes, 100, Order::Near)?;

    let look = session.obey(alloc, &mut source, &ScriptLine::Look { viewer: 0, view });
    assert!(rt; are(&look, &["frame 1 0 0\n"]));

    // The content is fetched, once, and is absent.
    let settle = session.obey(alloc, &mut source, &ScriptLine::Settle { viewer: 0 });
    assert!(rt; are(&settle, &["frame 2 0 0\n"]));
    assert_eq!(rt; source.fetched, 1);

    // Nothing is shown for a viewer that never looked.
    let other = session.obey(alloc, &mut source, &ScriptLine::Settle { viewer: 1 });
    assert!(rt; are(&other, &[]));
    let back = session.obey(alloc, &mut source, &ScriptLine::Return { viewer: 0 });
    assert!(rt; are(&back, &[]));
    let retry = session.obey(alloc, &mut source, &ScriptLine::Retry);
    assert!(rt; are(&retry, &[]));

    // The second frame goes back at the end.
    let journal = session.end();
    assert_eq!(rt; journal.len(), 9);
    assert!(rt;
        matches!(
            &journal[3],
            Entry::Absent {
                why: Gone::Missing,
                ..
            }
        )
    );
    assert!(rt; matches!(&journal[5], Entry::Returned { id: 1, .. }));
    assert!(rt; matches!(&journal[7], Entry::Returned { id: 2, .. }));
    assert!(rt; matches!(&journal[8], Entry::Closed { .. }));
    Ok(())
}

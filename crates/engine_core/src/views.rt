//! The latest views.

ghost use Rattle.std.specs.Prelude.{◌≡◌, ◌≤◌, ◌+◌, if◌then◌else◌, length, nat_lt, IfOk};
ghost use Rattle.std.specs.List.{prefix_len};
ghost use Rattle.engine_state.specs.Views.{with_view};
ghost use Rattle.engine_core.specs.Looking.{is_viewer_at, latest_in};

use engine_state::Seen;
use error_test::View;
use std::alloc::{AllocError, Global};

/// The views with this one in the place of the viewer's earlier one.
pub(crate) fn with_latest(
    alloc: Global,
    views: &[Seen],
    viewer: u8,
    view: &View,
) -> Result<Vec<Seen>, AllocError>
    ensures { IfOk result (λ latest. latest.items ≡ with_view viewer view.now views.now) }
{
    let at = count_earlier(views, viewer);
    let end = behind(views, viewer, at);
    let mut latest = Vec::with_capacity(alloc, views.len() + 1)?;
    latest.extend_from_slice(&views[..at])?;
    latest.push(Seen {
        viewer,
        view: *view,
    })?;
    latest.extend_from_slice(&views[end..])?;
    Ok(latest)
}

/// How many views are of viewers before this one.
fn count_earlier(views: &[Seen], viewer: u8) -> usize
    ensures count { result ≡ prefix_len (λ seen. nat_lt seen.viewer viewer) views.now }
    ensures within { result ≤ length views.now }
{
    views.iter().take_while(|seen| seen.viewer < viewer).count()
}

/// Where the views behind that of a viewer begin, which stands at this place, or would.
fn behind(views: &[Seen], viewer: u8, at: usize) -> usize
    requires { at ≤ length views.now }
    ensures end { result ≡ at + (if is_viewer_at views.now viewer at then 1 else 0) }
    ensures within { result ≤ length views.now }
{
    if at < views.len() && views[at].viewer == viewer {
        at + 1
    } else {
        at
    }
}

/// The latest view of a viewer.
pub(crate) fn latest_view(views: &[Seen], viewer: u8) -> Option<View>
    ensures { result ≡ latest_in views.now viewer }
{
    for seen in views {
        if seen.viewer == viewer {
            return Some(seen.view);
        }
    }
    None
}

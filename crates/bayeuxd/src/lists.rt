//! The lists of a hub's sessions and of their channels.
use bx_hub::{Hub, HubKind, SessionSurvey};
use bx_metrics::{ChannelLines, SessionLines};
use std::alloc::{AllocError, Global};
use std::sync::Wait;

/// Returns the list of the hub's sessions, as [`SessionLines`] formats it.
///
/// `now`: milliseconds since the server started. A session that is opened or closed meanwhile can
/// hide another one, or show it twice.
///
/// # Blocking
///
/// Locks one shard at a time, while one session is copied.
pub fn sessions_text<L: HubKind, H: Wait + Drop, R: Wait>(
    rt: &R,
    alloc: Global,
    hub: &Hub<L, H>,
    shards: usize,
    now: u64,
) -> Result<Vec<u8>, AllocError> {
    let mut lines = SessionLines::new(alloc);
    visit_sessions(
        rt,
        alloc,
        hub,
        shards,
        |session| lines.push(alloc, session, now),
    )?;
    lines.into_text()
}

/// Returns the list of the patterns of the hub's sessions, as [`ChannelLines`] formats it.
///
/// A session that is opened or closed meanwhile can hide another one, or count twice.
///
/// # Blocking
///
/// Locks one shard at a time, while one session is copied.
pub fn channels_text<L: HubKind, H: Wait + Drop, R: Wait>(
    rt: &R,
    alloc: Global,
    hub: &Hub<L, H>,
    shards: usize,
) -> Result<Vec<u8>, AllocError> {
    let mut lines = ChannelLines::new(alloc);
    visit_sessions(rt, alloc, hub, shards, |session| lines.add(alloc, session))?;
    lines.text(alloc)
}

// Calls `add` with each session of the hub, until it returns `false`: the first one of each shard,
// then the second ones, and so on, so that a long shard does not hide the others.
fn visit_sessions<L, H, R, F>(
    rt: &R,
    alloc: Global,
    hub: &Hub<L, H>,
    shards: usize,
    mut add: F,
) -> Result<(), AllocError>
where
    L: HubKind,
    H: Wait + Drop,
    R: Wait,
    F: FnMut(&SessionSurvey) -> Result<bool, AllocError>,
    requires { (state : F) (session : _) → F.pre state session }
{
    for index in 0..usize::MAX {
        let mut has_more = false;
        for shard in 0..shards {
            let Some((session, _)) = hub.survey_session(rt, alloc, shard, index)? else {
                continue;
            };
            has_more = true;
            if !add(&session)? {
                return Ok(());
            }
        }
        if !has_more {
            break;
        }
    }
    Ok(())
}

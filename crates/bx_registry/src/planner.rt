ghost use Rattle.std.specs.Prelude.{◌≡◌, ◌+◌, ◌<◌, ◌≤◌, ◌&&◌, ◌==◌, max, Some, List, length, IfOk};
ghost use Rattle.bx_advice.specs.Limits.{greatest_length, greatest_moment};
ghost use Rattle.bx_message.specs.MessageKinds.{is_handshake};
ghost use Rattle.bx_entry.specs.Listing.{request};
ghost use Rattle.bx_entry.specs.declared.entry.Entry.{Entry};
ghost use Rattle.bx_entry.specs.Registry.{verdict};
ghost use Rattle.bx_registry.specs.Setups.{setup_of};
ghost use Rattle.bx_registry.specs.Rolls.{Roll, after, found, state_of};
ghost use Rattle.bx_registry.specs.SessionOverlays.{members_of};
ghost use Rattle.bx_registry.specs.Postings.{posted_of};
ghost use Rattle.bx_registry.specs.Plans.{entries_in, slots_in};
ghost use Rattle.bx_registry.specs.Planners.{IsFoundAt, IsPlannedBy};

use crate::judge::{MessageOutcome, judge};
use crate::posted::{Posted, is_handshake};
use crate::session_overlay::SessionOverlay;
use crate::setup::Setup;
use bx_entry::{Entry, Placing, Senders, Slot};
use bx_message::{Message, MessageKind, Sequence};
use std::alloc::{AllocError, AllocFailed, Global};

/// The entries and slots of a request's messages, and the clock after them.
#[derive(Drop)]
pub(crate) struct Planning {
    pub(crate) entries: Sequence<Entry>,
    pub(crate) slots: Sequence<Slot>,
    /// In milliseconds since the server started.
    pub(crate) clock: u64,
}

/// A request's moment and nonce, and the list's length and clock before the request.
#[derive(Clone, Copy)]
pub(crate) struct Start {
    pub(crate) moment: u64,
    pub(crate) nonce: u128,
    /// The place of the request's first entry.
    pub(crate) place: u64,
    /// The greatest moment so far, in milliseconds since the server started.
    pub(crate) clock: u64,
}

/// Judges the messages of a request in order, and appends their edits to `overlay`.
///
/// On error, `overlay` may have some of the edits.
pub(crate) fn plan_all<P: Placing>(
    alloc: Global,
    setup: &Setup<'_, P>,
    overlay: &mut SessionOverlay<'_>,
    start: Start,
    messages: &[Message],
) -> Result<Planning, AllocError>
    requires clock { start.clock ≤ greatest_moment }
    requires moment { start.moment ≤ greatest_moment }
    requires room { start.place + length messages.now ≤ greatest_length }
    requires limit { (members_of overlay.old).limit ≡ setup.now.config.now.limits.sessions }
    requires opened { (members_of overlay.old).opened ≤ start.place }
    ensures base { overlay.new.base ≡ overlay.old.base }
    ensures planned { IfOk result (λ p. IsPlannedBy (setup_of P.place_of setup.now) (members_of overlay.old) (members_of overlay.new)
        start.clock start.place (request start.moment start.nonce messages.now) p.entries p.slots p.clock) }
{
    let mut now = start.clock;
    let mut place = start.place;
    let mut seen = false;
    let mut entries = Sequence::new(alloc);
    let mut slots = Sequence::new(alloc);
    let sole = messages.len() == 1;
    let mut left = messages.len();
    let mut senders = Senders::NoneYet;
    for message in messages {
        left -= 1;
        now = now.max(start.moment);
        let posted = posted_at(start, message, sole, left == 0, seen);
        let (entry, slot, behind) = plan_next(alloc, setup, overlay, senders, now, place, posted)?;
        entries.push(entry)?;
        slots.push(slot)?;
        senders = behind;
        seen |= is_handshake(posted.message_kind);
        place += 1;
    }
    Ok(Planning {
        entries,
        slots,
        clock: now,
    })
}

// Pairs `message` with its request's data. `seen`: whether an earlier message is a handshake.
fn posted_at(start: Start, message: &Message, sole: bool, last: bool, seen: bool) -> Posted<'_>
    ensures { posted_of result ≡ record {
      message = message.now;
      moment = start.moment;
      nonce = start.nonce;
      sole = sole;
      last = last;
      second = seen && is_handshake message.now;
    } }
{
    let message_kind = MessageKind::of(message.channel.as_str());
    Posted {
        message,
        message_kind,
        moment: start.moment,
        nonce: start.nonce,
        sole,
        last,
        second: seen & is_handshake(message_kind),
    }
}

// Judges the message at `place`, and returns its entry, its slot and the senders after it.
//
// Appends its edit, if any, to `overlay`, unless memory runs out.
fn plan_next<P: Placing>(
    alloc: Global,
    setup: &Setup<'_, P>,
    overlay: &mut SessionOverlay<'_>,
    senders: Senders,
    clock: u64,
    place: u64,
    posted: Posted<'_>,
) -> Result<(Entry, Slot, Senders), AllocError>
    requires clock { clock ≤ greatest_moment }
    requires limit { (members_of overlay.old).limit ≡ setup.now.config.now.limits.sessions }
    requires opened { (members_of overlay.old).opened ≤ greatest_length }
    ensures base { overlay.new.base ≡ overlay.old.base }
    ensures found { IfOk result (λ r. IsFoundAt (setup_of P.place_of setup.now) place clock (members_of overlay.old)
        (verdict setup.now.config.now (state_of (members_of overlay.old) senders) clock (posted_of posted.entry)) (members_of overlay.new) r.2 r.0 r.1) }
{
    let MessageOutcome {
        edit,
        kind,
        rides,
        slot,
        senders,
    } = judge(alloc, setup, overlay, senders, clock, place, posted)?;
    if let Some(edit) = edit {
        overlay.push(edit)?;
    }
    let entry = Entry {
        place,
        moment: clock,
        kind,
        rides,
    };
    Ok((entry, slot, senders))
}

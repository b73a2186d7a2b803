ghost use Rattle.std.specs.Prelude.{◌≡◌, ◌+◌, ◌<◌, ◌≤◌, ◌^◌, ◌∷◌, [], ℕ, Some, None, List, false, length, min, unwrap_or, map, filter, not, if◌then◌else◌, is_some, IfOk, Option, option_map};
ghost use Rattle.std.specs.Option.{option_copied};
ghost use Rattle.bx_names.specs.Faults.{name_fault, pattern_fault};
ghost use Rattle.bx_names.specs.Globs.{Glob, glob_of};
ghost use Rattle.bx_names.specs.Segments.{segments};
ghost use Rattle.bx_advice.specs.declared.advice.Outcome.TheVariants.{Failed};
ghost use Rattle.bx_advice.specs.declared.advice.Outcome.TheVariants as advice;
ghost use Rattle.bx_advice.specs.Limits.{greatest_moment};
ghost use Rattle.bx_message.specs.declared.reply.AckReply.TheVariants as replies;
ghost use Rattle.bx_message.specs.declared.message_kind.MessageKind.TheVariants as message_kinds;
ghost use Rattle.bx_message.specs.Replies.{reply_to};
ghost use Rattle.bx_entry.specs.declared.entry.EntryKind.TheVariants as entries;
ghost use Rattle.bx_entry.specs.declared.entry.Slot.TheVariants as slots;
ghost use Rattle.bx_entry.specs.Registry.{acked_by, client_id, due_of, event_of, newcomer, PlaceSlot, hold_of, is_ack, is_rider, joined, kind_for, may_ride, patterns_of, rider_by, rider_for, senders_after, sessionless_kind, slot_for, verdict};
ghost use Rattle.bx_entry.specs.declared.senders.Senders.TheVariants.{Mixed};
ghost use Rattle.bx_roster.specs.declared.edit.Edit.TheVariants as edits;
ghost use Rattle.bx_registry.specs.Postings.{posted_of};
ghost use Rattle.bx_registry.specs.Setups.{setup_of};
ghost use Rattle.bx_registry.specs.Rolls.{state_of};
ghost use Rattle.bx_entry.specs.Listing as messages;
ghost use Rattle.bx_registry.specs.SessionOverlays.{members_of, named};
ghost use Rattle.bx_registry.specs.Slots.{given_by};
ghost use Rattle.bx_registry.specs.MessageOutcomes.{AreReadable, IsRidden, IsVerdict, edit_for, has_fault};

use crate::id::client_id;
use crate::posted::{Posted, is_handshake};
use crate::refusal::refusal;
use crate::session_overlay::{Sender, SessionOverlay};
use crate::setup::Setup;
use bx_advice::{Config, Error, Outcome};
use bx_entry::{EntryKind, Placing, Rider, Senders, Slot};
use bx_message::{
    AckMember, AckReply, Event, Message, MessageKind, RawJson, Reply, Sequence, SharedEvent, Text,
    share_json,
};
use bx_names::{ChannelName, NameError, Pattern, is_service};
use bx_roster::{Edit, LiveSession};
use std::alloc::{AllocError, AllocFailed, Global};

/// The result of judging a message.
#[derive(Drop)]
pub(crate) struct MessageOutcome {
    pub(crate) edit: Option<Edit>,
    pub(crate) kind: EntryKind,
    /// The message with its reply, if it is a rider.
    pub(crate) rides: Option<Rider>,
    /// How the message is answered: by a reply at once, or later under a ticket.
    pub(crate) slot: Slot,
    /// Who sent the messages so far; no one after the request's last message.
    pub(crate) senders: Senders,
}

/// Judges the message at `place`, given the sessions after the request's earlier messages.
///
/// `senders`: who sent those. `moment`: the clock, in milliseconds since the server started.
pub(crate) fn judge<P: Placing>(
    alloc: Global,
    setup: &Setup<'_, P>,
    overlay: &SessionOverlay<'_>,
    senders: Senders,
    moment: u64,
    place: u64,
    posted: Posted<'_>,
) -> Result<MessageOutcome, AllocError>
    requires moment { moment ≤ greatest_moment }
    requires limit { (members_of overlay.now).limit ≡ setup.now.config.now.limits.sessions }
    requires number { (members_of overlay.now).opened + 1 < 2 ^ 64 }
    ensures { IfOk result (λ j. IsVerdict (setup_of P.place_of setup.now) (members_of overlay.now) place
        (verdict setup.now.config.now (state_of (members_of overlay.now) senders) moment (posted_of posted.entry)) j) }
{
    let config = setup.config;
    let sender = overlay.named_by(posted.message_kind, posted.message);
    let (live, opened) = overlay.counts();
    match refusal(config, live, sender.is_some(), posted) {
        Some(error) => refuse(config, posted, &sender, error),
        None => match &sender {
            None if is_handshake(posted.message_kind) => open(
                alloc,
                config,
                moment,
                opened + 1,
                posted,
            ),
            None => accept_sessionless(alloc, config, posted),
            Some(sender) => serve(alloc, setup, senders, moment, place, posted, sender),
        },
    }
}

// Rejects a message with `error`. The request can then have no rider.
fn refuse(
    config: &Config,
    posted: Posted<'_>,
    sender: &Option<Sender<'_>>,
    error: Error,
) -> Result<MessageOutcome, AllocError>
    ensures edit { IfOk result (λ j. j.edit ≡ None) }
    ensures kind { IfOk result (λ j. (j.kind ≡ entries.Refused) × (j.rides ≡ None)) }
    ensures senders { IfOk result (λ j. j.senders ≡ senders_after (posted_of posted.entry) Mixed) }
    ensures slot { IfOk result (λ j. j.slot ≡ slots.Ready (reply_to config.now posted.entry.message_kind
        posted.entry.message.now (option_map (λ s. s.client.now) sender.now) (Failed error) replies.NoAck)) }
{
    let client = match sender {
        Some(sender) => Some(sender.client),
        None => None,
    };
    let reply = Reply::to_message(
        config,
        posted.message_kind,
        posted.message,
        client,
        Outcome::Failed(error),
        AckReply::NoAck,
    )?;
    Ok(MessageOutcome {
        edit: None,
        kind: EntryKind::Refused,
        rides: None,
        slot: Slot::Ready(reply),
        senders: senders_after(posted, Senders::Mixed),
    })
}

// Accepts a publish without a session. The request can then have no rider.
fn accept_sessionless(
    alloc: Global,
    config: &Config,
    posted: Posted<'_>,
) -> Result<MessageOutcome, AllocError>
    requires { AreReadable posted.message_kind posted.message.now }
    ensures edit { IfOk result (λ j. j.edit ≡ None) }
    ensures kind { IfOk result (λ j.
        (j.kind ≡ sessionless_kind posted.entry.message_kind posted.entry.message.now) × (j.rides ≡ None)) }
    ensures senders { IfOk result (λ j. j.senders ≡ senders_after (posted_of posted.entry) Mixed) }
    ensures slot { IfOk result (λ j. j.slot ≡ slots.Ready (reply_to config.now posted.entry.message_kind
        posted.entry.message.now None advice.Done replies.NoAck)) }
{
    let edit = None;
    let kind = sessionless_kind(alloc, posted.message_kind, posted.message)?;
    let reply = Reply::to_message(
        config,
        posted.message_kind,
        posted.message,
        None,
        Outcome::Done,
        AckReply::NoAck,
    )?;
    Ok(MessageOutcome {
        edit,
        kind,
        rides: None,
        slot: Slot::Ready(reply),
        senders: senders_after(posted, Senders::Mixed),
    })
}

// Returns the kind of entry for an accepted message without a session.
//
// Only a publish occurs here.
fn sessionless_kind(
    alloc: Global,
    message_kind: MessageKind,
    message: &Message,
) -> Result<EntryKind, AllocError>
    requires { AreReadable message_kind message.now }
    ensures { IfOk result (λ kind. kind ≡ sessionless_kind message_kind message.now) }
{
    Ok(match message_kind {
        MessageKind::Publish => EntryKind::Publish(event_of(alloc, message)?),
        _ => EntryKind::Refused,
    })
}

// Accepts a message of a live session, and sets the session's due moment.
//
// A disconnect closes the session instead.
fn serve<P: Placing>(
    alloc: Global,
    setup: &Setup<'_, P>,
    senders: Senders,
    moment: u64,
    place: u64,
    posted: Posted<'_>,
    sender: &Sender<'_>,
) -> Result<MessageOutcome, AllocError>
    requires readable { AreReadable posted.message_kind posted.message.now }
    requires moment { moment ≤ greatest_moment }
    ensures edit { IfOk result (λ j. j.edit ≡ Some (edit_for posted.entry.message_kind sender.now.number
        (due_of setup.now.config.now moment (hold_of setup.now.config.now (posted_of posted.entry))))) }
    ensures kind { IfOk result (λ j. j.kind
        ≡ kind_for posted.entry.message_kind (posted_of posted.entry) (named sender.now) (hold_of setup.now.config.now (posted_of posted.entry))) }
    ensures senders { IfOk result (λ j.
        j.senders ≡ senders_after (posted_of posted.entry) (joined senders sender.now.number)) }
    ensures slot { IfOk result (λ j. IsRidden (setup_of P.place_of setup.now) place
        (rider_by setup.now.config.now senders posted.entry.message_kind (posted_of posted.entry) (named sender.now))
        (slot_for setup.now.config.now posted.entry.message_kind (posted_of posted.entry) (named sender.now)) j.rides j.slot) }
{
    let config = setup.config;
    let message_kind = posted.message_kind;
    let hold = hold_of(config, posted);
    let due = due_after(config, moment, hold);
    let kind = kind_for(alloc, message_kind, posted.message, sender, hold)?;
    let slot = slot_for(setup, message_kind, place, posted.message, sender)?;
    let is_rider = is_rider(config, senders, posted, sender);
    let (rides, slot) = ridden(setup, is_rider, place, sender.number, slot);
    Ok(MessageOutcome {
        edit: Some(edit_for(message_kind, sender.number, due)),
        kind,
        rides,
        slot,
        senders: senders_after(posted, senders.joined(sender.number)),
    })
}

fn senders_after(posted: Posted<'_>, senders: Senders) -> Senders
    ensures { result ≡ senders_after (posted_of posted.entry) senders }
{
    if posted.last {
        Senders::NoneYet
    } else {
        senders
    }
}

// Returns `true` if an accepted message of session `sender` is a rider.
//
// `config.ride` must be set, and the session must not acknowledge. The message must be a
// subscription, an unsubscription or a publish, and the last one of its request. All messages must
// be accepted and come from the session, and none may be a handshake.
fn is_rider(config: &Config, senders: Senders, posted: Posted<'_>, sender: &Sender<'_>) -> bool
    ensures { result ≡ is_rider config.now senders posted.entry.message_kind (posted_of posted.entry) (named sender.now) }
{
    config.ride
        && posted.last
        && !sender.ack
        && senders.joined(sender.number).is_one()
        && may_ride(posted.message_kind)
}

fn may_ride(message_kind: MessageKind) -> bool
    ensures { result ≡ may_ride message_kind }
{
    matches!(
        message_kind,
        MessageKind::Subscribe | MessageKind::Unsubscribe | MessageKind::Publish
    )
}

// Returns the rider, if the message at `place` is one, and the slot of the message.
//
// A rider takes the reply out of `slot`, and gets a ticket for the answer of `session` instead.
fn ridden<P: Placing>(
    setup: &Setup<'_, P>,
    is_rider: bool,
    place: u64,
    session: u64,
    slot: Slot,
) -> (Option<Rider>, Slot)
    ensures { (answer : PlaceSlot) → given_by (setup_of P.place_of setup.now) place answer ≡ slot ∷ []
        → IsRidden (setup_of P.place_of setup.now) place (rider_for is_rider session answer) answer result.0 result.1 }
{
    match slot {
        Slot::Ready(reply) if is_rider => (
            Some(Rider { session, reply }),
            Slot::Waiting(setup.ticket(place, session)),
        ),
        slot => (None, slot),
    }
}

// Returns the kind of entry for an accepted message of a live session.
//
// `hold`: in milliseconds. Handshakes and unknown meta channels do not occur here.
fn kind_for(
    alloc: Global,
    message_kind: MessageKind,
    message: &Message,
    sender: &Sender<'_>,
    hold: u64,
) -> Result<EntryKind, AllocError>
    requires { AreReadable message_kind message.now }
    ensures { IfOk result (λ kind. (p : messages.Posted) → p.message ≡ message.now
        → kind ≡ kind_for message_kind p (named sender.now) hold) }
{
    let session = sender.number;
    Ok(match message_kind {
        MessageKind::Handshake | MessageKind::UnknownMeta => EntryKind::Refused,
        MessageKind::Connect => EntryKind::Connect {
            session,
            client: sender.client.clone()?,
            id: share_json(message.id.as_ref())?,
            acked: acked_by(message.ack),
            hold,
        },
        MessageKind::Subscribe => EntryKind::Subscribe {
            session,
            patterns: patterns_of(alloc, message)?,
        },
        MessageKind::Unsubscribe => EntryKind::Unsubscribe {
            session,
            patterns: patterns_of(alloc, message)?,
        },
        MessageKind::Disconnect => EntryKind::Disconnect { session },
        MessageKind::Publish => EntryKind::Publish(event_of(alloc, message)?),
    })
}

// Returns how an accepted message of a live session is answered, unless it is a rider.
fn slot_for<P: Placing>(
    setup: &Setup<'_, P>,
    message_kind: MessageKind,
    place: u64,
    message: &Message,
    sender: &Sender<'_>,
) -> Result<Slot, AllocError>
    ensures { IfOk result (λ slot. (p : messages.Posted) → p.message ≡ message.now
        → given_by (setup_of P.place_of setup.now) place (slot_for setup.now.config.now message_kind p (named sender.now)) ≡ slot ∷ []) }
{
    match message_kind {
        MessageKind::Connect => Ok(Slot::Waiting(setup.ticket(place, sender.number))),
        _ => {
            let client = Some(sender.client);
            let reply = Reply::to_message(
                setup.config,
                message_kind,
                message,
                client,
                Outcome::Done,
                AckReply::NoAck,
            )?;
            Ok(Slot::Ready(reply))
        }
    }
}

fn acked_by(ack: AckMember) -> Option<u64>
    ensures { result ≡ acked_by ack }
{
    match ack {
        AckMember::AckNumber(number) => Some(number),
        _ => None,
    }
}

// Accepts a handshake, which opens session `number`. The request can then have no rider.
fn open(
    alloc: Global,
    config: &Config,
    moment: u64,
    number: u64,
    posted: Posted<'_>,
) -> Result<MessageOutcome, AllocError>
    requires { moment ≤ greatest_moment }
    ensures edit { IfOk result (λ j.
        j.edit ≡ Some (edits.Open (newcomer config.now moment (posted_of posted.entry) number))) }
    ensures kind { IfOk result (λ j.
        (j.kind ≡ entries.Opened number (is_ack posted.entry.message.now.ack)) × (j.rides ≡ None)) }
    ensures senders { IfOk result (λ j. j.senders ≡ senders_after (posted_of posted.entry) Mixed) }
    ensures slot { IfOk result (λ j. j.slot ≡ slots.Ready (reply_to config.now message_kinds.Handshake
        posted.entry.message.now (Some (client_id posted.entry.nonce number)) advice.Opened
        (if is_ack posted.entry.message.now.ack then replies.AckTrue else replies.NoAck))) }
{
    let client = client_id(alloc, posted.nonce, number)?;
    let reply = opened_reply(config, posted.message, &client)?;
    let ack = is_ack(posted.message.ack);
    let session = LiveSession {
        number,
        client,
        ack,
        due: due_after(config, moment, 0),
        live: true,
    };
    Ok(MessageOutcome {
        edit: Some(Edit::Open(session)),
        kind: EntryKind::Opened {
            session: number,
            ack,
        },
        rides: None,
        slot: Slot::Ready(reply),
        senders: senders_after(posted, Senders::Mixed),
    })
}

// Creates the reply to a handshake, which confirms acknowledgement if the client asked for it.
fn opened_reply(config: &Config, message: &Message, client: &Text) -> Result<Reply, AllocError>
    ensures { IfOk result (λ reply. reply ≡ reply_to config.now message_kinds.Handshake message.now
        (Some client.now) advice.Opened (if is_ack message.now.ack then replies.AckTrue else replies.NoAck)) }
{
    let answer = if is_ack(message.ack) {
        AckReply::AckTrue
    } else {
        AckReply::NoAck
    };
    Reply::to_message(
        config,
        MessageKind::Handshake,
        message,
        Some(client),
        Outcome::Opened,
        answer,
    )
}

fn is_ack(ack: AckMember) -> bool
    ensures { result ≡ is_ack ack }
{
    match ack {
        AckMember::AckTrue => true,
        _ => false,
    }
}

// Returns how many milliseconds a message may be held.
//
// A connect that is its request's only message may be held for `config.timeout` or for the
// message's own timeout, whichever is smaller.
//
// Bayeux 1.0, connect request. Holding no other connects is a policy of this server.
fn hold_of(config: &Config, posted: Posted<'_>) -> u64
    ensures hold { result ≡ hold_of config.now (posted_of posted.entry) }
    ensures small { result < 2 ^ 32 }
{
    match posted.message_kind {
        MessageKind::Connect if posted.sole => {
            let timeout = u64::from(config.timeout);
            timeout.min(posted.message.timeout.unwrap_or(timeout))
        }
        _ => 0,
    }
}

fn due_after(config: &Config, moment: u64, hold: u64) -> u64
    requires moment { moment ≤ greatest_moment }
    requires hold { hold < 2 ^ 32 }
    ensures { result ≡ due_of config.now moment hold }
{
    let interval = config.max_interval;
    moment + hold + u64::from(interval)
}

fn edit_for(message_kind: MessageKind, number: u64, due: u64) -> Edit
    ensures { result ≡ edit_for message_kind number due }
{
    match message_kind {
        MessageKind::Disconnect => Edit::Close { number },
        _ => Edit::Extend { number, due },
    }
}

// Parses the patterns of the message, except those of service channels.
#[tactic(auto, using(crate::proofs::Judging::reading))]
fn patterns_of(alloc: Global, message: &Message) -> Result<Sequence<Pattern>, AllocError>
    requires { has_fault message.now.texts ≡ false }
    ensures { IfOk result (λ ps. ps ≡ patterns_of message.now) }
{
    let mut patterns = Sequence::new(alloc);
    for text in message.texts.as_slice() {
        if !is_service(text.as_str()) {
            patterns.push(pattern_of(alloc, text.as_str())?)?;
        }
    }
    Ok(patterns)
}

fn pattern_of(alloc: Global, text: &str) -> Result<Pattern, AllocError>
    requires { pattern_fault text.now ≡ None }
    ensures { IfOk result (λ p. p ≡ glob_of (segments text.now)) }
{
    match Pattern::read(alloc, text) {
        Ok(pattern) => Ok(pattern),
        Err(NameError::Memory) => Err(AllocError),
        Err(_) => unreachable!(),
    }
}

// Creates the event of a publish, without the publisher's client id.
fn event_of(alloc: Global, message: &Message) -> Result<SharedEvent, AllocError>
    requires { is_some (name_fault message.now.channel) ≡ false }
    ensures { IfOk result (λ e. e ≡ event_of message.now) }
{
    let payload = match &message.payload {
        Some(payload) => payload.clone()?,
        None => RawJson::new(alloc, "")?,
    };
    let event = Event {
        channel: message.channel.clone()?,
        payload,
        id: share_json(message.id.as_ref())?,
    };
    let name = ChannelName::of_valid(alloc, message.channel.as_str())?;
    SharedEvent::new(alloc, event, name)
}

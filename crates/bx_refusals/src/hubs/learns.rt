//! Two callers of a hub. One learns what the other has seen.
use crate::hubs::caller::Caller;
use crate::unlike::{Unlike, check};
use bx_hub::HubKind;
use bx_message::Answer;
use std::sync::Wait;

impl<L: HubKind, H: Wait + Drop, R: Wait> Caller<'_, L, H, R> {
    /// Connects a session with one pass, and publishes from another session with another pass.
    ///
    /// Posts a tick, and returns the answer to the connect.
    pub fn learned_answer(&mut self) -> Result<Answer, Unlike> {
        let mut reader = self.hub.pass();
        let (ticket, _) = self.connect(&mut reader)?;
        let early = self.poll(&mut reader, ticket)?;
        check(early.is_none(), "an answer too soon")?;
        let mut writer = self.hub.pass();
        self.publish(&mut writer)?;
        self.tick(&mut writer)?;
        reader = reader.longer(&writer);
        self.poll(&mut reader, ticket)?
            .ok_or(Unlike::Wrong("no answer"))
    }
}

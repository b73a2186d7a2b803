use crate::items::Stamp;
use crate::settings::Target;
use std::alloc::{AllocError, Global};

/// Formats the POSTs of one client.
#[derive(Clone, Copy)]
pub struct Requests<'a> {
    pub alloc: Global,
    pub target: &'a Target,
    /// Empty before the handshake.
    pub client: &'a str,
}

impl Requests<'_> {
    /// Formats a handshake, which may ask for acknowledgement.
    pub fn format_handshake(&self, acknowledges: bool) -> Result<String, AllocError> {
        let ext = if acknowledges {
            r#","ext":{"ack":true}"#
        } else {
            ""
        };
        let body = format!(in self.alloc;
            r#"[{{"channel":"/meta/handshake","version":"1.0","supportedConnectionTypes":["long-polling"]{ext}}}]"#
        )?;
        self.post(body.as_str())
    }

    /// Formats a subscription to channel `/load/{channel}`.
    pub fn format_subscribe(&self, channel: u32) -> Result<String, AllocError> {
        let client = self.client;
        let body = format!(in self.alloc;
            r#"[{{"channel":"/meta/subscribe","clientId":"{client}","subscription":"/load/{channel}"}}]"#
        )?;
        self.post(body.as_str())
    }

    /// Formats a connect that acknowledges batch `acknowledged`, if any.
    pub fn format_connect(&self, acknowledged: Option<u64>) -> Result<String, AllocError> {
        let client = self.client;
        let mut body = format!(in self.alloc;
            r#"[{{"channel":"/meta/connect","clientId":"{client}","connectionType":"long-polling""#
        )?;
        if let Some(number) = acknowledged {
            write!(body, r#","ext":{{"ack":{number}}}"#)?;
        }
        body.push_str("}]")?;
        self.post(body.as_str())
    }

    /// Formats a connect that the server answers at once.
    pub fn format_touch(&self) -> Result<String, AllocError> {
        let client = self.client;
        let body = format!(in self.alloc;
            r#"[{{"channel":"/meta/connect","clientId":"{client}","connectionType":"long-polling","advice":{{"timeout":0}}}}]"#
        )?;
        self.post(body.as_str())
    }

    /// Formats a publish to channel `/load/{channel}`, with the data `stamp`.
    pub fn format_publish(&self, channel: u32, stamp: Stamp) -> Result<String, AllocError> {
        let client = self.client;
        let (publisher, number, moment) = (stamp.publisher, stamp.number, stamp.moment);
        let body = format!(in self.alloc;
            r#"[{{"channel":"/load/{channel}","clientId":"{client}","data":{{"publisher":{publisher},"number":{number},"moment":{moment}}}}}]"#
        )?;
        self.post(body.as_str())
    }

    fn post(&self, body: &str) -> Result<String, AllocError> {
        let (host, path) = (self.target.host.as_str(), self.target.path.as_str());
        let length = body.len();
        format!(in self.alloc;
            "POST {path} HTTP/1.1\r\nhost: {host}\r\ncontent-type: application/json\r\ncontent-length: {length}\r\n\r\n{body}"
        )
    }
}

//! What a program sets of the connection that it serves.

use bytes::Bytes;
use std::{env, io};
use web_messages::Limits;
use web_reply::HttpResponse;

/// The most bytes that are taken of a connection before its next reply is the last, where nothing
/// else is set.
const USUAL_BYTES: u64 = 1_073_741_824;

/// Whether replies have the field Date.
#[derive(Clone, Copy, Debug, PartialEq, Eq)]
pub enum DateHeader {
    /// By the clock, in replies that have none (RFC 7231, section 7.1.1.2).
    ByClock,
    /// Only where the handler sets it.
    Unset,
}

/// What a program sets of the connection that it serves.
#[derive(Drop)]
pub struct ServeSettings {
    /// The greatest messages that are taken, and what is refused of a head.
    pub limits: Limits,
    /// The reply to the message of this number says `connection: close`, and is the last.
    pub last_message: u64,
    /// The first reply after this number of bytes came is the last too.
    pub last_byte: u64,
    /// Whether replies have the field Date.
    pub date: DateHeader,
    /// A reply to HEAD states the length of the reply to GET, where it is known (RFC 7230, section
    /// 3.3.2).
    pub length_at_head: bool,
    /// Replies to messages that the connection refuses before a service sees them: the first that
    /// has the status of the refusal, 400, 413, 414, 431, 501 or 505, is sent in place of an empty
    /// one.
    pub refusals: Option<Vec<HttpResponse<Bytes>>>,
}

impl Default for ServeSettings {
    /// For clients that nobody trusts: `Limits::for_untrusted`, the last reply after 1 GiB, Date by
    /// the clock, the length at HEAD, and empty replies to what is refused.
    fn default() -> ServeSettings {
        ServeSettings {
            limits: Limits::for_untrusted(),
            last_message: u64::MAX,
            last_byte: USUAL_BYTES,
            date: DateHeader::ByClock,
            length_at_head: true,
            refusals: None,
        }
    }
}

impl ServeSettings {
    /// The default, with the words of the command line as `take_word` takes them. A word of no
    /// setting is passed over.
    ///
    /// # Errors
    ///
    /// If the words could not be read.
    pub fn from_words(rt: &HostRuntime) -> io::Result<ServeSettings> {
        let mut settings = ServeSettings::default();
        for word in env::args(rt)? {
            settings.take_word(word.as_str());
        }
        Ok(settings)
    }

    /// Takes a word of the command line. `--no-date` leaves out Date, so that what is written is
    /// the same on each run. Returns whether it is a word of these settings.
    pub fn take_word(&mut self, word: &str) -> bool {
        if word == "--no-date" {
            self.date = DateHeader::Unset;
            return true;
        }
        false
    }
}

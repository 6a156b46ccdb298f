//! What is added to the next reply.

use crate::settings::{DateHeader, ServeSettings};
use http_header::HeaderValue;
use httpdate::HttpDate;
use std::alloc::Global;
use std::time::{Clock, SystemTime};
use web_http1::ReplySettings;
use web_texts::NoMemory;

/// What is added to the next reply.
#[derive(Drop)]
pub(crate) struct Additions {
    date: DateHeader,
    last_message: u64,
    last_byte: u64,
    /// How many messages were answered.
    answered: u64,
    /// The second of the date in `reply`, since 1970.
    second: Option<u64>,
    reply: ReplySettings,
}

/// The seconds since 1970, where the clock tells them.
fn current_second<C: Clock>(clock: &C) -> Option<u64> {
    let Ok(now) = SystemTime::now(clock) else {
        return None;
    };
    match now.duration_since(SystemTime::UNIX_EPOCH) {
        Ok(since) => Some(since.as_secs()),
        Err(_) => None,
    }
}

/// The value of Date, which no second after the year 9999 has.
fn date_value(alloc: Global, second: u64) -> Result<Option<HeaderValue>, NoMemory> {
    let Ok(date) = HttpDate::from_unix_secs(second) else {
        return Ok(None);
    };
    match HeaderValue::from_bytes(alloc, &date.to_bytes()) {
        Ok(value) => Ok(Some(value)),
        Err(_) => Err(NoMemory),
    }
}

impl Additions {
    /// Those of the first reply, without a date.
    pub(crate) fn new(settings: ServeSettings) -> Additions {
        Additions {
            date: settings.date,
            last_message: settings.last_message,
            last_byte: settings.last_byte,
            answered: 0,
            second: None,
            reply: ReplySettings {
                last: false,
                length_at_head: settings.length_at_head,
                date: None,
                refusals: settings.refusals,
            },
        }
    }

    /// Sets the date, which is written anew once a second.
    fn set_date<C: Clock>(&mut self, alloc: Global, clock: &C) -> Result<(), NoMemory> {
        let second = current_second(clock);
        if second != self.second {
            self.reply.date = match second {
                Some(second) => date_value(alloc, second)?,
                None => None,
            };
            self.second = second;
        }
        Ok(())
    }

    /// Sets those of the next reply, with this number of bytes taken of the connection.
    pub(crate) fn set_next<C: Clock>(
        &mut self,
        alloc: Global,
        clock: &C,
        taken: u64,
    ) -> Result<(), NoMemory> {
        if self.date == DateHeader::ByClock {
            self.set_date(alloc, clock)?;
        }
        self.reply.last = taken >= self.last_byte
            || self.answered.saturating_add(1) >= self.last_message;
        Ok(())
    }

    /// Those of the next reply.
    pub(crate) fn reply(&self) -> &ReplySettings {
        &self.reply
    }

    /// Counts a message that was answered.
    pub(crate) fn count_reply(&mut self) {
        self.answered = self.answered.saturating_add(1);
    }
}

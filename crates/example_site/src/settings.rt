//! What the site sets of its connection: nobody is trusted.
use std::env;
use std::io::Result;
use web_stdio::ServeSettings;

/// The settings, with the words of the command line: `--no-date` leaves out Date. Another word is
/// passed over.
pub fn read_settings(rt: &HostRuntime) -> Result<ServeSettings> {
    let mut settings = ServeSettings::default();
    for word in env::args(rt)? {
        settings.take_word(word.as_str());
    }
    Ok(settings)
}

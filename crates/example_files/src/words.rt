//! The words of the command line.
use std::env;
use std::io::Result;
use web_files::Links;
use web_paths::HiddenNames;
use web_stdio::ServeSettings;

/// What the command line asks for.
#[derive(Drop)]
pub struct Words {
    /// The folder that is served.
    pub folder: String,
    pub links: Links,
    pub hidden: HiddenNames,
    pub lists: bool,
    pub serving: ServeSettings,
}

impl Words {
    /// Takes a word that begins with `--`. Returns whether it is one.
    fn take(&mut self, word: &str) -> bool {
        match word {
            "--listing" => self.lists = true,
            "--follow-links" => self.links = Links::Followed,
            "--hidden" => self.hidden = HiddenNames::Allowed,
            _ => return self.serving.take_word(word),
        }
        true
    }
}

/// Reads the words: a folder, and after it those that begin with `--`. `None` if there is no
/// folder, or a word is none of them.
pub fn read_words(rt: &HostRuntime) -> Result<Option<Words>> {
    let mut args = env::args(rt)?;
    let _program = args.next();
    let Some(folder) = args.next() else {
        return Ok(None);
    };
    let mut words = Words {
        folder,
        links: Links::Refused,
        hidden: HiddenNames::Refused,
        lists: false,
        serving: ServeSettings::default(),
    };
    for word in args {
        if !words.take(word.as_str()) {
            return Ok(None);
        }
    }
    Ok(Some(words))
}

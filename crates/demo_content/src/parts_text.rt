//! The text about the parts of a body.
ghost use Rattle.std.specs.Prelude.{◌≡◌, ◌++◌, OnOk, flat_map, string_bytes};
ghost use Rattle.demo_content.specs.DemoTexts.{bar};
ghost use Rattle.demo_content.specs.PartsTexts.{part_text, parts_text};

use crate::texts::PlainText;
use std::alloc::Global;
use web_multipart::Multipart;
use web_multipart_stream::Part;
use web_request::NoMemory;
use web_texts::Text;

/// Adds the name of a part, that of its file, and the size of its content.
fn push_part(alloc: Global, text: &mut String, part: &Part) -> Result<(), NoMemory>
    ensures { OnOk result
        (string_bytes text.new ≡ string_bytes text.old ++ part_text part.now) }
{
    let file = match &part.filename {
        Some(name) => name.as_str(),
        None => "-",
    };
    let size = part.body.len();
    let printed = format!(in alloc; "{} {file} {size}", part.name)?;
    Ok(text.push_str(&printed)?)
}

fn push_later_part(alloc: Global, text: &mut String, part: &Part) -> Result<(), NoMemory>
    ensures { OnOk result
        (string_bytes text.new ≡ string_bytes text.old ++ (bar ++ part_text part.now)) }
{
    text.push_str("|")?;
    push_part(alloc, text, part)
}

/// Adds parts, each with a vertical bar before it.
fn push_later_parts(alloc: Global, text: &mut String, parts: &[Part]) -> Result<(), NoMemory>
    ensures { OnOk result (string_bytes text.new
        ≡ string_bytes text.old ++ flat_map (λ p. bar ++ part_text p) parts.now) }
{
    for part in parts {
        push_later_part(alloc, text, part)?;
    }
    Ok(())
}

/// Adds parts, with vertical bars between.
fn push_parts(alloc: Global, text: &mut String, parts: &[Part]) -> Result<(), NoMemory>
    ensures { OnOk result
        (string_bytes text.new ≡ string_bytes text.old ++ parts_text parts.now) }
{
    match parts {
        [] => Ok(()),
        [first, later @ ..] => {
            push_part(alloc, text, first)?;
            push_later_parts(alloc, text, later)
        }
    }
}

/// The names of the parts, of their files, and the sizes of their contents.
impl PlainText for Multipart<65536> {
    ghost use Rattle.demo_content.specs.PartsTexts.{parts_text};

    ghost text = { λ parts. parts_text parts };

    fn plain_text(&self, alloc: Global) -> Result<Text, NoMemory> {
        let mut text = String::new(alloc);
        push_parts(alloc, &mut text, self.parts())?;
        Ok(Text::from(text))
    }
}

//! Several refusals as one cause.
ghost use Rattle.std.specs.Prelude.{◌≡◌, ◌≤◌, length};
ghost use Rattle.std.specs.Fmt.{WritesOnOk};
ghost use Rattle.std.specs.Slice.Iter.{iter_rest};
ghost use Rattle.web_reply.specs.SeveralCauses.{later_text, several_status, several_text};

use http::StatusCode;
use std::fmt;
use std::marker::Model;
use std::slice::Iter;
use web_texts::Text;

/// One refusal of several: the status and the text that its own reply would have had.
#[derive(Debug, Drop)]
pub struct Member {
    pub status: StatusCode,
    pub text: Text,
}

/// At least two refusals, in their order. `Error::join` makes it. It prints their texts, one a
/// line.
#[derive(Debug, Drop)]
pub struct Causes {
    members: Vec<Member>,
}

impl Model for Causes {
    ghost use Rattle.std.specs.Prelude.{◌≤◌, List, length};
    ghost use Rattle.web_reply.specs.declared.errors.several.Member.{Member as Seen};

    ghost Value = { List Seen };

    ghost view = { λ c. c.members.items };

    ghost invariant = { λ c. 2 ≤ length c.members.items };
}

impl Causes {
    pub(crate) fn new(members: Vec<Member>) -> Causes
        requires several { 2 ≤ length members.items }
        ensures { result ≡ members.items }
    {
        Causes { members }
    }

    /// The refusals in their order, borrowed.
    pub fn iter(&self) -> Iter<'_, Member>
        ensures members { iter_rest result ≡ self.now }
        ensures several { 2 ≤ length self.now }
    {
        self.members.iter()
    }

    /// The status of the first refusal.
    pub(crate) fn status(&self) -> StatusCode
        ensures { result ≡ several_status self.now }
    {
        self.members[0].status
    }

    /// The refusals in their order. It allocates nothing.
    pub(crate) fn into_members(self) -> Vec<Member>
        ensures members { result.items ≡ self }
        ensures several { 2 ≤ length self }
    {
        let Causes { members } = self;
        members
    }
}

/// Prints each text on a line of its own, after a line that is already there.
fn fmt_later<W: fmt::Write>(f: &mut fmt::Formatter<W>, members: &[Member]) -> fmt::Result
    ensures { WritesOnOk W.write_str_gives f.old result (later_text members.now) f.new }
{
    for member in members {
        write!(f, "\n{}", member.text.as_str())?;
    }
    Ok(())
}

fn fmt_members<W: fmt::Write>(f: &mut fmt::Formatter<W>, members: &[Member]) -> fmt::Result
    ensures { WritesOnOk W.write_str_gives f.old result (several_text members.now) f.new }
{
    match members {
        [] => Ok(()),
        [first, later @ ..] => {
            f.write_str(first.text.as_str())?;
            fmt_later(f, later)
        }
    }
}

impl fmt::Display for Causes {
    ghost use Rattle.std.specs.Prelude.{Some};
    ghost use Rattle.web_reply.specs.SeveralCauses.{several_text};

    ghost output = { λ c. Some (several_text c) };

    fn fmt<W: fmt::Write>(&self, f: &mut fmt::Formatter<W>) -> fmt::Result {
        fmt_members(f, self.members.as_slice())
    }
}

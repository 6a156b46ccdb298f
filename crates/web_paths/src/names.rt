//! Names of files and folders.
ghost use Rattle.std.specs.Prelude.{◌≡◌, ◌==◌};
ghost use Rattle.std.specs.List.{list_all};
ghost use Rattle.web_paths.specs.FileNames.{allows_hidden, begins_with_dot as begins_with_dot_lem};
ghost use Rattle.web_paths.specs.FileNames.{is_dots as is_dots_lem};
ghost use Rattle.web_paths.specs.FileNames.{is_file_name as is_file_name_lem};
ghost use Rattle.web_paths.specs.FileNames.{is_name_byte as is_name_byte_lem};

/// Whether names may begin with a dot, as `.git`. `.` and `..` are no names in any case.
#[derive(Clone, Copy, Debug, PartialEq, Eq)]
pub enum HiddenNames {
    /// No name begins with a dot.
    Refused,
    /// Names may begin with a dot.
    Allowed,
}

impl HiddenNames {
    fn are_allowed(self) -> bool
        ensures { result ≡ allows_hidden self }
    {
        match self {
            HiddenNames::Refused => false,
            HiddenNames::Allowed => true,
        }
    }

    /// Whether a text may be a name: it is not empty, `.` or `..`, and has no slash and no NUL, and
    /// begins with a dot only if such names are allowed.
    pub fn allow(self, name: &str) -> bool
        ensures { result ≡ is_file_name_lem self name.now }
    {
        is_file_name(name.as_bytes(), self)
    }
}

fn is_dots(name: &[u8]) -> bool
    ensures { result ≡ is_dots_lem name.now }
{
    name.len() <= 2 && name.iter().all(|b| *b == b'.')
}

fn begins_with_dot(name: &[u8]) -> bool
    ensures { result ≡ begins_with_dot_lem name.now }
{
    match name {
        [first, ..] => *first == b'.',
        [] => false,
    }
}

pub(crate) fn has_name_bytes(name: &[u8]) -> bool
    ensures { result ≡ list_all is_name_byte_lem name.now }
{
    name.iter().all(|b| *b != b'/' && *b != 0)
}

/// Whether bytes may be a name below a root.
pub(crate) fn is_file_name(name: &[u8], hidden: HiddenNames) -> bool
    ensures { result ≡ is_file_name_lem hidden name.now }
{
    !is_dots(name) && (hidden.are_allowed() || !begins_with_dot(name)) && has_name_bytes(name)
}

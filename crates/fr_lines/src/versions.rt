//! The first line of a text, which names its version.
ghost use Rattle.std.specs.Prelude.{◌≡◌, Some, IfSome};
ghost use Rattle.fr_lines.specs.declared.versions.Version.{Version};
ghost use Rattle.fr_lines.specs.Reading.{version_in};
ghost use Rattle.fr_lines.specs.Spelling.{first_line};

/// A version of the format (project-defined).
#[derive(Clone, Copy, PartialEq, Eq)]
pub enum Version {
    /// Version 1, which has no line for a withdraw.
    One,
    /// Version 2, which has a line for each entry. It keeps the lines of version 1.
    Two,
    /// Version 3, whose ownership lines have their cycles; in earlier versions each is for every cycle. It keeps all
    /// other lines of version 2.
    Three,
}

impl Version {
    ghost use Rattle.std.specs.Prelude.{◌≡◌};
    ghost use Rattle.fr_lines.specs.Versions.{has_withdraws, has_own_cycles};

    /// Returns whether the version has a line for a withdraw.
    pub(crate) fn has_withdraws(self) -> bool
        ensures { result ≡ has_withdraws self }
    {
        match self {
            Version::One => false,
            Version::Two | Version::Three => true,
        }
    }

    /// Returns whether an ownership line of the version has its cycles.
    pub(crate) fn has_own_cycles(self) -> bool
        ensures { result ≡ has_own_cycles self }
    {
        match self {
            Version::One | Version::Two => false,
            Version::Three => true,
        }
    }
}

/// Returns the version that the line names.
#[tactic(auto, unfolding(crate::specs::Reading::version_in))]
fn version_in(line: &[u8]) -> Option<Version>
    ensures { result ≡ version_in line.now }
{
    if line == b"frtrace 1".as_slice() {
        return Some(Version::One);
    }
    if line == b"frtrace 2".as_slice() {
        return Some(Version::Two);
    }
    if line == b"frtrace 3".as_slice() {
        return Some(Version::Three);
    }
    None
}

/// Returns the version of the text that begins with this line.
///
/// `None` for any line except `frtrace 1`, `frtrace 2` and `frtrace 3`.
pub fn version_of(line: &[u8]) -> Option<Version>
    ensures found { IfSome result (λ v. line.now ≡ first_line v) }
    ensures only { (v : Version) → line.now ≡ first_line v → result ≡ Some v }
    ensures exact { result ≡ version_in line.now }
{
    version_in(line)
}

//! The paths.

/// What a request target asks for.
#[derive(Clone, Copy, Debug, PartialEq, Eq)]
pub enum Path {
    /// `/expand`: the expanded form of a document.
    Expand,
    /// `/compact`: its form compacted with a context.
    Compact,
    /// `/flatten`: its flattened form.
    Flatten,
    /// `/revise`: a stored context is loaded anew.
    Revise,
    /// `/evict`: a stored context goes out.
    Evict,
}

impl Path {
    ghost use Rattle.std.specs.Prelude.{◌≡◌};
    ghost use Rattle.ld_head.specs.Paths.{path_of};

    /// The path that the target is. It is compared as it stands, so `/expand?` is none.
    pub fn from_target(target: &str) -> Option<Path>
        ensures { result ≡ path_of target.now }
    {
        match target {
            "/expand" => Some(Path::Expand),
            "/compact" => Some(Path::Compact),
            "/flatten" => Some(Path::Flatten),
            "/revise" => Some(Path::Revise),
            "/evict" => Some(Path::Evict),
            _ => None,
        }
    }
}

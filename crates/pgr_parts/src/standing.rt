ghost use Rattle.std.specs.Prelude.{◌≡◌};
ghost use Rattle.pgr_parts.specs.Standings as standings;

/// How far a search for strong classes has come with a vertex.
#[derive(Clone, Copy)]
pub(crate) enum Standing {
    /// It was not found yet.
    Unseen,
    /// It stands on the path, at this place.
    Waiting(u32),
    /// Its class is known, by this name.
    Named(u32),
}

impl Standing {
    /// The name of its class, if it is known.
    pub(crate) fn name(self) -> Option<u32>
        ensures { result ≡ standings.name_of self }
    {
        match self {
            Standing::Named(name) => Some(name),
            _ => None,
        }
    }
}

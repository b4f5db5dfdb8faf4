ghost use Rattle.std.specs.Prelude.{◌≡◌, ℕ, ◌<◌};

/// For each vertex an estimate of what a walk from some start to it costs.
///
/// Its meanings are the number of the vertices and the estimate of each. Nothing is said of a number from the
/// size on.
pub trait Estimate {
    /// The number of vertices.
    ghost count: { Self → ℕ };

    /// The estimate of a vertex.
    ghost values: { Self → ℕ → ℕ };

    /// The estimate of a vertex below the size. It takes no memory.
    fn value(&self, v: u32) -> u128
        requires { v < count self.now }
        ensures { result ≡ values self.now v };
}

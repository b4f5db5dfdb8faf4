ghost use Rattle.std.specs.Prelude.{◌≡◌};
ghost use Rattle.pgr_flow.specs.Network.{IsNetwork, Network};

use pgr_walks::Link;
use std::marker::Model;

/// A flow network: so many vertices, and arcs between them with their capacities.
///
/// An arc is a link whose cost is its capacity. Contracts see the size and the arcs.
#[derive(Debug, Drop)]
pub struct Net {
    size: u32,
    arcs: Vec<Link>,
}

impl Model for Net {
    ghost use Rattle.pgr_flow.specs.Network.{IsNetwork, Network};

    ghost Value = { Network };

    ghost view = { λ net. record { size = net.size; arcs = net.arcs.items } };

    ghost invariant = { λ net. IsNetwork net.size net.arcs.items };
}

impl Net {
    /// The network with `size` vertices and these arcs.
    ///
    /// Each arc leads between two different vertices below the size and has a positive capacity; the sum of the
    /// capacities is at most 2^63 - 1, and the arcs rise by edge, start and end. There may be no arc, and vertices
    /// without arcs. It takes no memory.
    pub fn make(size: u32, arcs: Vec<Link>) -> Net
        requires { IsNetwork size arcs.items }
        ensures { result ≡ record { size = size; arcs = arcs.items } }
    {
        Net { size, arcs }
    }

    /// The number of vertices.
    pub fn size(&self) -> u32
        ensures { result ≡ self.now.size }
    {
        self.size
    }

    /// The arcs, in order.
    pub fn arcs(&self) -> &[Link]
        ensures arcs { result.now ≡ self.now.arcs }
        ensures network { IsNetwork self.now.size self.now.arcs }
    {
        self.arcs.as_slice()
    }
}

ghost use Rattle.std.specs.Prelude.{◌≡◌};
ghost use Rattle.pgr_points.specs.Sight.{sees, side_of, meets};

use pgr_graph::Direction;
use pgr_outside::Side;

/// What links see of points: where one drives, and whether the graph is directed.
#[derive(Clone, Copy, Debug)]
pub(crate) struct Sight {
    /// The side of the road that one drives on.
    pub(crate) driving: Side,
    /// Whether the graph is directed; in the undirected one links see all points of their edge.
    pub(crate) directed: bool,
}

impl Sight {
    /// Whether a link in the direction sees a point of the side.
    pub(crate) fn sees(self, direction: Direction, side: Side) -> bool
        ensures { result ≡ sees self.directed self.driving direction side }
    {
        !self.directed || meets(side_of(direction, self.driving), side)
    }
}

/// The side of an edge, as seen from its source, that one drives on in a direction.
fn side_of(direction: Direction, driving: Side) -> Side
    ensures { result ≡ side_of direction driving }
{
    match direction {
        Direction::Forward => driving,
        Direction::Backward => match driving {
            Side::B => Side::B,
            Side::R => Side::L,
            Side::L => Side::R,
        },
    }
}

/// Whether two sides have a part in common.
fn meets(one: Side, other: Side) -> bool
    ensures { result ≡ meets one other }
{
    match one {
        Side::B => true,
        Side::R => !matches!(other, Side::L),
        Side::L => !matches!(other, Side::R),
    }
}

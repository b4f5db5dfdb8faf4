ghost use Rattle.std.specs.Prelude.{◌≡◌, ℕ, ◌<◌, length, Contains, IfSome, IfNone};
ghost use Rattle.pgr_walks.specs.declared.link.LinkOf.{LinkOf};
ghost use Rattle.pgr_search.specs.Tight.{IsTight, IsLeastTight};
ghost use Rattle.pgr_search.specs.Seeking.{is_beyond};

use crate::room::Room;
use pgr_walks::{Graph, Label, Link, LinkVisitor, Next};

/// The least tight link out of a vertex by edge, then cost, then where it leads, or none where no link out of it is tight.
///
/// The room holds a label, or none, for each vertex of the graph. The links out of a vertex rise, so the
/// first tight one is the least.
pub fn least_tight_link<G: Graph>(g: &G, v: u32, room: &Room) -> Option<Link>
    requires vertex { v < G.count g.now }
    requires room { length room.now ≡ G.count g.now }
    ensures from { IfSome result (λ link. link.from ≡ v) }
    ensures least { IfSome result (IsLeastTight (G.outs g.now v) room.now) }
    ensures none { IfNone result ((link : LinkOf ℕ) → Contains (G.outs g.now v) link → IsTight room.now link → ⊥) }
{
    let here = room.label(v)?;
    let mut seeker = Seeker {
        here,
        room,
        found: None,
    };
    g.each_out(v, &mut seeker);
    seeker.found
}

// Looks for a tight link out of a vertex with a label.
#[derive(Drop)]
struct Seeker<'a> {
    here: Label,
    room: &'a Room,
    found: Option<Link>,
}

impl<'a> LinkVisitor for Seeker<'a> {
    ghost use Rattle.pgr_search.specs.Seeking.{Seeking, seek, seek_on, MayBeSought};

    ghost Meaning = { Seeking };

    ghost meaning = { λ s. record { here = s.here; labels = s.room.now; found = s.found } };

    ghost after = { seek };

    ghost answer = { seek_on };

    ghost ready = { MayBeSought };

    fn see(&mut self, link: Link) -> Next {
        match self.room.label(link.to) {
            Some(there) if is_one_link_beyond(self.here, there, link) => {
                self.found = Some(link);
                Next::Stop
            }
            _ => Next::Go,
        }
    }
}

// Whether a label is that of where a link leads, with its cost and one hop more.
fn is_one_link_beyond(here: Label, there: Label, link: Link) -> bool
    ensures { result ≡ is_beyond here there link }
{
    there.cost <= here.cost
        && here.cost - there.cost == link.cost
        && there.hops < here.hops
        && here.hops - there.hops == 1
}

ghost use Rattle.std.specs.Prelude.{◌≡◌, ◌∷◌, []};
ghost use Rattle.pgr_walks.specs.Visit.{Admits, shown};

use super::{
    Bound, Estimate, GuidedRoom, Room, labels_guided, labels_to, labels_until, least_tight_link,
};
use pgr_walks::{Graph, Label, Link, LinkVisitor, Next};
use std::test::Fail;

// From 0 a link of cost 2 leads to 2, and links of cost 2 and 0 lead to 1 and on to 2.
const TO_ONE: Link = Link {
    from: 0,
    edge: 1,
    cost: 2,
    to: 1,
};

const ON_TO_TWO: Link = Link {
    from: 1,
    edge: 2,
    cost: 0,
    to: 2,
};

const TO_TWO: Link = Link {
    from: 0,
    edge: 3,
    cost: 2,
    to: 2,
};

struct ThreeVertices;

impl Graph for ThreeVertices {
    ghost use Rattle.pgr_search.specs.ThreeVertices.{outs_of, ins_of, three_vertices_lawful};

    ghost count = { λ _. 3 };

    ghost outs = { λ _. outs_of };

    ghost ins = { λ _. ins_of };

    fn size(&self) -> u32 {
        3
    }

    fn each_out<V: LinkVisitor>(&self, v: u32, visitor: &mut V) {
        if v == 0 {
            show_both(TO_ONE, TO_TWO, visitor);
        } else if v == 1 {
            let _ = visitor.see(ON_TO_TWO);
        }
    }

    fn each_in<V: LinkVisitor>(&self, v: u32, visitor: &mut V) {
        if v == 1 {
            let _ = visitor.see(TO_ONE);
        } else if v == 2 {
            show_both(ON_TO_TWO, TO_TWO, visitor);
        }
    }

    ghost lawful = { λ _. three_vertices_lawful };
}

fn show_both<V: LinkVisitor>(first: Link, second: Link, visitor: &mut V)
    requires { Admits V.after V.answer V.ready (V.meaning visitor.old) (first ∷ second ∷ []) }
    ensures { V.meaning visitor.new ≡ shown V.after V.answer (V.meaning visitor.old) (first ∷ second ∷ []) }
{
    if let Next::Go = visitor.see(first) {
        let _ = visitor.see(second);
    }
}

#[test]
fn labels_are_least_in_cost_and_then_in_hops(rt: HostRuntime) -> Result<(), Fail> {
    let mut room = Room::for_size(rt.alloc(), 3)?;
    labels_to(&ThreeVertices, &[2, 2], &mut room);
    assert_eq!(rt; room.label(0), Some(Label { cost: 2, hops: 1 }));
    assert_eq!(rt; room.label(1), Some(Label { cost: 0, hops: 1 }));
    assert_eq!(rt; room.label(2), Some(Label { cost: 0, hops: 0 }));
    labels_to(&ThreeVertices, &[0], &mut room);
    assert_eq!(rt; room.label(0), Some(Label { cost: 0, hops: 0 }));
    assert_eq!(rt; room.label(1), None);
    assert_eq!(rt; room.label(2), None);
    Ok(())
}

#[test]
fn a_search_ends_as_soon_as_the_wanted_vertices_have_labels(rt: HostRuntime) -> Result<(), Fail> {
    let mut room = Room::for_size(rt.alloc(), 3)?;
    labels_until(
        &ThreeVertices,
        &[2],
        Bound::Wanted([1, 1].as_slice()),
        &mut room,
    );
    assert_eq!(rt; room.label(0), None);
    assert_eq!(rt; room.label(1), Some(Label { cost: 0, hops: 1 }));
    assert_eq!(rt; room.label(2), Some(Label { cost: 0, hops: 0 }));
    labels_until(
        &ThreeVertices,
        &[2],
        Bound::Wanted([1, 0].as_slice()),
        &mut room,
    );
    assert_eq!(rt; room.label(0), Some(Label { cost: 2, hops: 1 }));
    labels_until(
        &ThreeVertices,
        &[1],
        Bound::Wanted([2].as_slice()),
        &mut room,
    );
    assert_eq!(rt; room.label(0), Some(Label { cost: 2, hops: 1 }));
    assert_eq!(rt; room.label(2), None);
    labels_until(
        &ThreeVertices,
        &[2],
        Bound::Wanted([].as_slice()),
        &mut room,
    );
    assert_eq!(rt; room.label(2), None);
    Ok(())
}

#[test]
fn a_vertex_exactly_at_the_limit_has_a_label(rt: HostRuntime) -> Result<(), Fail> {
    let mut room = Room::for_size(rt.alloc(), 3)?;
    labels_until(&ThreeVertices, &[2], Bound::Limit(2), &mut room);
    assert_eq!(rt; room.label(0), Some(Label { cost: 2, hops: 1 }));
    labels_until(&ThreeVertices, &[2], Bound::Limit(1), &mut room);
    assert_eq!(rt; room.label(0), None);
    assert_eq!(rt; room.label(1), Some(Label { cost: 0, hops: 1 }));
    labels_until(&ThreeVertices, &[0], Bound::Limit(0), &mut room);
    assert_eq!(rt; room.label(0), Some(Label { cost: 0, hops: 0 }));
    assert_eq!(rt; room.label(1), None);
    Ok(())
}

#[test]
fn the_least_tight_link_goes_on_to_the_target(rt: HostRuntime) -> Result<(), Fail> {
    let mut room = Room::for_size(rt.alloc(), 3)?;
    labels_to(&ThreeVertices, &[2], &mut room);
    assert_eq!(rt; least_tight_link(&ThreeVertices, 0, &room), Some(TO_TWO));
    assert_eq!(rt; least_tight_link(&ThreeVertices, 1, &room), Some(ON_TO_TWO));
    assert_eq!(rt; least_tight_link(&ThreeVertices, 2, &room), None);
    Ok(())
}

// An estimate of what a walk from 0 costs: 2 at each other vertex, as much as the links out of 0.
struct TwoBeyondZero;

impl Estimate for TwoBeyondZero {
    ghost use Rattle.pgr_search.specs.ThreeVertices.{two_beyond_zero};

    ghost count = { λ _. 3 };

    ghost values = { λ _. two_beyond_zero };

    fn value(&self, v: u32) -> u128 {
        if v == 0 { 0 } else { 2 }
    }
}

#[test]
fn a_guided_search_finds_the_label_of_its_start(rt: HostRuntime) -> Result<(), Fail> {
    let mut room = GuidedRoom::for_size(rt.alloc(), 3)?;
    labels_guided(&ThreeVertices, &[2], 0, &TwoBeyondZero, &mut room);
    assert_eq!(rt; room.labels().label(0), Some(Label { cost: 2, hops: 1 }));
    assert_eq!(rt;
        least_tight_link(&ThreeVertices, 0, room.labels()),
        Some(TO_TWO)
    );
    labels_guided(&ThreeVertices, &[0], 1, &TwoBeyondZero, &mut room);
    assert_eq!(rt; room.labels().label(1), None);
    Ok(())
}

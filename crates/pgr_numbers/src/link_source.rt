ghost use Rattle.std.specs.Prelude.{◌≡◌, ◌<◌, ℤ, List, Option, Some, length, map, slice_get};
ghost use Rattle.pgr_walks.specs.declared.link.LinkOf.{LinkOf};
ghost use Rattle.pgr_numbers.specs.Slots.{links_in};

use pgr_walks::NamedLink;

/// Links between ids that are given one at a time, so that no list of them has to be kept.
///
/// A source has slots, numbered from 0, and a slot has a link or is empty. Its links are those of its slots, in order. A slot
/// gives the same each time. No call takes memory.
pub trait LinkSource {
    /// What each slot has.
    ghost slots: { Self → List (Option (LinkOf ℤ)) };

    /// The number of slots.
    fn slot_count(&self) -> usize
        ensures { result ≡ length (slots self.now) };

    /// The link of a slot, or none where the slot is empty.
    fn link(&self, slot: usize) -> Option<NamedLink>
        requires { slot < length (slots self.now) }
        ensures { slice_get (slots self.now) slot ≡ Some result };
}

/// The links of a list as a source: a slot for each, and none is empty.
#[derive(Debug, Clone, Copy)]
pub struct ListedLinks<'a> {
    links: &'a [NamedLink],
}

impl<'a> ListedLinks<'a> {
    /// The source whose links are those of the list.
    pub fn of(links: &'a [NamedLink]) -> ListedLinks<'a>
        ensures links { links_in (⟦<ListedLinks<'a> as LinkSource>⟧.slots result) ≡ links.now }
        ensures slots { ⟦<ListedLinks<'a> as LinkSource>⟧.slots result ≡ map (λ link. Some link) links.now }
    {
        ListedLinks { links }
    }
}

impl LinkSource for ListedLinks<'_> {
    ghost slots = { λ source. map (λ link. Some link) source.links.now };

    fn slot_count(&self) -> usize {
        self.links.len()
    }

    fn link(&self, slot: usize) -> Option<NamedLink> {
        Some(self.links[slot])
    }
}

#[cfg(test)]
mod tests {
    use super::*;
    use crate::laws::names_of_source_are_few;
    use crate::names::Names;
    use std::test::Fail;

    /// The slots of a list, some of them empty.
    #[derive(Drop)]
    struct Slots<'a> {
        slots: &'a [Option<NamedLink>],
    }

    impl LinkSource for Slots<'_> {
        ghost slots = { λ source. source.slots.now };

        fn slot_count(&self) -> usize {
            self.slots.len()
        }

        fn link(&self, slot: usize) -> Option<NamedLink> {
            self.slots[slot]
        }
    }

    fn link(from: i64, edge: i64, cost: u64, to: i64) -> NamedLink {
        NamedLink {
            from,
            edge,
            cost,
            to,
        }
    }

    #[test]
    fn empty_slots_have_no_names_and_no_links(rt: HostRuntime) -> Result<(), Fail> {
        for far in [0, 4_000_000_000_000] {
            let slots = [
                None,
                Some(link(7, 1, 4, 2)),
                None,
                None,
                Some(link(far + 9, 2, 0, 7)),
                None,
            ];
            let source = Slots { slots: &slots };
            names_of_source_are_few(&source);
            let names = Names::of_source(rt.alloc(), &source)?;
            assert_eq!(rt; names.len(), 3);
            for (number, id) in [(0, 2), (1, 7), (2, far + 9)] {
                assert_eq!(rt; names.number(id), Some(number), "at {id}");
            }
            for absent in [-1, 0, 8, far + 8, i64::MAX] {
                assert_eq!(rt; names.number(absent), None, "at {absent}");
            }
            let numbered = names.numbered_source(&source)?;
            let rows = numbered
                .iter()
                .map(|link| (link.from, link.edge, link.cost, link.to));
            let rows: Vec<(u32, i64, u64, u32)> = rows.collect(rt.alloc())?;
            assert_eq!(rt; rows.as_slice(), [(1, 1, 4, 0), (2, 2, 0, 1)].as_slice());
        }
        Ok(())
    }

    #[test]
    fn slots_that_are_all_empty_and_no_slots_have_no_names(rt: HostRuntime) -> Result<(), Fail> {
        let empty = [None, None, None];
        for count in [0, 3] {
            let source = Slots {
                slots: &empty[..count],
            };
            names_of_source_are_few(&source);
            let names = Names::of_source(rt.alloc(), &source)?;
            assert!(rt; names.is_empty());
            assert_eq!(rt; names.number(0), None);
            let numbered = names.numbered_source(&source)?;
            assert_eq!(rt; numbered.len(), 0);
        }
        Ok(())
    }
}

ghost use Rattle.std.specs.Prelude.{◌≡◌, ◌+◌, ◌<◌, ◌≤◌, ◌^◌, ℕ, None, Some, IsNone, All, IfOk, IfSome, IfNone, length, replicate, slice_set, slice_index_or, vec_capacity, false};
ghost use Rattle.pgr_search.specs.Heap.{is_before, key_in, keys_of, keys_with, lowered, IsLeast, IsHeap, IsRising, IsSinking, IsSifting, IsChildToRise, NoneRises, IsLeastFrom};

use pgr_outside::NoMemory;
use std::alloc::Global;
use std::marker::Model;

/// A vertex that waits, and its key.
#[derive(Clone, Copy)]
pub struct Waiting<K> {
    /// The vertex.
    pub vertex: u32,
    /// Its key.
    pub key: K,
}

/// For each vertex its key, if it waits with one, so arranged that a vertex of least key is found at once.
///
/// It is a heap of the vertices that wait: the four places under place `p` are those from `4 * p + 1` on, and no
/// entry is before the one above it. For each vertex it keeps where its entry stands, so no vertex stands in it twice.
#[derive(Drop)]
pub struct Heap<K: Ord + Copy> {
    /// For each vertex one more than the place of its entry, or 0 where it doesn't wait.
    places: Vec<u32>,
    entries: Vec<Waiting<K>>,
}

impl<K: Ord + Copy> Model for Heap<K> {
    ghost use Rattle.std.specs.Prelude.{List, Option, length, ◌≤◌, vec_capacity};
    ghost use Rattle.std.specs.Coded.{coded_option};
    ghost use base.Stored.{coded_list};
    ghost use Rattle.pgr_search.specs.Heap.{keys_of, IsHeap};

    ghost Value = { List (Option K) };

    ghost coded = { coded_list (coded_option K.code) };

    ghost view = { λ heap. keys_of heap.places.items heap.entries.items };

    ghost invariant = { λ heap. IsHeap K.cmp (keys_of heap.places.items heap.entries.items) heap.places.items heap.entries.items
        × (length heap.places.items ≤ vec_capacity heap.entries) };
}

impl<K: Ord + Copy> Heap<K> {
    /// Takes all memory of a heap of at most `n` vertices; none of them waits.
    ///
    /// `NoMemory` may come at any call.
    pub fn for_size(alloc: Global, n: u32) -> Result<Heap<K>, NoMemory>
        ensures { IfOk result (λ heap. heap ≡ replicate n None) }
    {
        let places = vec![in alloc; 0; n as usize]?;
        let entries = Vec::with_capacity(alloc, n as usize)?;
        Ok(Heap { places, entries })
    }

    /// Gives a vertex this key where it has none or this one is before it.
    pub fn lower(&mut self, v: u32, key: K)
        requires { v < length self.old }
        ensures { self.new ≡ lowered K.cmp self.old v key }
    {
        let entry = Waiting { vertex: v, key };
        lower_entry(&mut self.entries, self.places.as_mut_slice(), entry);
    }

    /// Lets a vertex wait no more, if it does.
    pub fn remove(&mut self, v: u32)
        requires { v < length self.old }
        ensures { self.new ≡ slice_set self.old v None }
    {
        remove_entry(&mut self.entries, self.places.as_mut_slice(), v);
    }

    /// Lets no vertex wait any more.
    ///
    /// Work, not proved: a step for each vertex that waits.
    pub fn clear(&mut self)
        ensures none { All IsNone self.new }
        ensures size { length self.new ≡ length self.old }
    {
        forget(self.entries.as_slice(), self.places.as_mut_slice());
        self.entries.clear();
    }

    /// A vertex of least key, any of several, and none where no vertex waits.
    pub fn least(&self) -> Option<Waiting<K>>
        ensures none { IfNone result (All IsNone self.now) }
        ensures least { IfSome result (IsLeast K.cmp self.now) }
    {
        let first = *self.entries.first()?;
        Some(first)
    }
}

/// Puts an entry in where its vertex doesn't wait, or lowers its key where the entry's is before it.
fn lower_entry<K: Ord + Copy>(entries: &mut Vec<Waiting<K>>, places: &mut [u32], entry: Waiting<K>)
    requires vertex { entry.vertex < length places.old }
    requires heap { IsHeap K.cmp (keys_of places.old entries.old.items) places.old entries.old.items }
    requires room { length places.old ≤ vec_capacity entries.old }
    ensures heap { IsHeap K.cmp (lowered K.cmp (keys_of places.old entries.old.items) entry.vertex entry.key) places.new entries.new.items }
    ensures room { length places.new ≤ vec_capacity entries.new }
{
    let place = places[entry.vertex as usize] as usize;
    if place == 0 {
        let last = entries.len();
        match entries.push(entry) {
            Ok(()) => sift_up(entries.as_mut_slice(), places, last, entry),
            Err(_) => unreachable!(),
        }
    } else if comes_before(&entry, &entries[place - 1]) {
        sift_up(entries.as_mut_slice(), places, place - 1, entry);
    }
}

/// Takes the entry of a vertex out, if it has one; the last entry takes its place.
fn remove_entry<K: Ord + Copy>(entries: &mut Vec<Waiting<K>>, places: &mut [u32], v: u32)
    requires vertex { v < length places.old }
    requires heap { IsHeap K.cmp (keys_of places.old entries.old.items) places.old entries.old.items }
    requires room { length places.old ≤ vec_capacity entries.old }
    ensures heap { IsHeap K.cmp (slice_set (keys_of places.old entries.old.items) v None) places.new entries.new.items }
    ensures room { length places.new ≤ vec_capacity entries.new }
{
    let place = places[v as usize] as usize;
    if place == 0 {
        return;
    }
    places[v as usize] = 0;
    if let Some(last) = entries.pop() {
        if place - 1 < entries.len() {
            sift(entries.as_mut_slice(), places, place - 1, last);
        }
    }
}

/// Moves an entry from a place up or down to where it belongs.
fn sift<K: Ord + Copy>(
    entries: &mut [Waiting<K>],
    places: &mut [u32],
    place: usize,
    entry: Waiting<K>,
)
    requires sifting { IsSifting K.cmp (keys_with places.old entries.old place entry) places.old entries.old place entry }
    ensures heap { IsHeap K.cmp (keys_with places.old entries.old place entry) places.new entries.new }
{
    if place > 0 && comes_before(&entry, &entries[(place - 1) / 4]) {
        sift_up(entries, places, place, entry);
    } else {
        sift_down(entries, places, place, entry);
    }
}

/// Moves an entry up, from a place that is its own, to where the one above isn't after it.
fn sift_up<K: Ord + Copy>(
    entries: &mut [Waiting<K>],
    places: &mut [u32],
    place: usize,
    entry: Waiting<K>,
)
    requires rising { IsRising K.cmp (keys_with places.old entries.old place entry) places.old entries.old place entry }
    ensures heap { IsHeap K.cmp (keys_with places.old entries.old place entry) places.new entries.new }
{
    let mut at = place;
    while at > 0 && comes_before(&entry, &entries[(at - 1) / 4]) {
        let above = entries[(at - 1) / 4];
        put(entries, places, at, above);
        at = (at - 1) / 4;
    }
    put(entries, places, at, entry);
}

/// Moves an entry down, from a place that is its own, to where none under it is before it.
fn sift_down<K: Ord + Copy>(
    entries: &mut [Waiting<K>],
    places: &mut [u32],
    place: usize,
    entry: Waiting<K>,
)
    requires sinking { IsSinking K.cmp (keys_with places.old entries.old place entry) places.old entries.old place entry }
    ensures heap { IsHeap K.cmp (keys_with places.old entries.old place entry) places.new entries.new }
{
    let mut at = place;
    while let Some(child) = child_to_rise(entries, at, &entry) {
        let under = entries[child];
        put(entries, places, at, under);
        at = child;
    }
    put(entries, places, at, entry);
}

/// Writes an entry at a place.
fn put<K: Ord + Copy>(
    entries: &mut [Waiting<K>],
    places: &mut [u32],
    place: usize,
    entry: Waiting<K>,
)
    requires place { place < length entries.old }
    requires small { place + 1 < 2 ^ 32 }
    requires vertex { entry.vertex < length places.old }
    ensures entries { entries.new ≡ slice_set entries.old place entry }
    ensures places { places.new ≡ slice_set places.old entry.vertex (place + 1) }
{
    entries[place] = entry;
    places[entry.vertex as usize] = place as u32 + 1;
}

/// The place under another whose entry is least, where that is before this one.
fn child_to_rise<K: Ord + Copy>(
    entries: &[Waiting<K>],
    place: usize,
    entry: &Waiting<K>,
) -> Option<usize>
    requires place { place < length entries.now }
    requires small { length entries.now < 2 ^ 32 }
    ensures none { IfNone result (NoneRises K.cmp entries.now place entry.now) }
    ensures child { IfSome result (IsChildToRise K.cmp entries.now place entry.now) }
{
    let first = 4 * place + 1;
    if first >= entries.len() {
        return None;
    }
    let child = least_from(entries, first);
    if comes_before(&entries[child], entry) {
        Some(child)
    } else {
        None
    }
}

/// Which of the four places from this one on has the least entry.
fn least_from<K: Ord + Copy>(entries: &[Waiting<K>], first: usize) -> usize
    requires first { first < length entries.now }
    requires small { first < 2 ^ 35 }
    ensures { IsLeastFrom K.cmp entries.now first result }
{
    let end = entries.len().min(first + 4);
    let mut least = first;
    for place in first + 1..end {
        if comes_before(&entries[place], &entries[least]) {
            least = place;
        }
    }
    least
}

/// Whether the key of an entry is before that of another.
fn comes_before<K: Ord + Copy>(a: &Waiting<K>, b: &Waiting<K>) -> bool
    ensures { result ≡ is_before K.cmp (Some a.now.key) (Some b.now.key) }
{
    a.key.cmp(&b.key).is_lt()
}

/// Makes none of the vertices of the entries wait.
fn forget<K: Ord + Copy>(entries: &[Waiting<K>], places: &mut [u32])
    requires heap { IsHeap K.cmp (keys_of places.old entries.now) places.old entries.now }
    ensures { places.new ≡ replicate (length places.old) 0 }
{
    for waiting in entries {
        places[waiting.vertex as usize] = 0;
    }
}

#[cfg(test)]
mod tests {
    use super::Heap;
    use std::test::Fail;

    /// A vertex of least key.
    fn first(heap: &Heap<u64>) -> Option<u32> {
        Some(heap.least()?.vertex)
    }

    #[test]
    fn vertices_are_taken_out_by_their_least_keys(rt: HostRuntime) -> Result<(), Fail> {
        let mut heap = Heap::for_size(rt.alloc(), 7)?;
        assert_eq!(rt; first(&heap), None);
        heap.lower(0, 60);
        heap.lower(1, 50);
        heap.lower(2, 40);
        heap.lower(3, 30);
        heap.lower(4, 20);
        heap.lower(5, 10);
        heap.lower(6, 70);
        heap.lower(6, 5);
        heap.lower(5, 90);
        assert_eq!(rt; first(&heap), Some(6));
        heap.remove(6);
        assert_eq!(rt; first(&heap), Some(5));
        heap.remove(5);
        heap.remove(3);
        assert_eq!(rt; first(&heap), Some(4));
        heap.remove(4);
        assert_eq!(rt; first(&heap), Some(2));
        heap.remove(2);
        assert_eq!(rt; first(&heap), Some(1));
        heap.remove(1);
        assert_eq!(rt; first(&heap), Some(0));
        heap.remove(0);
        assert_eq!(rt; first(&heap), None);
        Ok(())
    }

    #[test]
    fn a_heap_that_was_cleared_is_used_again(rt: HostRuntime) -> Result<(), Fail> {
        let mut heap = Heap::for_size(rt.alloc(), 3)?;
        heap.lower(0, 1);
        heap.lower(2, 3);
        heap.clear();
        assert_eq!(rt; first(&heap), None);
        heap.lower(1, 2);
        heap.lower(2, 1);
        assert_eq!(rt; first(&heap), Some(2));
        heap.remove(2);
        assert_eq!(rt; first(&heap), Some(1));
        Ok(())
    }
}

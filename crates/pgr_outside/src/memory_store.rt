ghost use Rattle.std.specs.Prelude.{◌≡◌, ℕ, ◌-◌, ◌≤◌, ◌↔◌, List, None, Some, Contains, map, length, min, take, drop, IsErr, IfOk, OnOk, OnErr, IfSome, IsErrOf, IsSomeAnd};
ghost use Rattle.std.specs.Option.{option_copied};
ghost use Rattle.pgr_outside.specs.Calls.{raised};
ghost use Rattle.pgr_outside.specs.Faults.{HasRisen, NoneFell};
ghost use Rattle.pgr_outside.specs.Files.{named, content_of, HasDistinctNames};
ghost use Rattle.pgr_outside.specs.MemoryStore.{StoreState, FailsNext};
ghost use Rattle.pgr_outside.specs.Store.{ReadsAt};

use crate::fault::StoreFault;
use crate::store::Store;
use std::marker::Model;

/// A store over files in memory, read in pieces of a size of one's choice, that fails at chosen calls.
///
/// It has one count of faults, which is the count of every name.
#[derive(Drop)]
pub struct MemoryStore {
    files: Vec<(String, Vec<u8>)>,
    most: usize,
    fails: Vec<u64>,
    calls: u64,
    faults: u64,
}

impl Model for MemoryStore {
    ghost Value = { StoreState };

    ghost view = { λ store. record {
      files = named store.files.items;
      most = store.most;
      fails = store.fails.items;
      calls = store.calls;
      faults = store.faults;
    } };

    ghost invariant = { λ store. 1 ≤ store.most };
}

impl MemoryStore {
    /// A store of these files, at which no call was made and no fault was counted.
    ///
    /// A read gives at most `most` bytes, and the calls whose numbers stand in `fails`, counted from 1,
    /// fail. Each given name is told with its bytes, and no other name is. It takes no memory.
    pub fn new(files: Vec<(String, Vec<u8>)>, most: usize, fails: Vec<u64>) -> MemoryStore
        requires names { HasDistinctNames (named files.items) }
        requires most { 1 ≤ most }
        ensures made { result ≡ record {
          files = named files.items;
          most = most;
          fails = fails.items;
          calls = 0;
          faults = 0;
        } }
        ensures told { (name bytes : List ℕ) → Contains (named files.items) (name, bytes)
            → content_of result.files name ≡ Some bytes }
        ensures untold { (name : List ℕ) → (¬ Contains (map (λ file. file.0) (named files.items)) name)
            → content_of result.files name ≡ None }
    {
        MemoryStore {
            files,
            most,
            fails,
            calls: 0,
            faults: 0,
        }
    }
}

impl Store for MemoryStore {
    ghost content = { λ store. content_of store.files };

    ghost faults = { λ store _. store.faults };

    /// Reads the bytes of a file from the place `at` on into the front of `buf`, and answers how many.
    ///
    /// A call that doesn't fail gives the least of `most`, the length of `buf` and the number of bytes from
    /// `at` on. It fails exactly where its number is one of those that fail, or where there is no such
    /// file, and then counts one fault more. It never answers `Memory`.
    fn read_at(&mut self, name: &str, at: u64, buf: &mut [u8]) -> Result<usize, StoreFault>
        ensures count { IfOk result (λ count. count ≤ length buf.new) }
        ensures bytes { IfOk result (λ count. IfSome (content_of self.old.files name.now) (λ told. ReadsAt told at buf.new count)) }
        ensures failed { IsErrOf result StoreFault.Failed → HasRisen self.old.faults self.new.faults }
        ensures memory { IsErrOf result StoreFault.Memory → buf.new ≡ buf.old }

        // What stays, for every name: contents, and counts do not fall.
        ensures content { content_of self.new.files ≡ content_of self.old.files }
        ensures faults { NoneFell (λ _. self.old.faults) (λ _. self.new.faults) }

        // Exactly how much, when it fails, and what is counted.
        ensures exact { IfOk result (λ count. IsSomeAnd (content_of self.old.files name.now)
            (λ told. count ≡ min self.old.most (min (length buf.old) (length told - at)))) }
        ensures fails { IsErr result ↔ FailsNext self.old name.now }
        ensures never_memory { ¬ IsErrOf result StoreFault.Memory }
        ensures ok { OnOk result (self.new ≡ record self.old { calls = raised self.old.calls }) }
        ensures err { OnErr result (self.new ≡ record self.old {
          calls = raised self.old.calls;
          faults = raised self.old.faults;
        }) }
    {
        self.calls = self.calls.saturating_add(1);
        let is_to_fail = self.fails.contains(&self.calls);
        match bytes_named(&self.files, name) {
            Some(bytes) if !is_to_fail => Ok(copy_front(bytes, at, self.most, buf)),
            _ => {
                self.faults = self.faults.saturating_add(1);
                Err(StoreFault::Failed)
            }
        }
    }
}

/// The content of the file with this name, if there is one.
fn bytes_named<'a>(files: &'a [(String, Vec<u8>)], name: &str) -> Option<&'a [u8]>
    ensures { option_copied result ≡ content_of (named files.now) name.now }
{
    for file in files {
        if file.0.as_str() == name {
            return Some(file.1.as_slice());
        }
    }
    None
}

/// Copies bytes from the place `at` on to the front of a buffer, at most so many, and answers how many.
fn copy_front(bytes: &[u8], at: u64, most: usize, buf: &mut [u8]) -> usize
    ensures count { result ≡ min most (min (length buf.old) (length bytes.now - at)) }
    ensures copied { take result buf.new ≡ take result (drop at bytes.now) }
{
    let rest = &bytes[(at as usize).min(bytes.len())..];
    let count = most.min(buf.len()).min(rest.len());
    buf[..count].copy_from_slice(&rest[..count]);
    count
}

//! A store in memory.
ghost use Rattle.std.specs.Prelude.{◌≡◌, ◌≤◌, ◌↔◌, ◌⊎◌, ◌++◌, IfSome, IsErrOf, IsSomeAnd, IsTrue};
ghost use Rattle.std.specs.Prelude.{None, OnErr, OnOk, Some, take};
ghost use Rattle.std.specs.List.{position};
ghost use Rattle.std.specs.Option.{option_copied};
ghost use Rattle.fk_ports.specs.Files.{file, with_file};
ghost use Rattle.fk_ports.specs.InMemory.{after_fetch, after_put, is_named, is_to_fail, no_calls};
ghost use Rattle.fk_ports.specs.InMemory.{stored_files};

use crate::faults::StoreFault;
use crate::schedule::Schedule;
use crate::store::Store;
use std::alloc::AllocError;
use std::marker::Model;

/// A store that keeps its files in memory.
#[derive(Drop)]
pub struct MemStore {
    files: Vec<(String, Vec<u8>)>,
    calls: Schedule,
    fetch_faults: u64,
    put_faults: u64,
}

impl Model for MemStore {
    ghost use Rattle.fk_ports.specs.InMemory.{StoreState, store_code, stored_files};

    ghost Value = { StoreState };

    ghost coded = { store_code };

    ghost view = { λ s. record {
      files = stored_files s.files.items;
      calls = s.calls;
      fetch_faults = s.fetch_faults;
      put_faults = s.put_faults;
    } };
}

impl MemStore {
    /// A store of these files. Of two files with one name the first counts. The calls with these
    /// numbers fail, counted from 1, those of both kinds together.
    pub fn new(files: Vec<(String, Vec<u8>)>, fails: Vec<u64>) -> MemStore
        ensures { result ≡ record {
          files = stored_files files.items;
          calls = no_calls fails.items;
          fetch_faults = 0;
          put_faults = 0;
        } }
    {
        MemStore {
            files,
            calls: Schedule::new(fails),
            fetch_faults: 0,
            put_faults: 0,
        }
    }

    /// The bytes of the named file. It is `None` exactly if no file has the name.
    pub fn bytes(&self, name: &str) -> Option<&[u8]>
        ensures { option_copied result ≡ file self.now.files name.now }
    {
        let at = place_of(&self.files, name)?;
        Some(self.files[at].1.as_slice())
    }
}

impl Store for MemStore {
    ghost fetch_faults = { λ store. store.fetch_faults };

    ghost put_faults = { λ store. store.put_faults };

    ghost files = { λ store. Some store.files };

    /// Appends the first `most` bytes of the named file. Apart from memory, it fails exactly if the
    /// number of the call is listed or no file has the name.
    fn fetch(&mut self, name: &str, most: usize, into: &mut Vec<u8>) -> Result<(), StoreFault>
        ensures exact { IsErrOf result StoreFault.Fault
            ↔ (IsTrue (is_to_fail self.old.calls) ⊎ (file self.old.files name.now ≡ None)) }
        ensures appended { OnOk result (IsSomeAnd (file self.old.files name.now)
            (λ bytes. into.new.items ≡ into.old.items ++ take most bytes)) }
        ensures refused { OnErr result (into.new.items ≡ into.old.items) }
        ensures after { self.new ≡ after_fetch self.old }
        ensures never_falls { self.old.fetch_faults ≤ self.new.fetch_faults }
    {
        if self.calls.next_fails() {
            self.fetch_faults = self.fetch_faults.saturating_add(1);
            return Err(StoreFault::Fault);
        }
        let Some(bytes) = self.bytes(name) else {
            return Err(StoreFault::Fault);
        };
        into.extend_from_slice(&bytes[..most.min(bytes.len())])?;
        Ok(())
    }

    /// Makes these the bytes of the name. Apart from memory, it fails exactly if the number of the
    /// call is listed.
    fn put(&mut self, name: &str, bytes: &[u8]) -> Result<(), StoreFault>
        ensures exact { IsErrOf result StoreFault.Fault ↔ IsTrue (is_to_fail self.old.calls) }
        ensures put { OnOk result (self.new
            ≡ record (after_put self.old) { files = with_file self.old.files name.now bytes.now }) }
        ensures refused { OnErr result (self.new ≡ after_put self.old) }
        ensures never_falls { self.old.put_faults ≤ self.new.put_faults }
    {
        if self.calls.next_fails() {
            self.put_faults = self.put_faults.saturating_add(1);
            return Err(StoreFault::Fault);
        }
        replace(&mut self.files, name, bytes)?;
        Ok(())
    }
}

/// The index of the named file in a list of files.
fn place_of(files: &[(String, Vec<u8>)], name: &str) -> Option<usize>
    ensures { result ≡ position (is_named name.now) files.now }
{
    files.iter().position(|file| name == file.0.as_str())
}

/// Makes these the bytes of the name in a list of files.
fn replace(files: &mut Vec<(String, Vec<u8>)>, name: &str, bytes: &[u8]) -> Result<(), AllocError>
    ensures ok { OnOk result (stored_files files.new.items
        ≡ with_file (stored_files files.old.items) name.now bytes.now) }
    ensures err { OnErr result (files.new.items ≡ files.old.items) }
{
    let alloc = *files.allocator();
    let bytes = Vec::from_slice(alloc, bytes)?;
    match place_of(files, name) {
        Some(at) => files[at].1 = bytes,
        None => files.push((String::from_str(alloc, name)?, bytes))?,
    }
    Ok(())
}

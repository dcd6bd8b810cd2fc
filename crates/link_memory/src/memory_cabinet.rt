//! A cabinet of files in memory.

ghost use Rattle.std.specs.Prelude.{◌≡◌, ◌≤◌, ◌-◌, ◌^◌, ℕ, List, ◌++◌, ◌∷◌, [], Some, IfOk, OnOk, OnErr, map, string_bytes};
ghost use Rattle.link_trait.specs.Outside.{counted, faults_after_fetch, Notes};
ghost use Rattle.link_memory.specs.OutsideMemory.{empty_cabinet, fetch_answer, PutsFile};

use crate::planned_calls::PlannedCalls;
use er_base::NoMemory;
use link_trait::{Cabinet, FetchFault};
use std::alloc::Global;
use std::collections::BTreeMap;
use std::marker::Model;

/// A cabinet of files in memory, which tells all that it holds.
///
/// It fails exactly at the calls that were listed by [`fail`](MemoryCabinet::fail) and at a name that
/// wasn't put.
#[derive(Drop)]
pub struct MemoryCabinet {
    alloc: Global,
    files: BTreeMap<String, Vec<u8>>,
    asked: Vec<String>,
    calls: PlannedCalls,
    faults: u64,
}

impl Model for MemoryCabinet {
    ghost use Rattle.std.specs.Prelude.{map, string_bytes};
    ghost use Rattle.link_memory.specs.OutsideMemory.{KeptCabinet};

    ghost Value = { KeptCabinet };

    ghost view = { λ c. record {
      files = map (λ e. (string_bytes e.0, e.1.items)) c.files.entries;
      asked = map string_bytes c.asked.items;
      failing = c.calls.failing.items;
      calls = c.calls.done;
      faults = c.faults;
    } };
}

impl MemoryCabinet {
    /// An empty cabinet, which takes no memory.
    pub fn new(alloc: Global) -> MemoryCabinet
        ensures { result ≡ empty_cabinet }
    {
        MemoryCabinet {
            alloc,
            files: BTreeMap::new(alloc),
            asked: Vec::new(alloc),
            calls: PlannedCalls::new(alloc),
            faults: 0,
        }
    }

    /// Adds a file, or replaces the one of that name. Where memory runs out, nothing changes.
    pub fn put(&mut self, name: &str, octets: &[u8]) -> Result<(), NoMemory>
        ensures put { OnOk result (PutsFile self.old.files self.new.files name.now octets.now) }
        ensures rest { OnOk result (self.new ≡ record self.old { files = self.new.files }) }
        ensures err { OnErr result (self.new ≡ self.old) }
    {
        let name = String::from_str(self.alloc, name)?;
        let octets = Vec::from_slice(self.alloc, octets)?;
        self.files.insert(name, octets)?;
        Ok(())
    }

    /// Lists a call that is to fail, by its number: fetches are counted from 1, those that fail and
    /// those that find no memory too, and the count stays at 2^64 - 1.
    pub fn fail(&mut self, call: u64) -> Result<(), NoMemory>
        ensures ok { OnOk result (self.new ≡ record self.old { failing = self.old.failing ++ call ∷ [] }) }
        ensures err { OnErr result (self.new ≡ self.old) }
    {
        self.calls.fail(call)
    }
}

// Adds a name to those that were asked for. Where memory runs out, nothing changes.
fn note(alloc: Global, asked: &mut Vec<String>, name: &str) -> Result<(), NoMemory>
    ensures ok { OnOk result (map string_bytes asked.new.items ≡ map string_bytes asked.old.items ++ name.now ∷ []) }
    ensures err { OnErr result (asked.new.items ≡ asked.old.items) }
{
    let noted = String::from_str(alloc, name)?;
    asked.push(noted)?;
    Ok(())
}

fn copied(alloc: Global, octets: &[u8]) -> Result<Vec<u8>, NoMemory>
    ensures { IfOk result (λ copy. copy.items ≡ octets.now) }
{
    Ok(Vec::from_slice(alloc, octets)?)
}

impl Cabinet for MemoryCabinet {
    ghost state = { λ c. record { files = Some c.files; asked = Some c.asked; faults = c.faults } };

    fn fetch(&mut self, alloc: Global, name: &str) -> Result<Vec<u8>, FetchFault>
        ensures given { IfOk result (λ octets. fetch_answer self.old name.now ≡ Some octets.items) }
        ensures failed { result ≡ Err FetchFault.Failed → fetch_answer self.old name.now ≡ None }
        ensures noted { Notes result (Some self.old.asked) (Some self.new.asked) name.now }
        ensures faults { self.new.faults ≡ faults_after_fetch result self.old.faults }
        ensures calls { self.new.calls ≡ counted self.old.calls }
        ensures files { self.new.files ≡ self.old.files }
        ensures failing { self.new.failing ≡ self.old.failing }
        ensures most { self.new.faults ≤ 2 ^ 64 - 1 }
    {
        let _faults = self.faults;
        let is_to_fail = self.calls.begin();
        note(self.alloc, &mut self.asked, name)?;
        let found = if is_to_fail {
            None
        } else {
            self.files.get(name)
        };
        match found {
            Some(octets) => Ok(copied(alloc, octets.as_slice())?),
            None => {
                self.faults = self.faults.saturating_add(1);
                Err(FetchFault::Failed)
            }
        }
    }
}

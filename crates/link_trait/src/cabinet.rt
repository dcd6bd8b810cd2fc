//! Files that are fetched by their names.

ghost use Rattle.std.specs.Prelude.{◌≡◌, ℕ, ◌-◌, ◌^◌, ◌≤◌, List, Option, Some, None, IfOk};
ghost use Rattle.link_trait.specs.declared.cabinet.FetchFault.TheVariants as fault;
ghost use Rattle.link_trait.specs.Outside.{HasFile, HasStayedAsTold, Notes, Rose};
ghost use Rattle.link_trait.specs.States.{CabinetState};

use er_base::NoMemory;
use std::alloc::Global;

/// Why a fetch gave no file.
#[derive(Clone, Copy, Debug, PartialEq, Eq)]
pub enum FetchFault {
    /// The cabinet has no such file, or couldn't give it. Its count of faults rose in that fetch.
    Failed,
    /// Memory ran out. This answer is free: no clause says when it comes.
    NoMemory(NoMemory),
}

impl From<NoMemory> for FetchFault {
    ghost from_gives = { λ want e. e ≡ fault.NoMemory want };

    fn from(want: NoMemory) -> FetchFault {
        FetchFault::NoMemory(want)
    }
}

/// A cabinet of files, each with a name.
///
/// What it holds and what it was asked for is an optional meaning: a cabinet in memory tells it, a real
/// one doesn't. One that tells nothing never begins to tell, and it may cease to tell. Its faults are
/// counted, up to 2^64 - 1, and the count never falls.
pub trait Cabinet {
    // Its files, the names asked for, and how often it failed.
    ghost state: { Self → CabinetState };

    /// The octets of the file of that name.
    ///
    /// A fetch changes no file. The name is noted among those asked for, save where memory ran out: then
    /// it may be noted or not.
    fn fetch(&mut self, alloc: Global, name: &str) -> Result<Vec<u8>, FetchFault>
        ensures ok { IfOk result (λ octets. HasFile (state self.old).files name.now octets.items) }
        ensures kept { HasStayedAsTold (state self.old).files (state self.new).files }
        ensures noted { Notes result (state self.old).asked (state self.new).asked name.now }
        ensures count { (state self.old).faults ≤ (state self.new).faults }
        ensures most { (state self.new).faults ≤ 2 ^ 64 - 1 }
        ensures failed { result ≡ Err FetchFault.Failed → Rose (state self.old).faults (state self.new).faults };
}

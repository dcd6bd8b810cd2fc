//! How the octets of the application come and go.

ghost use Rattle.std.specs.Prelude.{◌≡◌, ◌≤◌, ◌++◌, [], drop, length, true, false, OnOk};

use bytes::BytesMut;
use er_base::NoMemory;
use std::alloc::Global;

// How the octets of the application come and go.
#[derive(Drop)]
pub(crate) struct Speaker {
    // The octets that were read and not heard yet.
    held: BytesMut,
    // More may wait to be read.
    pub(crate) unread: bool,
    // There was no room for what waits for it.
    pub(crate) put_off: bool,
}

impl Speaker {
    // Nobody is there.
    pub(crate) fn new(alloc: Global) -> Speaker
        ensures { result.held.items ≡ [] }
    {
        Speaker {
            held: BytesMut::new(alloc),
            unread: false,
            put_off: false,
        }
    }

    // An application comes: it may have said something already.
    pub(crate) fn begin(&mut self)
        ensures held { self.new.held.items ≡ [] }
        ensures unread { self.new.unread ≡ true }
        ensures put_off { self.new.put_off ≡ false }
    {
        self.held.clear();
        self.unread = true;
        self.put_off = false;
    }

    // Octets were read.
    pub(crate) fn keep(&mut self, octets: &[u8]) -> Result<(), NoMemory>
        ensures { OnOk result (self.new.held.items ≡ self.old.held.items ++ octets.now) }
    {
        self.held.extend_from_slice(octets)?;
        Ok(())
    }

    // The octets that were read and not heard yet.
    pub(crate) fn held(&self) -> &[u8]
        ensures { result.now ≡ self.now.held.items }
    {
        self.held.as_slice()
    }

    // So many of them were heard.
    pub(crate) fn heard(&mut self, count: usize)
        requires { count ≤ length self.old.held.items }
        ensures { self.new.held.items ≡ drop count self.old.held.items }
    {
        self.held.advance(count);
    }

    // Whether there is something to hear or to read.
    pub(crate) fn is_speaking(&self) -> bool {
        self.unread || !self.held.is_empty()
    }
}

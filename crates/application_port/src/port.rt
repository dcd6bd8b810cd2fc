//! The loop's side of its application.

ghost use Rattle.std.specs.Prelude.{◌≡◌, ◌≤◌, ◌<◌, true, [], length, take, IfOk, IfSome, OnOk, OnErr};
ghost use Rattle.application_lines.specs.Notices.{notice_text};
ghost use Rattle.application_lines.specs.Lending.{notice_lent};
ghost use Rattle.application_lines.specs.Standings.{at_first_line};
ghost use Rattle.application_lines.specs.Taking.{IsApplicationLineInRange};
ghost use Rattle.application_model.specs.Services.{is_attached, has_room};
ghost use Rattle.application_port.specs.Ports.{NobodyThere, Talking, attendance_of, output_of, told_at_port, written_at_port, HearsAtPort};

use application_lines::{LineReader, Notice, TakenLine, print_notice};
use bytes::BytesMut;
use er_base::NoMemory;
use std::alloc::Global;
use std::marker::Model;

/// The most octets that may wait for an application where a message is taken.
pub const MOST_WAITING: usize = 262_144;

/// The loop's side of its application: nobody is there, or it is known where the application's stream stands and which octets wait for it.
#[derive(Drop)]
pub struct Port {
    attached: bool,
    reader: LineReader,
    output: BytesMut,
    // The line that is printed.
    line: Vec<u8>,
}

impl Model for Port {
    ghost use Rattle.application_port.specs.Ports.{PortState};
    ghost use Rattle.application_port.specs.Keeping.{port_kept};

    ghost Value = { PortState };

    ghost view = { λ p. port_kept p.attached p.reader p.output.items };
}

impl Port {
    /// Nobody is there.
    pub fn new(alloc: Global) -> Result<Port, NoMemory>
        ensures { IfOk result (λ port. port ≡ NobodyThere) }
    {
        Ok(Port {
            attached: false,
            reader: LineReader::new(alloc)?,
            output: BytesMut::new(alloc),
            line: Vec::new(alloc),
        })
    }

    /// Whether an application is there.
    pub fn is_attached(&self) -> bool
        ensures { result ≡ is_attached (attendance_of self.now) }
    {
        self.attached
    }

    /// Whether an application is there for which not too much waits: messages are taken and its lines are read.
    pub fn has_room(&self) -> bool
        ensures { result ≡ has_room (attendance_of self.now) }
    {
        if !self.attached {
            return false;
        }
        self.output.len() <= MOST_WAITING
    }

    /// An application comes.
    pub fn attach(&mut self)
        ensures { self.new ≡ Talking at_first_line [] }
    {
        self.attached = true;
        self.reader.restart();
        self.output.clear();
    }

    /// It ended or failed: what waited for it isn't told any more.
    pub fn depart(&mut self)
        ensures { self.new ≡ NobodyThere }
    {
        self.attached = false;
    }

    /// Tells a line; nobody is told where nobody is there. After want of memory all is as it was.
    pub fn tell(&mut self, notice: &Notice<'_>) -> Result<(), NoMemory>
        ensures ok { OnOk result (self.new ≡ told_at_port (notice_text (notice_lent notice.now)) self.old) }
        ensures err { OnErr result (self.new ≡ self.old) }
    {
        if !self.attached {
            return Ok(());
        }
        self.line.clear();
        print_notice(notice, &mut self.line)?;
        self.output.extend_from_slice(self.line.as_slice())?;
        Ok(())
    }

    /// Lends the octets that wait for the application.
    pub fn output(&self) -> &[u8]
        ensures { result.now ≡ output_of self.now }
    {
        if !self.attached {
            return &[];
        }
        self.output.as_slice()
    }

    /// The application took so many of them.
    pub fn written(&mut self, count: usize)
        requires { count ≤ length (output_of self.old) }
        ensures { self.new ≡ written_at_port count self.old }
    {
        self.output.advance(count);
    }

    /// Octets came from an application that is there: takes them up to the first that ends a line or makes it too long. After want of memory the port
    /// is of no more use.
    pub fn hear(&mut self, alloc: Global, octets: &[u8]) -> Result<TakenLine, NoMemory>
        requires { is_attached (attendance_of self.old) ≡ true }
        ensures within { IfOk result (λ taken. taken.used ≤ length octets.now) }
        ensures moves { IfOk result (λ taken. 0 < length octets.now → 0 < taken.used) }
        ensures hears { IfOk result (λ taken. HearsAtPort self.old self.new (take taken.used octets.now) taken.line) }
        ensures range { IfOk result (λ taken. IfSome taken.line (λ line. IsApplicationLineInRange line)) }
    {
        self.reader.take(alloc, octets)
    }
}

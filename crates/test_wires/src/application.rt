//! An application that comes to the wires: who may, and the file at which it does.

use crate::peers::{read_soon, soon, told};
use crate::scripts::happens;
use link_trait::{Conn, Happening, ReadAnswer, Wires};
use mio_wires::MioWires;
use std::io::{Read, Write};
use std::os::unix::fs::{FileTypeExt, MetadataExt};
use std::os::unix::net::{UnixListener, UnixStream};
use std::test::Fail;
use std::{env, fs, io, process};

// The address at which an application comes, with a file name of this process and this word.
pub fn application_address(rt: HostRuntime, word: &str) -> Result<String, Fail> {
    let folder = env::temp_dir(&rt)?;
    let folder = folder.to_string_lossy();
    let process = process::id(rt.process());
    Ok(format!(in rt.alloc(); "unix:{folder}/euroradio-{process}-{word}")?)
}

// The file name of such an address.
pub fn name_of(address: &str) -> &str {
    address.strip_prefix("unix:").unwrap_or(address)
}

// Whether nothing is told in three turns.
fn is_quiet<W: Wires>(rt: HostRuntime, wires: &mut W) -> io::Result<bool> {
    for _ in 0..3 {
        if wires.turn(Some(soon(rt)?)) != Happening::Quiet {
            return Ok(false);
        }
    }
    Ok(true)
}

// Whether an application is told, another one is closed at once and the first is heard behind that, and the next one is told behind the close.
fn is_alone<W: Wires>(rt: HostRuntime, wires: &mut W, name: &str) -> io::Result<bool> {
    let mut first = UnixStream::connect(&rt, name)?;
    let has_come = happens(rt, wires, Happening::Writable(Conn(0)))?;
    let mut second = UnixStream::connect(&rt, name)?;
    let is_closed = is_quiet(rt, wires)? && second.read(&mut [0; 1])? == 0;
    first.write_all(b"octets")?;
    let is_heard = read_soon(rt, wires, Conn(0), &mut [0; 10])? == ReadAnswer::Some(6);
    wires.close(Conn(0));
    let _third = UnixStream::connect(&rt, name)?;
    let comes_again = happens(rt, wires, Happening::Writable(Conn(0)))?;
    Ok(has_come && is_closed && is_heard && comes_again)
}

// Whether a listen fails, and why.
fn refuses(
    rt: HostRuntime,
    wires: &mut MioWires<HostRuntime>,
    address: &str,
    why: &str,
) -> Result<bool, Fail> {
    Ok(wires.listen(address).is_err() && told(rt, wires)?.as_str() == why)
}

// Whether a name that is none is refused, and a file that is no socket, which stays.
fn keeps_files(
    rt: HostRuntime,
    wires: &mut MioWires<HostRuntime>,
    address: &str,
) -> Result<bool, Fail> {
    let name = name_of(address);
    fs::write(&rt, name, b"kept")?;
    let is_refused = refuses(rt, wires, address, "a file that is no socket stands there")?;
    let is_kept = fs::metadata(&rt, name)?.len() == 4;
    fs::remove_file(&rt, name)?;
    let is_no_name = refuses(rt, wires, "unix:", "no file name of 1 to 107 octets")?;
    Ok(is_refused && is_kept && is_no_name)
}

// Whether a socket at which nobody listens is replaced by one that is its owner's alone.
fn replaces_a_socket(
    rt: HostRuntime,
    wires: &mut MioWires<HostRuntime>,
    address: &str,
) -> Result<bool, Fail> {
    let name = name_of(address);
    drop(UnixListener::bind(&rt, name)?);
    let is_replaced = wires.listen(address).is_ok();
    let found = fs::symlink_metadata(&rt, name)?;
    let is_private = found.file_type().is_socket() && found.mode() & 0o777 == 0o600;
    Ok(is_replaced && is_private)
}

// Whether nobody else can listen there, the file is gone at the end, and one that took its name isn't.
fn removes_its_file(
    rt: HostRuntime,
    wires: &mut MioWires<HostRuntime>,
    address: &str,
) -> Result<bool, Fail> {
    let name = name_of(address);
    let is_taken = refuses(rt, wires, address, "Address already in use (os error 98)")?;
    wires.finish(10);
    let is_gone = !fs::exists(&rt, name)?;
    let listens = wires.listen(address).is_ok();
    fs::remove_file(&rt, name)?;
    fs::write(&rt, name, b"kept")?;
    wires.finish(10);
    let is_kept = fs::exists(&rt, name)?;
    fs::remove_file(&rt, name)?;
    Ok(is_taken && is_gone && listens && is_kept)
}

// Whether wires show all of it.
fn is_shown(
    rt: HostRuntime,
    wires: &mut MioWires<HostRuntime>,
    address: &str,
) -> Result<bool, Fail> {
    Ok(
        keeps_files(rt, wires, address)?
            && replaces_a_socket(rt, wires, address)?
            && is_alone(rt, wires, name_of(address))?
            && removes_its_file(rt, wires, address)?,
    )
}

// The same of new wires: their one owner, so that they are let go in one place.
fn shows(rt: HostRuntime) -> Result<bool, Fail> {
    let address = application_address(rt, "file")?;
    let mut wires = MioWires::with_application(rt.alloc(), rt)?;
    let is_shown = is_shown(rt, &mut wires, address.as_str());
    drop(wires);
    is_shown
}

#[test]
fn one_application_comes_at_a_file_of_its_owner(rt: HostRuntime) -> Result<(), Fail> {
    assert!(rt; shows(rt)?);
    Ok(())
}

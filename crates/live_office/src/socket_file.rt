//! The file of a Unix socket.

ghost use Rattle.std.specs.Prelude.{◌≡◌};

use std::alloc::Global;
use std::fs;
use std::io::{self, ErrorKind};
use std::net::Net;
use std::os::unix::fs::{DirBuilderExt, FileTypeExt, PermissionsExt};
use std::os::unix::net::{SocketAddr, UnixListener};
use std::rt::Files;
use thiserror::Error;

/// Why there is no socket at a path.
#[derive(Clone, Copy, PartialEq, Eq, Debug, Error)]
pub enum SocketFault {
    /// The path is too long for a socket (107 bytes at most), or has a null byte. Nothing was changed.
    #[error("the path is too long for a socket")]
    Path,
    /// Something else is at the path. Nothing was changed.
    #[error("what is at the path is no socket")]
    NotASocket,
    /// The system refused it. A socket may be at the path, at which no process listens.
    #[error("the socket could not be made")]
    Bind,
}

// The mode of a file that its owner alone reads and writes.
const OWNER_ONLY: u32 = 0o600;

// The mode of a folder that its owner alone enters.
const OWNER_ENTERS: u32 = 0o700;

/// Whether a socket can be at this path: nothing is there yet, or a socket, which can be replaced. Nothing is changed.
///
/// `Path` and `NotASocket` say why not, and `Bind` that the system does not say what is there.
pub fn check_socket<F: Files>(files: &F, path: &str) -> Result<(), SocketFault> {
    if SocketAddr::from_pathname(path).is_err() {
        return Err(SocketFault::Path);
    }
    match fs::symlink_metadata(files, path) {
        Ok(about) if about.file_type().is_socket() => Ok(()),
        Ok(_) => Err(SocketFault::NotASocket),
        Err(error) if error.kind() == ErrorKind::NotFound => Ok(()),
        Err(_) => Err(SocketFault::Bind),
    }
}

// A listener at this path, to which its owner alone may connect.
fn bound<H: Files + Net>(host: &H, path: &str) -> io::Result<UnixListener> {
    let listener = UnixListener::bind(host, path)?;
    fs::set_permissions(host, path, fs::Permissions::from_mode(OWNER_ONLY))?;
    Ok(listener)
}

// Removes a folder that a stop left, with the socket in it. What is no folder stays, and so does one with anything else.
fn remove_left<F: Files>(files: &F, folder: &str, within: &str) {
    if let Ok(about) = fs::symlink_metadata(files, folder) {
        if about.is_dir() && check_socket(files, within).is_ok() {
            let _ = fs::remove_file(files, within);
            let _ = fs::remove_dir(files, folder);
        }
    }
}

// The same by way of a path in a new folder, which its owner alone may enter: so nobody else can connect before the mode of
// the socket is set. A folder that a stop left is made anew.
fn bound_within<H: Files + Net>(
    host: &H,
    alloc: Global,
    folder: &str,
    path: &str,
) -> io::Result<UnixListener> {
    let within = format!(in alloc; "{folder}/s")?;
    remove_left(host, folder, within.as_str());
    fs::DirBuilder::new()
        .mode(OWNER_ENTERS)
        .create(host, folder)?;
    let listener = bound(host, within.as_str())?;
    fs::rename(host, within.as_str(), path)?;
    let _ = fs::remove_dir(host, folder);
    Ok(listener)
}

// Listens at a socket at this path, in place of one that was there. It is made in this folder.
pub(crate) fn bind_socket<H: Files + Net>(
    host: &H,
    alloc: Global,
    folder: &str,
    path: &str,
) -> Result<UnixListener, SocketFault> {
    check_socket(host, path)?;
    match bound_within(host, alloc, folder, path) {
        Ok(listener) => Ok(listener),
        Err(_) => Err(SocketFault::Bind),
    }
}

/// Removes the socket of a door, if it is there, once the office is closed.
pub fn remove_socket<F: Files>(files: &F, path: &str) {
    let _ = fs::remove_file(files, path);
}

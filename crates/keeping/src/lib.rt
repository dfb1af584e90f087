// A file that is kept by writing it anew: the new text goes into a new file beside it, which then takes its name. Whatever stops the program, the file
// holds the old text or the new one, whole. A third file says that the file is in hand: as long as it is there, no other program can make it.
//
// The name of the new file is that of the file and ".new": the caller lends it, and says how long the file's own name is.
#![tactic(auto)]

ghost use Rattle.std.specs.Prelude.{◌≤◌, length, IfOk, IfSome};
ghost use Rattle.keeping.specs.Folders.{FolderEnd};

use std::fs::{File, OpenOptions};
use std::io::{Error, ErrorKind};
use std::{fs, str};

// Something could not be done, and standard error has said why.
#[derive(Clone, Copy, Debug, PartialEq, Eq)]
pub struct Told;

// Tells what failed and why.
fn tell_failure(rt: &HostRuntime, what: &[u8], error: &Error) -> Told {
    streams::fail(rt, what, error);
    Told
}

// Tells that another program has the file in hand, or had it when it was stopped.
fn tell_busy(rt: &HostRuntime, busy: &[u8]) {
    streams::tell(rt, b"the book is busy: there is a file ");
    streams::tell(rt, busy);
    streams::tell(
        rt,
        b". Another program has the book in hand, or was stopped while it had. If none is running, remove that file and start again: the book is whole\n",
    );
}

// Tells that a new file was left behind.
fn tell_left(rt: &HostRuntime, new: &[u8]) {
    streams::tell(rt, b"there is a file ");
    streams::tell(rt, new);
    streams::tell(
        rt,
        b", left by a program that was stopped. It holds nothing that was answered: remove it and start again\n",
    );
}

// A file's name as std takes one: as text. One that is not UTF-8 names no file.
fn name_of(name: &[u8]) -> Result<&str, Error> {
    match str::from_utf8(name) {
        Ok(text) => Ok(text),
        Err(_) => Err(Error::new(ErrorKind::InvalidInput, "the name is not UTF-8")),
    }
}

// Opens a file, or a folder, to be read.
fn open(rt: &HostRuntime, name: &[u8]) -> Result<File, Error> {
    fs::open(rt, name_of(name)?)
}

// Makes a file that is not there yet, to be written.
fn create(rt: &HostRuntime, name: &[u8]) -> Result<File, Error> {
    OpenOptions::new()
        .write(true)
        .create_new(true)
        .open(rt, name_of(name)?)
}

// Removes a file.
fn remove(rt: &HostRuntime, name: &[u8]) -> Result<(), Error> {
    fs::remove_file(rt, name_of(name)?)
}

// Gives a file another name, at which there may be a file already.
fn rename(rt: &HostRuntime, from: &[u8], to: &[u8]) -> Result<(), Error> {
    fs::rename(rt, name_of(from)?, name_of(to)?)
}

// What the system says of a name itself, and not of what a link leads to.
fn said_of(rt: &HostRuntime, name: &[u8]) -> Result<fs::Metadata, Error> {
    fs::symlink_metadata(rt, name_of(name)?)
}

// Whether a name is a link's.
fn is_link(rt: &HostRuntime, name: &[u8]) -> bool {
    match said_of(rt, name) {
        Ok(said) => said.is_symlink(),
        Err(_) => false,
    }
}

// Tests that a name is a file's own. A link's is not: the new file would take its place, and there would be two books.
pub fn test_own(rt: &HostRuntime, name: &[u8]) -> Result<(), Told> {
    if !is_link(rt, name) {
        return Ok(());
    }
    streams::tell(rt, name);
    streams::tell(
        rt,
        b" is a link: name the file itself, so that the book has one name\n",
    );
    Err(Told)
}

// Makes a file that is not there yet. If it is there, `tell_there` tells what that means.
fn make<F: Fn()>(rt: &HostRuntime, name: &[u8], tell_there: F) -> Result<File, Told>
    requires { F.IsAlwaysCallable tell_there }
{
    match create(rt, name) {
        Ok(made) => Ok(made),
        Err(error) => {
            if error.kind() == ErrorKind::AlreadyExists {
                tell_there();
                return Err(Told);
            }
            Err(tell_failure(rt, name, &error))
        }
    }
}

// Takes a file in hand: makes the file that says so.
pub fn take(rt: &HostRuntime, busy: &[u8]) -> Result<File, Told> {
    make(rt, busy, || tell_busy(rt, busy))
}

// Lets a file go that is in hand.
pub fn leave(rt: &HostRuntime, busy: &[u8], held: File) {
    drop(held);
    if let Err(error) = remove(rt, busy) {
        streams::fail(rt, busy, &error);
    }
}

// Tests that there is no new file. Of one that is there, standard error says what to do: the file is in hand, so no program is at it.
pub fn test_clear(rt: &HostRuntime, new: &[u8]) -> Result<(), Told> {
    match open(rt, new) {
        Err(_) => Ok(()),
        Ok(left) => {
            drop(left);
            tell_left(rt, new);
            Err(Told)
        }
    }
}

// How many bytes of a file's name are its folder's: up to the last slash, and that too; none where it has no slash.
fn folder(file: &[u8]) -> usize
    ensures { FolderEnd file.now result }
{
    match file.iter().rposition(|byte| *byte == b'/') {
        Some(slash) => slash + 1,
        None => 0,
    }
}

// Opens a file's folder.
fn open_folder(rt: &HostRuntime, file: &[u8]) -> Result<File, Error> {
    let end = folder(file);
    if end == 0 {
        return open(rt, b".");
    }
    open(rt, &file[..end])
}

// Has the disk hold what a folder says of its files; an error where that could not be done.
fn sync_folder(rt: &HostRuntime, file: &[u8]) -> Result<(), Error> {
    let at = open_folder(rt, file)?;
    at.sync_all()
}

// Reads a file until it ends or buf is full, and has the disk hold it under its name: a program that was stopped may have written it and not seen to
// that, and what is answered from it must not be lost. Says how many bytes there are, or that there is no such file.
pub fn read(rt: &HostRuntime, file: &[u8], buf: &mut [u8]) -> Result<Option<usize>, Told>
    ensures { IfOk result (λ held. IfSome held (λ count. count ≤ length buf.new)) }
{
    match open(rt, file) {
        Ok(from) => Ok(Some(read_open(rt, file, from, buf)?)),
        Err(error) => {
            if error.kind() == ErrorKind::NotFound {
                return Ok(None);
            }
            Err(tell_failure(rt, file, &error))
        }
    }
}

// The same of a file that is open.
fn read_open(rt: &HostRuntime, file: &[u8], from: File, buf: &mut [u8]) -> Result<usize, Told>
    ensures { IfOk result (λ count. count ≤ length buf.new) }
{
    let mut from = from;
    let taken = streams::read_file(rt, &mut from, buf);
    match hold_read(rt, file, from) {
        Ok(()) => taken.ok_or(Told),
        Err(error) => Err(tell_failure(rt, file, &error)),
    }
}

// Has the disk hold a file that was read, under its name, and closes it.
fn hold_read(rt: &HostRuntime, file: &[u8], from: File) -> Result<(), Error> {
    from.sync_all()?;
    drop(from);
    sync_folder(rt, file)
}

// Writes a whole text to a file, has the disk hold it, and closes the file; an error where that could not be done.
fn put_down(to: File, text: &[u8]) -> Result<(), Error> {
    let mut to = to;
    streams::write_to(&mut to, text)?;
    to.sync_all()
}

// Tells that the new text is not kept, and removes the new file.
fn not_kept(rt: &HostRuntime, new: &[u8], error: &Error) -> Told {
    let told = tell_failure(
        rt,
        b"the book could not be written, and is as it was",
        error,
    );
    let _ = remove(rt, new);
    told
}

// Writes a new text to its new file, which then takes the file's name.
fn replace(rt: &HostRuntime, new: &[u8], file: &[u8], to: File, text: &[u8]) -> Result<(), Error> {
    put_down(to, text)?;
    rename(rt, new, file)
}

// Keeps a new text in a file that is in hand: where this answers Ok, it is on disk, under the file's name.
pub fn keep(rt: &HostRuntime, new: &[u8], long: usize, text: &[u8]) -> Result<(), Told>
    requires { long ≤ length new.now }
{
    let file = &new[..long];
    let to = make(rt, new, || tell_left(rt, new))?;
    if let Err(error) = replace(rt, new, file, to, text) {
        return Err(not_kept(rt, new, &error));
    }
    match sync_folder(rt, file) {
        Ok(()) => Ok(()),
        Err(error) => Err(tell_failure(
            rt,
            b"the book is written, but the disk does not say that it holds it",
            &error,
        )),
    }
}

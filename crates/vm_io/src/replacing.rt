// A real file replaced as a whole: the bytes are written into a part beside it, which then takes its place.
use std::alloc::Global;
use std::fs::{self, File, OpenFile, OpenOptions, Permissions};
use std::io::{self, ErrorKind, Write};
use std::rt::Files;

// Parts that may lie beside a file. One is left where a program was ended while it wrote.
const PARTS: u32 = 1000;

/// Makes a file hold just these bytes. Where it fails a file is as it was.
/// A link is followed. What holds no bytes, as a device or a pipe, is written to where it is.
pub fn replace_file<R: Files>(rt: &R, alloc: Global, name: &str, bytes: &[u8]) -> io::Result<()> {
    match OpenOptions::new().write(true).open(rt, name) {
        Ok(mut old) => {
            let about = old.metadata()?;
            if !about.is_file() {
                return old.write_all(bytes);
            }
            let place = rt.canonicalize(alloc, name)?;
            replace_at(rt, alloc, place.as_str(), bytes, Some(about.permissions()))
        }
        Err(e) if e.kind() == ErrorKind::NotFound => replace_at(rt, alloc, name, bytes, None),
        Err(e) => Err(e),
    }
}

// Writes the bytes into a part with a name that is free, and puts it in its place.
fn replace_at<R: Files>(
    rt: &R,
    alloc: Global,
    place: &str,
    bytes: &[u8],
    permissions: Option<Permissions>,
) -> io::Result<()> {
    for number in 0..PARTS {
        let part = format!(in alloc; "{place}.part{number}")?;
        match OpenOptions::new()
            .write(true)
            .create_new(true)
            .open(rt, part.as_str())
        {
            Ok(file) => return move_part(rt, file, part.as_str(), place, bytes, permissions),
            Err(e) if e.kind() == ErrorKind::AlreadyExists => {}
            Err(e) => return Err(e),
        }
    }
    Err(io::Error::from(ErrorKind::AlreadyExists))
}

// Fills the part and gives it the file's name. It is removed where that fails.
fn move_part<R: Files>(
    rt: &R,
    mut file: R::File,
    part: &str,
    place: &str,
    bytes: &[u8],
    permissions: Option<Permissions>,
) -> io::Result<()> {
    match fill(&mut file, bytes, permissions) {
        Ok(()) => {}
        Err(e) => {
            drop_part(rt, part);
            return Err(e);
        }
    }
    match rt.rename(part, place) {
        Ok(()) => {
            sync_folder(rt, place);
            Ok(())
        }
        Err(e) => {
            drop_part(rt, part);
            Err(e)
        }
    }
}

// Writes all bytes, and waits until the storage has them.
fn fill<F: Write + OpenFile>(
    file: &mut F,
    bytes: &[u8],
    permissions: Option<Permissions>,
) -> io::Result<()> {
    file.write_all(bytes)?;
    if let Some(permissions) = permissions {
        file.set_permissions(permissions)?;
    }
    file.sync_all()
}

// A part that can't be removed is left where it is.
fn drop_part<R: Files>(rt: &R, part: &str) {
    match fs::remove_file(rt, part) {
        Ok(()) | Err(_) => {}
    }
}

// Waits until the storage has the new name. The file has its bytes by then, so where a system can't do that nothing is told.
fn sync_folder<R: Files>(rt: &R, place: &str) {
    let folder = match place.rsplit_once('/') {
        Some((folder, _)) => { if folder.is_empty() { "/" } else { folder } }
        None => ".",
    };
    if let Ok(file) = File::open(rt, folder) {
        match file.sync_all() {
            Ok(()) | Err(_) => {}
        }
    }
}

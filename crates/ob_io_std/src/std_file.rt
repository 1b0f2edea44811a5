//! A file of std, none of whose calls is observable.
ghost use Rattle.std.specs.Prelude.{None};

use crate::again::{TRIES, given_up, is_interrupted};
use crate::system::{Access, Identity, SystemFile};
use std::alloc::Global;
use std::fs::Metadata;
use std::os::fd::AsRawFd;
use std::os::unix::fs::{FileExt, MetadataExt, OpenOptionsExt};
use std::path::Path;
use std::{fs, io};

/// One file of std, over the files that a runtime opens, as `&HostRuntime`.
#[derive(Drop)]
pub struct StdFile<R> {
    alloc: Global,
    host: R,
    file: Option<fs::File>,
}

// The rights of a file that is made: its owner reads and writes it, and nobody else.
const OWNER_ALONE: u32 = 0o600;

// What a call answers where no file is open.
fn lacking() -> io::Error {
    io::Error::from(io::ErrorKind::NotFound)
}

// What the system knows of the file of a name.
fn metadata_of<R: fs::Files<File = fs::File>>(host: &R, name: &str) -> io::Result<Metadata> {
    'tries: for _ in 0..TRIES {
        match host.metadata(name) {
            Ok(metadata) => return Ok(metadata),
            Err(error) => {
                if !is_interrupted(error) {
                    return Err(error);
                }
            }
        }
    }
    Err(given_up())
}

fn identity_in(metadata: &Metadata) -> Identity {
    Identity {
        device: metadata.dev(),
        inode: metadata.ino(),
    }
}

// Opens the file of this name, and makes it where it is missing and is to be written.
fn open<R: fs::Files<File = fs::File>>(
    host: &R,
    name: &str,
    access: Access,
) -> io::Result<fs::File> {
    let writes = access == Access::ReadWrite;
    fs::OpenOptions::new()
        .read(true)
        .write(writes)
        .create(writes)
        .mode(OWNER_ALONE)
        .open(host, name)
}

// Syncs the folder in which a path lies.
fn sync_parent<R: fs::Files<File = fs::File>>(host: &R, path: Path<'_>) -> io::Result<()> {
    match path.parent() {
        Some(folder) if folder.as_str().is_empty() => fs::open(host, ".")?.sync_all(),
        Some(folder) => fs::open(host, folder)?.sync_all(),
        None => Err(lacking()),
    }
}

impl<R> StdFile<R> {
    /// No file is open yet.
    pub fn new(alloc: Global, host: R) -> Self {
        StdFile {
            alloc,
            host,
            file: None,
        }
    }

    // The file that is open.
    fn opened(&self) -> io::Result<&fs::File> {
        match &self.file {
            Some(file) => Ok(file),
            None => Err(lacking()),
        }
    }

    // What the system knows of it.
    fn metadata(&self) -> io::Result<Metadata> {
        self.opened()?.metadata()
    }

    /// Reads the bytes from an offset on. It is for who tells a person of a file, and no call of a disk.
    pub fn look(&self, at: u64, into: &mut [u8]) -> io::Result<()> {
        self.opened()?.read_exact_at(into, at)
    }

    /// How many bytes the file has, for the same use.
    pub fn count(&self) -> io::Result<u64> {
        Ok(self.metadata()?.len())
    }
}

impl<R: fs::Files<File = fs::File>> SystemFile for StdFile<R> {
    ghost calls = { λ file. None };

    fn kind_of(&mut self, name: &str) -> io::Result<bool> {
        Ok(metadata_of(&self.host, name)?.is_file())
    }

    fn open(&mut self, name: &str, access: Access) -> io::Result<()> {
        self.file = None;
        self.file = Some(open(&self.host, name, access)?);
        Ok(())
    }

    fn close(&mut self) {
        self.file = None;
    }

    fn kind(&mut self) -> io::Result<bool> {
        Ok(self.metadata()?.is_file())
    }

    fn identity(&mut self) -> io::Result<Identity> {
        Ok(identity_in(&self.metadata()?))
    }

    fn descriptor(&mut self) -> io::Result<u32> {
        match u32::try_from(self.opened()?.as_raw_fd()) {
            Ok(number) => Ok(number),
            Err(_) => Err(lacking()),
        }
    }

    fn identity_of(&mut self, name: &str) -> io::Result<Identity> {
        Ok(identity_in(&metadata_of(&self.host, name)?))
    }

    fn lock(&mut self) -> io::Result<()> {
        self.opened()?.try_lock()?;
        Ok(())
    }

    // Of a name that is no link the folder is the front of the name: the folders above it need no name in UTF-8.
    fn sync_folder(&mut self, name: &str) -> io::Result<()> {
        if self.host.symlink_metadata(name)?.is_symlink() {
            let path = self.host.canonicalize(self.alloc, name)?;
            sync_parent(&self.host, path.as_path())
        } else {
            sync_parent(&self.host, Path::new(name))
        }
    }

    fn len(&mut self) -> io::Result<u64> {
        self.count()
    }

    fn read_at(&mut self, at: u64, into: &mut [u8]) -> io::Result<usize> {
        self.opened()?.read_at(into, at)
    }

    fn write_at(&mut self, at: u64, bytes: &[u8]) -> io::Result<usize> {
        self.opened()?.write_at(bytes, at)
    }

    fn sync(&mut self) -> io::Result<()> {
        self.opened()?.sync_data()
    }
}

// What files are fetched from, by name.
ghost use Rattle.std.specs.Prelude.{◌≡◌, ◌↔◌, ◌≤◌, ℕ, List, Option, None, Some, Ok, IfOk, IfSome, IsErrOf, IsTrue};
ghost use Rattle.std.specs.Option.{option_map};
ghost use Rattle.mq_io.specs.Causes.{Rose};
ghost use Rattle.mq_io.specs.Calls.{no_calls, is_due, after_call};
ghost use Rattle.mq_io.specs.FileList.{file_list, file_of};
ghost use Rattle.mq_io.specs.FileNames.{IsFileName};
ghost use Rattle.mq_io.specs.Files.{IsAnswer, IsWithin, count_after};

use crate::calls::CallCount;
use crate::faults::IoFault;
use std::io::{ErrorKind, Read};
use std::marker::Model;
use std::path::Path;
use std::rt::Files;
use std::{fs, io};

/// What a shelf answers (docs/MEANING.md, "The outside").
#[derive(Debug, Drop, PartialEq)]
pub enum Fetched {
    /// The file's bytes, within the limit.
    Bytes(Vec<u8>),
    /// No file has that name.
    Absent,
    /// The file has more bytes than the limit.
    TooLong,
}

/// Where whole files come from, by name (docs/MEANING.md, "The outside").
pub trait Shelf {
    /// The map from names to bytes, where it tells it.
    ghost files: { Self → Option (List ℕ → Option (List ℕ)) };

    /// How often it failed.
    ghost faults: { Self → ℕ };

    /// The bytes of the file of that name, if it has at most `limit` of them. No call changes the
    /// files. `Failed` comes where the shelf failed, `Memory` where memory ran out.
    fn fetch(&mut self, name: &str, limit: u32) -> Result<Fetched, IoFault>
        ensures answer { IfSome (files self.old)
            (λ file. IfOk result (IsAnswer limit (file name.now))) }
        ensures files { files self.new ≡ files self.old }
        ensures later { faults self.old ≤ faults self.new }
        ensures failed { IsErrOf result IoFault.Failed → Rose (faults self.old) (faults self.new) };
}

/// A shelf in memory, which fails at the calls that it is told.
#[derive(Drop)]
pub struct MapShelf {
    files: Vec<(String, Vec<u8>)>,
    calls: CallCount,
}

impl Model for MapShelf {
    ghost use Rattle.mq_io.specs.FileList.{file_list};
    ghost use Rattle.mq_io.specs.InMemory.{Files};

    ghost Value = { Files };

    ghost view = { λ s. record { files = file_list s.files.items; calls = s.calls } };
}

impl MapShelf {
    /// A shelf of these files, each a name and its bytes; no two have one name. `failing` holds the
    /// numbers of the calls that are to fail, counted from 1.
    pub fn new(files: Vec<(String, Vec<u8>)>, failing: Vec<u64>) -> Self
        ensures { result ≡ record {
          files = file_list files.items;
          calls = no_calls failing.items;
        } }
    {
        MapShelf {
            files,
            calls: CallCount::new(failing),
        }
    }
}

impl Shelf for MapShelf {
    ghost files = { λ s. Some (file_of s.files) };

    ghost faults = { λ s. s.calls.failed };

    fn fetch(&mut self, name: &str, limit: u32) -> Result<Fetched, IoFault>
        ensures answer { IfOk result (IsAnswer limit (file_of self.old.files name.now)) }
        ensures files { self.new.files ≡ self.old.files }
        ensures later { self.old.calls.failed ≤ self.new.calls.failed }
        ensures failed { IsErrOf result IoFault.Failed
            → Rose self.old.calls.failed self.new.calls.failed }

        // Which calls fail.
        ensures due { IsErrOf result IoFault.Failed ↔ IsTrue (is_due self.old.calls) }
        ensures counted { self.new.calls ≡ after_call self.old.calls }
    {
        if self.calls.fails_next() {
            return Err(IoFault::Failed);
        }
        match find_file(&self.files, name) {
            None => Ok(Fetched::Absent),
            Some(bytes) if bytes.len() > limit as usize => Ok(Fetched::TooLong),
            Some(bytes) => Ok(Fetched::Bytes(bytes.clone()?)),
        }
    }
}

// The bytes of the first file of that name.
fn find_file<'a>(files: &'a [(String, Vec<u8>)], name: &str) -> Option<&'a Vec<u8>>
    ensures { option_map (λ bytes. bytes.now.items) result
        ≡ file_of (file_list files.now) name.now }
{
    for (file_name, bytes) in files {
        if file_name.as_str() == name {
            return Some(bytes);
        }
    }
    None
}

/// A shelf of the files that stand in a folder of the host. It tells no content. A name that is empty,
/// holds a slash or begins with a dot is absent, as is one where the host finds nothing; every other
/// error of the host is counted as a fault, but for want of memory, which is `Memory`.
#[derive(Drop)]
pub struct FolderShelf<'a, R> {
    rt: &'a R,
    folder: &'a str,
    faults: u64,
}

// Contracts see the count of its faults.
impl<'a, R> Model for FolderShelf<'a, R> {
    ghost Value = { ℕ };

    ghost view = { λ s. s.faults };
}

impl<'a, R> FolderShelf<'a, R> {
    /// A shelf over the folder at that path, with no fault yet. The current folder is `.`.
    pub fn new(rt: &'a R, folder: &'a str) -> Self
        ensures { result ≡ 0 }
    {
        FolderShelf {
            rt,
            folder,
            faults: 0,
        }
    }
}

impl<'a, R: Files + AllocGlobal> Shelf for FolderShelf<'a, R> {
    ghost files = { λ _. None };

    ghost faults = { λ s. s };

    fn fetch(&mut self, name: &str, limit: u32) -> Result<Fetched, IoFault>
        ensures later { self.old ≤ self.new }
        ensures failed { IsErrOf result IoFault.Failed → Rose self.old self.new }

        // Which names are asked for, how much comes, and what is counted.
        ensures absent { ¬ IsFileName name.now → result ≡ Ok Fetched.Absent }
        ensures within { IfOk result (IsWithin limit) }
        ensures counted { self.new ≡ count_after self.old result }
    {
        if !is_file_name(name) {
            return Ok(Fetched::Absent);
        }
        match read_file(self.rt, self.folder, name, limit) {
            Ok(fetched) => Ok(fetched),
            Err(error) if error.kind() == ErrorKind::OutOfMemory => Err(IoFault::Memory),
            Err(_) => {
                self.faults = self.faults.saturating_add(1);
                Err(IoFault::Failed)
            }
        }
    }
}

// Whether a folder is asked for a file of that name.
fn is_file_name(name: &str) -> bool
    ensures { IsTrue result ↔ IsFileName name.now }
{
    let bytes = name.as_bytes();
    match bytes.first() {
        None | Some(b'.') => false,
        Some(_) => !bytes.contains(&b'/'),
    }
}

// The file of that name in the folder. One byte more than the limit is read of it at most.
fn read_file<R: Files + AllocGlobal>(
    rt: &R,
    folder: &str,
    name: &str,
    limit: u32,
) -> io::Result<Fetched>
    ensures { IfOk result (IsWithin limit) }
{
    let path = Path::new(folder).join(rt.alloc(), name)?;
    let file = match fs::open(rt, path) {
        Ok(file) => file,
        Err(error) if error.kind() == ErrorKind::NotFound => return Ok(Fetched::Absent),
        Err(error) => return Err(error),
    };
    let mut bytes = Vec::new(rt.alloc());
    file.take(u64::from(limit) + 1).read_to_end(&mut bytes)?;
    if bytes.len() > limit as usize {
        Ok(Fetched::TooLong)
    } else {
        Ok(Fetched::Bytes(bytes))
    }
}

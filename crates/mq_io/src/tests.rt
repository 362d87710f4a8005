// Each call with ample memory, at the pieces and the failing calls of a table.
ghost use Rattle.std.specs.Prelude.{◌<◌};

use super::*;
use std::alloc::{AllocError, Global};
use std::fs::Permissions;
use std::io::{ErrorKind, Read};
use std::os::unix::fs::PermissionsExt;
use std::test::Fail;
use std::{fs, io};

// The most bytes that a script asks of a file.
const LARGE: u32 = 16_777_216;

fn source(alloc: Global, text: &str, failing: &[u64], piece: u32) -> Result<BytesSource, AllocError>
    requires { 0 < piece }
{
    let bytes = text.as_bytes().to_vec(alloc)?;
    Ok(BytesSource::new(bytes, failing.to_vec(alloc)?, piece))
}

fn sink(alloc: Global, failing: &[u64], piece: u32) -> Result<VecSink, AllocError>
    requires { 0 < piece }
{
    Ok(VecSink::new(alloc, failing.to_vec(alloc)?, piece))
}

fn read_some<S: Source>(source: &mut S) -> Result<usize, Failed> {
    source.read(&mut [0; 3])
}

fn fetch_some<F: Shelf>(shelf: &mut F, name: &str, limit: u32) -> Result<Fetched, IoFault> {
    shelf.fetch(name, limit)
}

fn pass<G: Gate>(gate: &G) {
    gate.enter(3);
}

#[test]
fn a_source_gives_pieces_and_fails_when_it_is_told(rt: HostRuntime) -> Result<(), Fail> {
    let mut five = source(rt.alloc(), "abcde", &[2, 4], 4)?;
    let answers = [Ok(3), Err(Failed), Ok(2), Err(Failed), Ok(0)];
    for answer in answers {
        assert_eq!(rt; read_some(&mut five), answer);
    }
    let mut buffer = [b'-'; 3];
    let mut two = source(rt.alloc(), "xyz", &[], 2)?;
    assert_eq!(rt; two.read(&mut buffer), Ok(2));
    assert_eq!(rt; buffer.as_slice(), b"xy-".as_slice());
    assert_eq!(rt; two.read(&mut []), Ok(0));
    assert_eq!(rt; two.read(&mut buffer), Ok(1));
    assert_eq!(rt; buffer.as_slice(), b"zy-".as_slice());
    Ok(())
}

#[test]
fn a_whole_source_is_read_up_to_the_limit(rt: HostRuntime) -> Result<(), Fail> {
    let hello = "hello";
    let cases: [(&str, &[u64], usize, Result<&str, ReadFault>); 7] = [
        (hello, &[], 5, Ok(hello)),
        (hello, &[], 6, Ok(hello)),
        (hello, &[], 4, Err(ReadFault::TooLong)),
        (hello, &[2], 5, Err(ReadFault::Failed)),
        (hello, &[4], 5, Err(ReadFault::Failed)),
        (hello, &[5], 5, Ok(hello)),
        ("", &[], 0, Ok("")),
    ];
    for (text, failing, limit, answer) in cases {
        let mut script = source(rt.alloc(), text, failing, 2)?;
        match (read_all(rt.alloc(), &mut script, limit), answer) {
            (Ok(bytes), Ok(text)) => assert_eq!(rt; bytes.as_slice(), text.as_bytes()),
            (Err(fault), Err(meant)) => assert_eq!(rt; fault, meant),
            _ => panic!(rt; "limit {limit}"),
        }
    }
    Ok(())
}

#[test]
fn a_sink_takes_pieces_and_fails_when_it_is_told(rt: HostRuntime) -> Result<(), Fail> {
    let alphabet = b"abcdefg".as_slice();
    let cases: [(&[u64], u32, Result<(), IoFault>, &[u8]); 4] = [
        (&[], 3, Ok(()), alphabet),
        (&[1], 3, Err(IoFault::Failed), b""),
        (&[3], 3, Err(IoFault::Failed), b"abcdef"),
        (&[4], 3, Ok(()), alphabet),
    ];
    for (failing, piece, answer, taken) in cases {
        let mut out = sink(rt.alloc(), failing, piece)?;
        assert_eq!(rt; write_all(&mut out, alphabet), answer);
        assert_eq!(rt; out.taken(), taken);
    }
    let mut out = sink(rt.alloc(), &[2], 3)?;
    assert_eq!(rt; out.write(alphabet), Ok(3));
    assert_eq!(rt; out.write(alphabet), Err(IoFault::Failed));
    assert_eq!(rt; out.write(b""), Ok(0));
    assert_eq!(rt; out.taken(), b"abc".as_slice());
    Ok(())
}

#[test]
fn a_shelf_answers_by_name_and_limit(rt: HostRuntime) -> Result<(), Fail> {
    let alloc = rt.alloc();
    let mut files = Vec::new(alloc);
    for (name, text) in [("a.csv", "1,2"), ("empty", "")] {
        let bytes = text.as_bytes().to_vec(alloc)?;
        files.push((String::from_str(alloc, name)?, bytes))?;
    }
    let mut shelf = MapShelf::new(files, [4].to_vec(alloc)?);
    let some = Fetched::Bytes(b"1,2".to_vec(alloc)?);
    assert_eq!(rt; fetch_some(&mut shelf, "a.csv", 3), Ok(some));
    assert_eq!(rt; fetch_some(&mut shelf, "a.csv", 2), Ok(Fetched::TooLong));
    assert_eq!(rt; fetch_some(&mut shelf, "a.cs", 9), Ok(Fetched::Absent));
    assert_eq!(rt; fetch_some(&mut shelf, "a.csv", 3), Err(IoFault::Failed));
    let none = Fetched::Bytes(Vec::new(alloc));
    assert_eq!(rt; fetch_some(&mut shelf, "empty", 0), Ok(none));
    Ok(())
}

// An empty folder of that name, whatever an earlier run left in it.
fn make_folder(rt: &HostRuntime, folder: &str) -> io::Result<()> {
    if fs::exists(rt, folder)? {
        fs::remove_dir_all(rt, folder)?;
    }
    fs::create_dir(rt, folder)
}

#[test]
fn a_folder_answers_by_name(rt: HostRuntime) -> Result<(), Fail> {
    for folder in ["named", "named/inner"] {
        make_folder(&rt, folder)?;
    }
    for path in ["named/.hidden", "named/inner/file"] {
        fs::write(&rt, path, "1,2")?;
    }
    // Hosts take no name as long as this.
    let long = "n".repeat(rt.alloc(), 300)?;
    let cases = [
        ("missing", Ok(Fetched::Absent)),
        ("", Ok(Fetched::Absent)),
        (".hidden", Ok(Fetched::Absent)),
        ("..", Ok(Fetched::Absent)),
        ("inner/file", Ok(Fetched::Absent)),
        ("inner/", Ok(Fetched::Absent)),
        ("inner", Err(IoFault::Failed)),
        ("a\0b", Err(IoFault::Failed)),
        (long.as_str(), Err(IoFault::Failed)),
    ];
    let mut shelf = FolderShelf::new(&rt, "named");
    for (name, answer) in cases {
        assert_eq!(rt; fetch_some(&mut shelf, name, 9), answer, "name {name}");
    }
    let bytes = Fetched::Bytes(b"1,2".to_vec(rt.alloc())?);
    assert_eq!(rt;
        FolderShelf::new(&rt, "named/inner").fetch("file", 9),
        Ok(bytes)
    );
    fs::remove_dir_all(&rt, "named")?;
    Ok(())
}

#[test]
fn a_folder_answers_by_limit(rt: HostRuntime) -> Result<(), Fail> {
    make_folder(&rt, "limited")?;
    fs::write(&rt, "limited/small", "1,2\n")?;
    fs::write(&rt, "limited/empty", "")?;
    let cases = [
        ("small", 9, Some("1,2\n")),
        ("small", 4, Some("1,2\n")),
        ("small", 3, None),
        ("small", 0, None),
        ("empty", 0, Some("")),
        ("small", u32::MAX, Some("1,2\n")),
    ];
    let mut shelf = FolderShelf::new(&rt, "limited");
    for (name, limit, text) in cases {
        let answer = match text {
            Some(text) => Fetched::Bytes(text.as_bytes().to_vec(rt.alloc())?),
            None => Fetched::TooLong,
        };
        assert_eq!(rt;
            fetch_some(&mut shelf, name, limit),
            Ok(answer),
            "limit {limit}"
        );
    }
    fs::remove_dir_all(&rt, "limited")?;
    Ok(())
}

#[test]
fn a_large_file_is_fetched_whole(rt: HostRuntime) -> Result<(), Fail> {
    make_folder(&rt, "large")?;
    let mut text = "0123456789abcdef".repeat(rt.alloc(), LARGE as usize / 16)?;
    fs::write(&rt, "large/whole", text.as_str())?;
    text.push('.')?;
    fs::write(&rt, "large/longer", text.as_str())?;
    text.pop();
    let bytes = Fetched::Bytes(text.into_bytes());
    let mut shelf = FolderShelf::new(&rt, "large");
    assert!(rt; shelf.fetch("whole", LARGE) == Ok(bytes));
    assert_eq!(rt; shelf.fetch("longer", LARGE), Ok(Fetched::TooLong));
    fs::remove_dir_all(&rt, "large")?;
    Ok(())
}

// The current folder. Some users may read every file: then there is no fault to see.
#[test]
fn a_file_that_may_not_be_read_is_a_fault(rt: HostRuntime) -> Result<(), Fail> {
    fs::write(&rt, "locked", "1,2")?;
    fs::set_permissions(&rt, "locked", Permissions::from_mode(0))?;
    let may_read = fs::read(&rt, "locked").is_ok();
    let fetched = FolderShelf::new(&rt, ".").fetch("locked", 2);
    fs::remove_file(&rt, "locked")?;
    let answer = if may_read {
        Ok(Fetched::TooLong)
    } else {
        Err(IoFault::Failed)
    };
    assert_eq!(rt; fetched, answer);
    Ok(())
}

#[derive(Drop)]
struct Broken;

impl Read for Broken {
    fn read(&mut self, _buf: &mut [u8]) -> io::Result<usize> {
        Err(io::Error::from(ErrorKind::Other))
    }
}

#[test]
fn a_reader_is_a_source(rt: HostRuntime) -> Result<(), Fail> {
    let mut text = ReaderSource::new(b"CREATE".as_slice());
    let bytes = read_all(rt.alloc(), &mut text, 6)?;
    assert_eq!(rt; bytes.as_slice(), b"CREATE".as_slice());
    assert_eq!(rt; read_some(&mut ReaderSource::new(Broken)), Err(Failed));
    pass(&OpenGate);
    Ok(())
}

#[test]
fn a_writer_is_a_sink(rt: HostRuntime) -> Result<(), Fail> {
    let mut taken = Vec::new(rt.alloc());
    write_all(&mut WriterSink::new(&mut taken), b"ok\n")?;
    assert_eq!(rt; taken.as_slice(), b"ok\n".as_slice());
    let mut room = [0; 2];
    let mut narrow = WriterSink::new(room.as_mut_slice());
    assert_eq!(rt; write_all(&mut narrow, b"ok\n"), Err(IoFault::Failed));
    assert_eq!(rt; room.as_slice(), b"ok".as_slice());
    Ok(())
}

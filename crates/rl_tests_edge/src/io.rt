//! Each object once on its happy path, with calls that are told to fail and with a room that is passed.
use rl_io::{
    DirFiles, Failed, FileRead, Files, Io, MemFiles, MemSink, MemSource, NullSink, OutOfMemory,
    Sink, Source, StdSink, StdSource, SureSource,
};
use std::fs;
use std::test::Fail;

#[test]
fn a_source_fails_at_its_second_read(rt: HostRuntime) -> Result<(), Fail> {
    let mut source = MemSource::new(rt.alloc(), b"abcd", &[2])?;
    let mut buf = [0u8; 3];
    assert_eq!(rt; source.read(&mut buf), Ok(3));
    assert_eq!(rt; &buf[..], b"abc".as_slice());
    assert_eq!(rt; source.read(&mut buf), Err(Failed));
    assert_eq!(rt; source.read(&mut buf), Ok(1));
    assert_eq!(rt; buf[0], b'd');
    assert_eq!(rt; source.read(&mut buf), Ok(0));
    Ok(())
}

#[test]
fn a_sink_fails_at_its_first_write_and_past_its_room(rt: HostRuntime) -> Result<(), Fail> {
    let mut sink = MemSink::new(rt.alloc(), 4, &[1])?;
    assert_eq!(rt; sink.write(b"a"), Err(Failed));
    assert_eq!(rt; sink.write(b"abc"), Ok(()));
    assert_eq!(rt; sink.write(b"de"), Err(Failed));
    assert_eq!(rt; sink.write(b"d"), Ok(()));
    assert_eq!(rt; sink.bytes(), b"abcd".as_slice());
    Ok(())
}

/// A call on a folder, and what it comes to.
enum Call {
    Put(&'static [u8], &'static [u8], bool),
    Get(&'static [u8], Option<&'static [u8]>),
    /// A read from an offset on into four bytes, which are 0, and these bytes then.
    Read(&'static [u8], u64, Result<FileRead, Failed>, &'static [u8]),
    Write(&'static [u8], &'static [u8], Result<(), Failed>),
}

/// Calls on a folder of 48 bytes whose third read or write fails.
const CALLS: [Call; 16] = [
    Call::Put(b"one", b"first", true),
    Call::Put(b"two", b"", true),
    Call::Put(b"one", b"0123456789", true),
    Call::Put(b"one", b"01234567890", false),
    Call::Put(b"three", b"", false),
    Call::Get(b"one", Some(b"0123456789")),
    Call::Get(b"two", Some(b"")),
    Call::Get(b"three", None),
    Call::Read(b"one", 8, Ok(FileRead::Piece(2)), b"89\0\0"),
    Call::Write(b"two", b"abcd", Err(Failed)),
    Call::Write(b"two", b"", Err(Failed)),
    Call::Write(b"one", b"ab", Ok(())),
    Call::Write(b"two", b"abcd", Ok(())),
    Call::Read(b"one", 2, Ok(FileRead::End), b"\0\0\0\0"),
    Call::Read(b"three", 0, Ok(FileRead::Missing), b"\0\0\0\0"),
    Call::Get(b"two", Some(b"abcd")),
];

/// Whether a folder has this file, or none of that name.
fn has(folder: &MemFiles, name: &[u8], want: Option<&[u8]>) -> bool {
    match (folder.get(name), want) {
        (Some(file), Some(bytes)) => file == bytes,
        (None, None) => true,
        _ => false,
    }
}

fn comes_to(folder: &mut MemFiles, call: &Call) -> bool {
    match call {
        Call::Put(name, bytes, want) => folder.put(name, bytes) == *want,
        Call::Get(name, want) => has(folder, name, *want),
        Call::Read(name, offset, want, bytes) => {
            let mut buf = [0u8; 4];
            let answer = folder.read_at(name, *offset, &mut buf);
            answer == *want && buf.as_slice() == *bytes
        }
        Call::Write(name, bytes, want) => folder.write(name, bytes) == *want,
    }
}

/// The first call that comes to something else.
fn first_wrong(folder: &mut MemFiles) -> Option<usize> {
    for (i, call) in CALLS.iter().enumerate() {
        if !comes_to(folder, call) {
            return Some(i);
        }
    }
    None
}

#[test]
fn a_folder_keeps_the_last_file_of_each_name(rt: HostRuntime) -> Result<(), Fail> {
    let mut folder = MemFiles::new(rt.alloc(), 48, &[3])?;
    assert_eq!(rt; first_wrong(&mut folder), None);
    Ok(())
}

fn copy_once<I: Source, O: Sink, N: Sink, F: Files>(
    io: Io<'_, I, O, N, F>,
) -> Result<usize, Failed> {
    let mut buf = [0u8; 8];
    let n = io.input.read(&mut buf)?;
    io.out.write(&buf[..n])?;
    io.notes.write(b"copied")?;
    io.files.write(b"copy", &buf[..n])?;
    Ok(n)
}

#[test]
fn all_parts_together(rt: HostRuntime) -> Result<(), Fail> {
    let mut out = MemSink::new(rt.alloc(), 8, &[])?;
    let mut files = MemFiles::new(rt.alloc(), 64, &[])?;
    let copied = copy_once(Io {
        input: &mut SureSource::new(b"hello"),
        out: &mut out,
        notes: &mut NullSink::new(),
        files: &mut files,
    });
    assert_eq!(rt; copied, Ok(5));
    assert_eq!(rt; out.bytes(), b"hello".as_slice());
    assert_eq!(rt; files.get(b"copy").ok_or("copy")?, b"hello".as_slice());
    Ok(())
}

#[test]
fn a_reader_and_a_writer_of_std(rt: HostRuntime) {
    let mut buf = [0u8; 4];
    let mut source = StdSource::new(b"abcdef".as_slice());
    assert_eq!(rt; source.read(&mut buf), Ok(4));
    assert_eq!(rt; source.read(&mut buf), Ok(2));
    assert_eq!(rt; source.read(&mut buf), Ok(0));
    let mut sink = StdSink::new(buf.as_mut_slice());
    assert_eq!(rt; sink.write(b"xyz"), Ok(()));
    assert_eq!(rt; sink.write(b"xyz"), Err(Failed));
}

#[test]
fn files_of_the_system(rt: HostRuntime) -> Result<(), Fail> {
    let name = "rl_io_files_of_the_system";
    let mut buf = [0u8; 4];
    let mut files = DirFiles::new(&rt);
    assert_eq!(rt;
        files.read_at(name.as_bytes(), 0, &mut buf),
        Ok(FileRead::Missing)
    );
    assert_eq!(rt; files.write(name.as_bytes(), b"abcdef"), Ok(()));
    assert_eq!(rt;
        files.read_at(name.as_bytes(), 4, &mut buf),
        Ok(FileRead::Piece(2))
    );
    assert_eq!(rt; &buf[..2], b"ef".as_slice());
    assert_eq!(rt;
        files.read_at(name.as_bytes(), 6, &mut buf),
        Ok(FileRead::End)
    );
    assert_eq!(rt;
        files.read_at(name.as_bytes(), 0, &mut []),
        Ok(FileRead::Piece(0))
    );
    assert_eq!(rt; files.read_at(b"\xff", 0, &mut buf), Ok(FileRead::Missing));
    assert_eq!(rt; files.write(b"\xff", b""), Err(Failed));
    assert_eq!(rt; files.write(b".", b""), Err(Failed));
    fs::remove_file(&rt, name)?;
    Ok(())
}

#[test]
fn too_large_a_room(rt: HostRuntime) {
    assert!(rt; MemSink::new(rt.alloc(), usize::MAX, &[]).err() == Some(OutOfMemory));
    assert!(rt; MemFiles::new(rt.alloc(), usize::MAX, &[]).err() == Some(OutOfMemory));
}

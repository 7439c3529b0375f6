//! Tests of the program's calls, with files and streams that fail among them. What the built program prints and answers is held
//! in the cases of the folder `cases`.
mod failures;
mod logs;
mod progress;
mod sources;

use command_line::program::program;
use runs::Nobody;
use std::alloc::{AllocError, Global};
use std::fs::File;
use std::net::{Net, TcpListener, TcpStream};
use std::process::Abort;
use std::rt::Files;
use std::sync::Wait;
use std::test::Fail;
use std::thread::Threads;
use std::{env, fs, io, process};

/// What the program wrote, and the status that it gave.
#[derive(Drop)]
struct Said {
    status: u8,
    out: String,
    err: String,
}

/// A step of a test on a file. In command lines and in what is written to `err`, `FILE` stands for its name; `FILE.s` is a
/// second file, for a source.
#[derive(Clone, Copy)]
enum Step {
    /// The source gets these bytes.
    Source(&'static [u8]),
    /// The file gets these bytes.
    File(&'static [u8]),
    /// The file is removed.
    Remove,
    /// The command line is answered by this alone, with status 0.
    Prints(&'static str, &'static str),
    /// The command line is answered by this line, on `err`, and maybe by words behind it, with status 1.
    Refuses(&'static str, &'static str),
    /// The file holds these bytes.
    Holds(&'static [u8]),
    /// The source holds these bytes.
    SourceHolds(&'static [u8]),
}

/// Makes the steps of a test on the file of this name, and removes its files.
fn play<R>(rt: &R, file: &str, steps: &[Step]) -> Result<(), Fail>
where
    R: Files<File = File>
        + AllocGlobal
        + Abort
        + Threads
        + Wait
        + Net<Listener = TcpListener, Stream = TcpStream>
        + Sync,
{
    for step in steps {
        make(rt, file, *step)?;
    }
    clear(rt, file)
}

fn make<R>(rt: &R, file: &str, step: Step) -> Result<(), Fail>
where
    R: Files<File = File>
        + AllocGlobal
        + Abort
        + Threads
        + Wait
        + Net<Listener = TcpListener, Stream = TcpStream>
        + Sync,
{
    match step {
        Step::Source(bytes) => write_source(rt, file, bytes),
        Step::File(bytes) => write(rt, file, bytes),
        Step::Remove => remove(rt, file),
        Step::Prints(line, out) => prints(rt, file, line, out),
        Step::Refuses(line, err) => refuses(rt, file, line, err),
        Step::Holds(bytes) => holds(rt, file, bytes),
        Step::SourceHolds(bytes) => holds(rt, source_of(rt.alloc(), file)?.as_str(), bytes),
    }
}

fn source_of(alloc: Global, file: &str) -> Result<String, AllocError> {
    format!(in alloc; "{file}.s")
}

fn write<R: Files + AllocGlobal>(rt: &R, file: &str, bytes: &[u8]) -> Result<(), Fail> {
    fs::write(rt, file, bytes)?;
    Ok(())
}

/// Removes a file if it is there.
fn remove<R: Files + AllocGlobal>(rt: &R, file: &str) -> Result<(), Fail> {
    if fs::exists(rt, file)? {
        fs::remove_file(rt, file)?;
    }
    Ok(())
}

/// Removes both files.
fn clear<R: Files + AllocGlobal>(rt: &R, file: &str) -> Result<(), Fail> {
    remove(rt, source_of(rt.alloc(), file)?.as_str())?;
    remove(rt, file)
}

fn write_source<R: Files + AllocGlobal>(rt: &R, file: &str, bytes: &[u8]) -> Result<(), Fail> {
    write(rt, source_of(rt.alloc(), file)?.as_str(), bytes)
}

fn holds<R: Files + AllocGlobal + Abort>(rt: &R, file: &str, bytes: &[u8]) -> Result<(), Fail> {
    let found = fs::read(rt, file)?;
    assert_eq!(rt; found.as_slice(), bytes);
    Ok(())
}

/// Asserts the status and both outputs. The tests share it, since each assertion in a function's own body makes its proof
/// much longer.
fn expect(rt: &impl Abort, line: &str, said: &Said, wanted: (u8, &str, &str)) {
    let found = (said.status, said.out.as_str(), said.err.as_str());
    assert_eq!(rt; found, wanted, "{line}");
}

fn prints<R>(rt: &R, file: &str, line: &str, out: &str) -> Result<(), Fail>
where
    R: Files<File = File>
        + AllocGlobal
        + Abort
        + Threads
        + Wait
        + Net<Listener = TcpListener, Stream = TcpStream>
        + Sync,
{
    let said = say(rt, line, file)?;
    expect(rt, line, &said, (0, out, ""));
    Ok(())
}

fn refuses<R>(rt: &R, file: &str, line: &str, err: &str) -> Result<(), Fail>
where
    R: Files<File = File>
        + AllocGlobal
        + Abort
        + Threads
        + Wait
        + Net<Listener = TcpListener, Stream = TcpStream>
        + Sync,
{
    let mut said = say(rt, line, file)?;
    let err = err.replace(rt.alloc(), "FILE", file)?;
    said.err = first_line(rt.alloc(), said.err.as_str())?;
    expect(rt, line, &said, (1, "", err.as_str()));
    Ok(())
}

/// The first line of a text, with its end; the words behind it are those of the cases.
fn first_line(alloc: Global, text: &str) -> Result<String, AllocError> {
    match text.split_once('\n') {
        Some((line, _)) => format!(in alloc; "{line}\n"),
        None => String::from_str(alloc, text),
    }
}

/// Runs the program on a command line, in which `FILE` stands for the name of a file.
fn say<R>(rt: &R, line: &str, file: &str) -> Result<Said, Fail>
where
    R: Files<File = File>
        + AllocGlobal
        + Threads
        + Wait
        + Net<Listener = TcpListener, Stream = TcpStream>
        + Sync,
{
    let words = words_of(rt.alloc(), line, file)?;
    let mut out = Vec::new(rt.alloc());
    let mut err = Vec::new(rt.alloc());
    let status = program(
        rt,
        words.as_slice(),
        &mut io::empty(),
        &mut out,
        &mut err,
        &mut Nobody,
    );
    Ok(Said {
        status,
        out: String::from_utf8(out)?,
        err: String::from_utf8(err)?,
    })
}

/// The words of a command line, which one blank parts from each other.
fn words_of(alloc: Global, line: &str, file: &str) -> Result<Vec<String>, AllocError> {
    let mut words = Vec::new(alloc);
    if !line.is_empty() {
        for word in line.split(' ') {
            words.push(word.replace(alloc, "FILE", file)?)?;
        }
    }
    Ok(words)
}

/// The name of a file of this process's own, for a test of this name.
fn file_of(rt: &HostRuntime, test: &str) -> io::Result<String> {
    let folder = env::temp_dir(rt)?;
    let id = process::id(rt.process());
    Ok(format!(in rt.alloc(); "{}/vmhost-{id}-{test}", folder.display())?)
}

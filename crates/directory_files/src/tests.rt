//! Tests on directories of the system's.
use crate::{files_of, is_directory};
use std::process::Abort;
use std::rt::Files;
use std::test::Fail;
use std::{env, fs, io, process};

/// The name of a directory for a test of this name.
fn directory_of(rt: &HostRuntime, test: &str) -> io::Result<String> {
    let folder = env::temp_dir(rt)?;
    let id = process::id(rt.process());
    Ok(format!(in rt.alloc(); "{}/directory_files-{id}-{test}", folder.display())?)
}

/// Makes a file of this name in a directory.
fn put<R: Files + AllocGlobal>(rt: &R, directory: &str, name: &str) -> io::Result<()> {
    let path = format!(in rt.alloc(); "{directory}/{name}")?;
    fs::write(rt, path.as_str(), b"")
}

/// Asserts the names that a directory has behind its own and a slash.
fn expect<R: Files + AllocGlobal + Abort>(
    rt: &R,
    directory: &str,
    names: &[&str],
) -> Result<(), Fail> {
    let mut wanted = String::new(rt.alloc());
    for name in names {
        wanted.push_str(directory)?;
        wanted.push('/')?;
        wanted.push_str(name)?;
        wanted.push('\n')?;
    }
    let mut found = String::new(rt.alloc());
    for path in &files_of(rt, directory)? {
        found.push_str(path.as_str())?;
        found.push('\n')?;
    }
    assert_eq!(rt; found.as_str(), wanted.as_str());
    Ok(())
}

#[test]
fn plain_files_in_the_order_of_their_bytes(rt: HostRuntime) -> Result<(), Fail> {
    let directory = directory_of(&rt, "order")?;
    let directory = directory.as_str();
    fs::create_dir(&rt, directory)?;
    expect(&rt, directory, &[])?;
    for name in ["b", "a.b", "B", "10", "9", "\u{e9}", ".hidden"] {
        put(&rt, directory, name)?;
    }
    let below = format!(in rt.alloc(); "{directory}/c")?;
    fs::create_dir(&rt, below.as_str())?;
    put(&rt, below.as_str(), "a")?;
    expect(
        &rt,
        directory,
        &[".hidden", "10", "9", "B", "a.b", "b", "\u{e9}"],
    )?;
    assert!(&rt; is_directory(&rt, directory) && is_directory(&rt, below.as_str()));
    fs::remove_dir_all(&rt, directory)?;
    assert!(&rt; !is_directory(&rt, directory) && files_of(&rt, directory).is_err());
    Ok(())
}

#[test]
fn a_file_is_no_directory(rt: HostRuntime) -> Result<(), Fail> {
    let directory = directory_of(&rt, "file")?;
    let directory = directory.as_str();
    fs::create_dir(&rt, directory)?;
    put(&rt, directory, "file")?;
    let file = format!(in rt.alloc(); "{directory}/file")?;
    assert!(&rt; !is_directory(&rt, file.as_str()) && files_of(&rt, file.as_str()).is_err());
    fs::remove_dir_all(&rt, directory)?;
    Ok(())
}

//! The inputs of `fuzz`, among which a directory stands for the files in it.
use commands::Fault;
use commands::fault::of_file;
use directory_files::{files_of, is_directory};
use fuzz_command::InputFile;
use std::alloc::{AllocError, Global};
use std::rt::Files;

/// A file with the input of a run.
#[derive(Drop)]
pub enum Named<'a> {
    /// One that the command line names.
    Given(InputFile<'a>),
    /// One of a directory that the command line names, by the directory's name and its own.
    Listed(String),
}

impl Named<'_> {
    /// The file.
    fn file(&self) -> InputFile<'_> {
        match self {
            Named::Given(file) => *file,
            Named::Listed(path) => InputFile {
                name: path.as_str(),
                place: path.as_str(),
            },
        }
    }
}

/// The files that inputs name, those of a directory in its place.
///
/// An error is `File` where a directory can't be read or has no file, and `Memory` where a request for memory was refused.
pub fn named_files<'a, R: Files + AllocGlobal>(
    rt: &R,
    inputs: &[InputFile<'a>],
) -> Result<Vec<Named<'a>>, Fault<'a>> {
    let mut named = Vec::new(rt.alloc());
    for input in inputs {
        if is_directory(rt, input.place) {
            push_files(rt, input.place, &mut named)?;
        } else {
            push(Named::Given(*input), &mut named)?;
        }
    }
    Ok(named)
}

/// Puts the files of a directory behind others.
fn push_files<'a, R: Files + AllocGlobal>(
    rt: &R,
    directory: &'a str,
    named: &mut Vec<Named<'a>>,
) -> Result<(), Fault<'a>> {
    let files = of_file(directory, files_of(rt, directory))?;
    if files.is_empty() {
        return Err(Fault::File { name: directory });
    }
    for file in files {
        push(Named::Listed(file), named)?;
    }
    Ok(())
}

/// Puts a file behind others.
fn push<'a>(file: Named<'a>, named: &mut Vec<Named<'a>>) -> Result<(), Fault<'a>> {
    match named.push(file) {
        Ok(()) => Ok(()),
        Err(_) => Err(Fault::Memory),
    }
}

/// The files as the inputs of an order.
pub fn input_files<'a>(
    alloc: Global,
    named: &'a [Named<'_>],
) -> Result<Vec<InputFile<'a>>, AllocError> {
    let mut files = Vec::new(alloc);
    for one in named {
        files.push(one.file())?;
    }
    Ok(files)
}

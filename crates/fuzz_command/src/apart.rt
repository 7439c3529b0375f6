//! That no output is written over what is read.
ghost use Rattle.std.specs.Prelude.{IfErr};
ghost use Rattle.fuzz_command.specs.Faults.{IsCommandFault};

use crate::order::{FuzzOrder, InputFile};
use commands::Fault;
use commands::log_file::log_name;
use std::alloc::AllocError;
use std::fs;
use std::rt::Files;

// The place that a name leads to; empty where it leads nowhere.
fn place_of<R: Files + AllocGlobal>(rt: &R, name: &str) -> Result<String, AllocError> {
    match fs::canonicalize(rt, name) {
        Ok(path) => String::from_str(rt.alloc(), path.as_str()),
        Err(_) => Ok(String::new(rt.alloc())),
    }
}

// The places that the files of inputs lie at, in their order.
fn places_of<R: Files + AllocGlobal>(
    rt: &R,
    inputs: &[InputFile<'_>],
) -> Result<Vec<String>, AllocError> {
    let mut places = Vec::new(rt.alloc());
    for input in inputs {
        places.push(place_of(rt, input.place)?)?;
    }
    Ok(places)
}

// Whether the file of the input of this index, from 0, lies at a place.
fn is_there(places: &[String], index: usize, place: &str) -> bool {
    match places.get(index) {
        Some(found) => found.as_str() == place,
        None => false,
    }
}

// Whether the file of a name is to be written neither over the image nor over the file of an input.
#[tactic(auto, using(crate::proofs::Faults::in_the_way))]
fn is_apart<'a, R: Files + AllocGlobal>(
    rt: &R,
    name: &str,
    order: &FuzzOrder<'a>,
    image: &str,
    places: &[String],
) -> Result<(), Fault<'a>>
    ensures { IfErr result (IsCommandFault order.now) }
{
    let place = place_of(rt, name)?;
    if place.is_empty() {
        return Ok(());
    }
    if place.as_str() == image {
        return Err(Fault::File {
            name: order.run.image,
        });
    }
    for (index, input) in order.inputs.iter().enumerate() {
        if is_there(places, index, place.as_str()) {
            return Err(Fault::File { name: input.place });
        }
    }
    Ok(())
}

// Whether no log of a run is to be written over the image or the file of an input.
fn logs_are_apart<'a, R: Files + AllocGlobal>(
    rt: &R,
    directory: &str,
    order: &FuzzOrder<'a>,
    image: &str,
    places: &[String],
) -> Result<(), Fault<'a>>
    ensures { IfErr result (IsCommandFault order.now) }
{
    for before in 0..order.inputs.len() {
        let log = log_name(rt.alloc(), directory, before.saturating_add(1))?;
        is_apart(rt, log.as_str(), order, image, places)?;
    }
    Ok(())
}

/// Whether neither a log in the order's directory, if it names one, nor the file of the words that were reached, if it names one, is to be written
/// over the image or the file of an input. Where the inputs are lines, that of a log is seen only when it is written.
pub(crate) fn outputs_are_apart<'a, R: Files + AllocGlobal>(
    rt: &R,
    order: &FuzzOrder<'a>,
) -> Result<(), Fault<'a>>
    ensures { IfErr result (IsCommandFault order.now) }
{
    if order.logs.is_none() && order.coverage.is_none() {
        return Ok(());
    }
    let image = place_of(rt, order.run.image)?;
    let places = places_of(rt, &order.inputs)?;
    if let Some(name) = order.coverage {
        is_apart(rt, name, order, &image, &places)?;
    }
    if let Some(directory) = order.logs {
        logs_are_apart(rt, directory, order, &image, &places)?;
    }
    Ok(())
}

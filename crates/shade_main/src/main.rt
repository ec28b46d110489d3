//! The program: its words, the files and standard output are handed to the top call, whose status it ends with.
#![tactic(auto)]

use shade_base::{FileShelf, Status, StdSink};
use shade_top::serve;
use std::process::ExitCode;
use std::rt::Env;
use std::{env, io};

/// The words after the program's name, or the status to end with where there is no memory for them. Words that are no
/// text fit no form, and so stand for no words at all.
fn words(rt: &(impl Env + AllocGlobal)) -> Result<Vec<String>, Status> {
    let args = match env::args(rt) {
        Ok(args) => args,
        Err(error) if error.kind() == io::ErrorKind::OutOfMemory => return Err(Status::NO_MEMORY),
        Err(_) => return Ok(Vec::new(rt.alloc())),
    };
    let mut words = Vec::new(rt.alloc());
    for word in args.skip(1) {
        if words.push(word).is_err() {
            return Err(Status::NO_MEMORY);
        }
    }
    Ok(words)
}

/// Serves the words.
fn served(rt: &HostRuntime) -> Status {
    let words = match words(rt) {
        Ok(words) => words,
        Err(status) => return status,
    };
    let Ok(files) = rt.clone() else {
        return Status::NO_MEMORY;
    };
    let mut shelf = FileShelf::new(rt.alloc(), files);
    let mut out = StdSink::new(rt.stdout());
    serve(rt.alloc(), &words, &mut shelf, &mut out)
}

fn main(rt: HostRuntime) -> ExitCode {
    let Status(status) = served(&rt);
    ExitCode::from(status)
}

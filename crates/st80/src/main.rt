//! The program: `st80 once IMAGE N` reads an image file, runs N cycles of its machine, and says what it shows then;
//! `st80 import IMAGE STORE` makes a store of an image; `st80 export STORE IMAGE` writes an image of what a store holds;
//! `st80 clean STORE IMAGE` writes one of what can be reached there; `st80 condense STORE` drops definitions that later ones supersede;
//! `st80 session STORE` opens a store, and follows a script from standard input over what it holds; `st80 build KERNEL STORE` makes
//! a store of the image that a kernel text builds; `st80 drill N` runs a million cycles of an image that it builds from the number N.
#![tactic(auto)]

mod tool;

use crate::tool::exit_code;
use st_call::{Command, read_command};
use st_protocol::Status;
use st_system_host::{DirHost, StdinSource};
use std::fs::File;
use std::io::{self, ErrorKind};
use std::process::ExitCode;
use std::rt::{Env, Files};

fn main(rt: HostRuntime) -> ExitCode {
    let alloc = rt.alloc();
    let errors = rt.stderr();
    let words = words_of_call(&rt);
    let _places = StreamPlaces::take(&rt);
    let mut script = StdinSource::new(&rt);
    let mut host = DirHost::new(rt);
    if let Ok(words) = &words {
        keep_stores(words.as_slice(), &mut host);
    }
    let code = exit_code(alloc, words, &mut host, &mut script);
    if let Some(refusal) = host.refusal() {
        // The status says it too, where this can't be said.
        errors.println(format_args!("st80: {refusal}")).ok();
    }
    code
}

// Files that are held open so that no file of a store gets the number of a standard stream that was closed: what is said would be
// written into it. They are the root folder, which can be neither read nor written as a file, so a closed stream goes on failing.
#[derive(Drop)]
struct StreamPlaces {
    _input: io::Result<File>,
    _output: io::Result<File>,
    _errors: io::Result<File>,
}

impl StreamPlaces {
    // Takes the numbers that are free, the least first.
    fn take<R: Files<File = File>>(rt: &R) -> StreamPlaces {
        StreamPlaces {
            _input: File::open(rt, "/"),
            _output: File::open(rt, "/"),
            _errors: File::open(rt, "/"),
        }
    }
}

// The words of the call, without the program's name. A word that is no text is in no command.
fn words_of_call<R: Env + AllocGlobal>(rt: &R) -> Result<Vec<String>, Status> {
    let given = std::env::args(rt).map_err(|error| match error.kind() {
        ErrorKind::OutOfMemory => Status::OutOfMemory,
        _ => Status::Usage,
    })?;
    let mut words = Vec::new(rt.alloc());
    for word in given.skip(1) {
        words.push(word).map_err(|_no_memory| Status::OutOfMemory)?;
    }
    Ok(words)
}

// Has no image that is exported written over a file of a store.
fn keep_stores<R: Files<File = File> + Print + Drop>(words: &[String], host: &mut DirHost<R>) {
    if let Some(Command::Export { store, image } | Command::Clean { store, image }) = read_command(
        words,
    ) {
        host.keep_stores_from(store, image);
    }
}

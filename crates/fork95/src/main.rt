//! The command `fork95`: compiles Fork95 programs and runs them on the machine.
#![tactic(auto)]

use fk_ports::{HostSink, HostSource, HostStore};
use fk_top::{Status, fork95};
use std::alloc::AllocError;
use std::process::ExitCode;
use std::rt::Env;
use std::{env, io};

fn main(rt: HostRuntime) -> ExitCode {
    let Ok(words) = command_words(&rt) else {
        return ExitCode::from(Status::Memory.code());
    };
    let mut files = HostStore::new(rt);
    let mut input = HostSource::new(rt.stdin());
    let mut out = HostSink::new(rt.stdout());
    let mut err = HostSink::new(rt.stderr());
    let status = fork95(
        rt.alloc(),
        words.as_slice(),
        &mut files,
        &mut input,
        &mut out,
        &mut err,
    );
    ExitCode::from(status.code())
}

/// The words after the program's name, or no words if one of them is no text.
fn command_words<R: Env + AllocGlobal>(rt: &R) -> Result<Vec<String>, AllocError> {
    let mut words = Vec::new(rt.alloc());
    match env::args(rt) {
        Ok(args) => {
            for word in args.skip(1) {
                words.push(word)?;
            }
            Ok(words)
        }
        Err(error) if error.kind() == io::ErrorKind::OutOfMemory => Err(AllocError),
        Err(_) => Ok(words),
    }
}

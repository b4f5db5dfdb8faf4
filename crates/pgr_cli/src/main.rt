//! The program `pgr`: a command line over the files of the system, to standard output.
//!
//! [`FileStore`] reads the system's files, [`StreamSink`] writes to a stream, and `main` hands the arguments
//! over and ends with the number of the status. Both are the trusted edge: they keep the laws of their traits, and
//! neither content nor what was written is known of them, so nothing is proved of the bytes of a real file or of a stream.
#![tactic(auto)]

mod file_store;
mod stream_sink;
#[cfg(test)]
mod tests;

use crate::file_store::FileStore;
use crate::stream_sink::StreamSink;
use pgr_run::run;
use std::env;
use std::env::Env;
use std::io::ErrorKind;
use std::process::ExitCode;

/// Where memory is wanting for the arguments.
const NO_MEMORY: u8 = 5;

/// Where the arguments aren't text.
const NO_TEXT: u8 = 6;

fn main(rt: HostRuntime) -> ExitCode {
    ExitCode::from(exit_status(&rt))
}

/// Runs the arguments of the process over the files of the system, and returns the exit status.
fn exit_status(rt: &HostRuntime) -> u8 {
    match arguments(rt) {
        Ok(words) => {
            let mut store = FileStore::new(rt, rt.alloc());
            let mut out = StreamSink::new(rt.stdout());
            let mut err = StreamSink::new(rt.stderr());
            let status = run(rt.alloc(), words.as_slice(), &mut store, &mut out, &mut err);
            status.number()
        }
        Err(status) => status,
    }
}

/// The arguments of the process without the program's own name, or the exit status where there are none to hand over.
fn arguments<R: Env + AllocGlobal>(rt: &R) -> Result<Vec<String>, u8> {
    match env::args(rt) {
        Ok(mut words) => {
            words.next();
            words.collect(rt.alloc()).map_err(|_| NO_MEMORY)
        }
        Err(error) => Err(if error.kind() == ErrorKind::OutOfMemory {
            NO_MEMORY
        } else {
            NO_TEXT
        }),
    }
}

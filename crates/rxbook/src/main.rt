//! The program `rxbook` over the standard streams, or over a file that its words name.
//!
//! It gathers the words, opens the file, makes the stock of resources, and leaves the rest to `rx_cli::serve`, and a live book, whose
//! answers it buffers, to `rx_cli::keep`.
#![tactic(auto)]

use rx_cli::{
    Given, Watched, keep, out_of_memory, refuse_bytes, refuse_file, serve, split_file, stock,
    tell_waiting,
};
use std::env::Env;
use std::fs::{File, OpenFile};
use std::io::{BufWriter, IsTerminal, Read, Write};
use std::process::ExitCode;
use std::sync::Wait;
use std::thread::Threads;
use std::{env, io};

// The words of the command line, of which the first is the program's name.
fn gather<R: Env + AllocGlobal>(rt: &R) -> io::Result<Given> {
    let words = env::args(rt)?.collect(rt.alloc())?;
    Ok(split_file(rt.alloc(), words)?)
}

// Opens a file to be read.
fn open(rt: &HostRuntime, name: &str) -> io::Result<File> {
    let file = File::open(rt, name)?;
    if file.metadata()?.is_dir() {
        return Err(io::Error::from(io::ErrorKind::IsADirectory));
    }
    Ok(file)
}

// Does what the words order, over this input.
fn serve_over<T: Threads + Wait + Sync + Print + AllocGlobal, I: Read, E: Write>(
    rt: &T,
    words: &[String],
    input: &mut I,
    errors: &mut Watched<'_, E>,
) -> u8 {
    let alloc = rt.alloc();
    let Ok(stock) = stock(alloc) else {
        return out_of_memory(errors);
    };
    let mut output = io::writer(rt);
    let status = serve(
        rt,
        alloc,
        words,
        stock,
        &mut Watched::new(input),
        &mut Watched::new(&mut output),
        errors,
    );
    match status {
        Some(status) => status,
        None => {
            let Ok(mut output) = BufWriter::new(alloc, output) else {
                return out_of_memory(errors);
            };
            keep(alloc, input, &mut output, errors)
        }
    }
}

fn main(rt: HostRuntime) -> ExitCode {
    let mut stderr = rt.stderr();
    let mut errors = Watched::new(&mut stderr);
    let given = match gather(&rt) {
        Ok(given) => given,
        Err(error) => {
            return ExitCode::from(if error.kind() == io::ErrorKind::OutOfMemory {
                out_of_memory(&mut errors)
            } else {
                refuse_bytes(&mut errors)
            });
        }
    };
    let words = given.words.as_slice();
    let Some(name) = &given.file else {
        if rt.stdin().is_terminal() {
            tell_waiting(words, &mut errors);
        }
        return ExitCode::from(serve_over(&rt, words, &mut rt.reader(), &mut errors));
    };
    ExitCode::from(match open(&rt, name.as_str()) {
        Ok(mut file) => serve_over(&rt, words, &mut file, &mut errors),
        Err(error) => refuse_file(rt.alloc(), name.as_str(), error.kind(), &mut errors),
    })
}

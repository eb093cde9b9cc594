//! The program: it hands the words, the folder and the standard streams to the top call, and ends with the
//! code of its answer.
#![tactic(auto)]

use dom_edge::{DiskFolder, StdSink};
use dom_top::run;
use std::process::ExitCode;
use std::{env, io};

/// The code where the system gives no words.
const NO_WORDS: u8 = 3;

fn main(rt: HostRuntime) -> ExitCode {
    let Ok(words) = words_of(&rt) else {
        return ExitCode::from(NO_WORDS);
    };
    let mut folder = DiskFolder::new(&rt);
    let mut out = StdSink::new(rt.stdout());
    let mut err = StdSink::new(rt.stderr());
    let status = run(&rt, words.as_slice(), &mut folder, &mut out, &mut err);
    ExitCode::from(status.code())
}

// The words after the program's name.
fn words_of(rt: &HostRuntime) -> io::Result<Vec<String>> {
    let mut words = Vec::new(rt.alloc());
    for word in env::args(rt)?.skip(1) {
        words.push(word)?;
    }
    Ok(words)
}

//! Runs scripts of calls by several workers on the tree of a page file, also where it lies, and prints what they were answered; checks page files;
//! replays lists of events.
#![tactic(auto)]

use std::env;
use std::io::ErrorKind;
use std::process::ExitCode;
use vm_cli::drive::NoGate;
use vm_cli::ends::Ends;
use vm_cli::run::run;
use vm_device::FileDevices;
use vm_io::system::StdHost;
use vm_page::WORDS;

fn main(rt: HostRuntime) -> ExitCode {
    let alloc = rt.alloc();
    let words = match words_of(&rt) {
        Ok(words) => words,
        Err(fault) => {
            if fault.kind() == ErrorKind::OutOfMemory {
                return ExitCode::from(6);
            }
            // A list of words that is no text is no command.
            Vec::new(alloc)
        }
    };
    let mut host = StdHost::new(&rt, alloc);
    let mut devices = FileDevices::<&HostRuntime, WORDS>::new(&rt, alloc);
    let mut ends = Ends::Nothing;
    ExitCode::from(run(
        &rt,
        alloc,
        words.as_slice(),
        &mut host,
        &NoGate,
        &mut ends,
        &mut devices,
    ))
}

// The words after the program's name.
fn words_of(rt: &HostRuntime) -> std::io::Result<Vec<String>> {
    let mut words = Vec::new(rt.alloc());
    for word in env::args(rt)?.skip(1) {
        words.push(word)?;
    }
    Ok(words)
}

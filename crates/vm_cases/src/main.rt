//! Cases of the program's commands that stand in files: page files, each as it is or with some words changed, lists of events, scripts over the
//! empty page file, and command lines.
//!
//! Each line of the file `list` is a case: the line is printed, then what the command says, then its status. A page file's line may go on
//! with triples of a page, a word of it, and what stands there. A line that begins with `words` has a command line over no files; one that begins
//! with `over` has names of files, with commas between them, and then a command line, or some with ` ; ` between them, over one host with these. Before
//! `over` there may be `with` and what fails.
#![tactic(auto)]

mod case;
mod files;
mod scene;
mod setting;

use case::{Case, Unplayed};
use files::{add_file, file_of};
use scene::Scene;
use setting::Setting;
use std::alloc::Global;
use std::process::ExitCode;
use std::sync::Wait;
use std::thread::Threads;
use vm_io::host::Host;
use vm_io::loops::say_all;
use vm_io::system::StdHost;

/// The empty page file, over which scripts are run.
const EMPTY: &str = "empty.pages";

fn main(rt: HostRuntime) -> ExitCode {
    let mut host = StdHost::new(&rt, rt.alloc());
    match play_list(&rt, rt.alloc(), &mut host) {
        Ok(()) => ExitCode::from(0),
        Err(Unplayed) => ExitCode::from(1),
    }
}

/// Plays the cases of the list in order.
fn play_list<R: Threads + Wait + Sync, H: Host>(
    rt: &R,
    alloc: Global,
    host: &mut H,
) -> Result<(), Unplayed> {
    let bytes = file_of(alloc, host, "list")?;
    let Ok(list) = str::from_utf8(bytes.as_slice()) else {
        return Err(Unplayed);
    };
    for line in list.lines() {
        say(host, line.as_bytes())?;
        say(host, b"\n")?;
        play_case(rt, alloc, host, line)?;
    }
    Ok(())
}

/// Plays the case of a line.
fn play_case<R: Threads + Wait + Sync, H: Host>(
    rt: &R,
    alloc: Global,
    host: &mut H,
    line: &str,
) -> Result<(), Unplayed> {
    match line.split_once(' ') {
        Some(("words", words)) => play_plain(rt, alloc, host, Vec::new(alloc), words),
        Some(("over", rest)) => play_over(rt, alloc, host, rest, &Setting::plain(alloc)),
        Some(("with", rest)) => play_with(rt, alloc, host, rest),
        _ => play(rt, alloc, host, &Case::of(alloc, line)?),
    }
}

/// Plays a case: its file is copied into a host of its own. A script is run by one worker over the empty page file.
fn play<R: Threads + Wait + Sync, H: Host>(
    rt: &R,
    alloc: Global,
    host: &mut H,
    case: &Case<'_>,
) -> Result<(), Unplayed> {
    let Case { command, file, .. } = *case;
    let mut bytes = file_of(alloc, host, file)?;
    case.change(bytes.as_mut_slice());
    let mut files = Vec::new(alloc);
    add_file(alloc, &mut files, file, bytes)?;
    let line = if command == "script" {
        let empty = file_of(alloc, host, EMPTY)?;
        add_file(alloc, &mut files, EMPTY, empty)?;
        format!(in alloc; "run {EMPTY} {file} --workers 1 --frames 64")
    } else {
        format!(in alloc; "{command} {file}")
    };
    match line {
        Ok(line) => play_plain(rt, alloc, host, files, line.as_str()),
        Err(_) => Err(Unplayed),
    }
}

/// Plays command lines of whose host or devices some calls fail, behind the words that say which.
fn play_with<R: Threads + Wait + Sync, H: Host>(
    rt: &R,
    alloc: Global,
    host: &mut H,
    rest: &str,
) -> Result<(), Unplayed> {
    let Some((words, rest)) = rest.split_once("over ") else {
        return Err(Unplayed);
    };
    play_over(rt, alloc, host, rest, &Setting::of(alloc, words)?)
}

/// Plays command lines behind the names of their files; of `NAME=FILE` the host has the file under that name.
fn play_over<R: Threads + Wait + Sync, H: Host>(
    rt: &R,
    alloc: Global,
    host: &mut H,
    rest: &str,
    setting: &Setting<'_>,
) -> Result<(), Unplayed> {
    let Some((names, lines)) = rest.split_once(' ') else {
        return Err(Unplayed);
    };
    let mut files = Vec::new(alloc);
    for word in names.split(',') {
        let (name, file) = match word.split_once('=') {
            Some(parts) => parts,
            None => (word, word),
        };
        let bytes = file_of(alloc, host, file)?;
        add_file(alloc, &mut files, name, bytes)?;
    }
    play_lines(rt, alloc, host, files, lines, setting)
}

/// Plays lines with ` ; ` between them over these files, where nothing fails.
fn play_plain<R: Threads + Wait + Sync, H: Host>(
    rt: &R,
    alloc: Global,
    host: &mut H,
    files: Vec<(String, Vec<u8>)>,
    lines: &str,
) -> Result<(), Unplayed> {
    play_lines(rt, alloc, host, files, lines, &Setting::plain(alloc))
}

/// Plays lines with ` ; ` between them over these files, and prints what is said and then what is told.
fn play_lines<R: Threads + Wait + Sync, H: Host>(
    rt: &R,
    alloc: Global,
    host: &mut H,
    files: Vec<(String, Vec<u8>)>,
    lines: &str,
    setting: &Setting<'_>,
) -> Result<(), Unplayed> {
    let mut scene = Scene::new(alloc, host, files, setting)?;
    play_on(rt, host, &mut scene, lines)
}

/// Plays lines with ` ; ` between them, and prints what is said and then what is told.
fn play_on<R: Threads + Wait + Sync, H: Host>(
    rt: &R,
    host: &mut H,
    scene: &mut Scene<'_>,
    lines: &str,
) -> Result<(), Unplayed> {
    for line in lines.split(" ; ") {
        scene.play(rt, host, line)?;
    }
    let (said, told) = scene.said();
    say(host, said)?;
    say(host, told.as_bytes())
}

/// Prints the bytes.
fn say<H: Host>(host: &mut H, text: &[u8]) -> Result<(), Unplayed> {
    match say_all(host, text) {
        Ok(()) => Ok(()),
        Err(_) => Err(Unplayed),
    }
}

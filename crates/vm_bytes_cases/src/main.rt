//! Edits of one page with byte keys, read from standard input and told word by word.
//!
//! Each line is a command over the page, which is all zeros at first: `zero`; `set I:W ..`, words at their places; `put KEY V`, `del KEY`, `split`,
//! `root LEVEL LEFT KEY RIGHT`, of which each tells the outcome and the words of the pages that it makes; `find KEY`, `child KEY`, `spare`. A key is lower-case
//! hexadecimal digits, or `-` for the empty one.
#![tactic(auto)]

mod told;

use std::io;
use told::Telling;

fn main(rt: HostRuntime) -> io::Result<()> {
    let mut telling = Telling::new();
    for line in rt.lines(rt.alloc()) {
        let line = line?;
        telling.play(&rt, line.as_str())?;
    }
    Ok(())
}

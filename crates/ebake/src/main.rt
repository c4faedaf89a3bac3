//! `ebake`: bakes a folder of authoring scenes into section files, by request lines.
#![tactic(auto)]

use eb_base::{Memory, Text};
use eb_outside::{FolderShelf, StdSink, StdSource};
use eb_run::run;
use std::process::ExitCode;
use std::rt::Env;
use std::{env, io};

/// The words behind the program's name. A word that isn't text makes them none, which is no form.
fn words_of<R: Env + AllocGlobal>(rt: &R) -> Result<Vec<Text>, Memory> {
    let mut words = Vec::new(rt.alloc());
    let Ok(args) = env::args(rt) else {
        return Ok(words);
    };
    for word in args.skip(1) {
        words.push(Text::of(rt.alloc(), word.as_bytes())?)?;
    }
    Ok(words)
}

fn main(rt: HostRuntime) -> ExitCode {
    let Ok(words) = words_of(&rt) else {
        return ExitCode::from(4);
    };
    let mut shelf = FolderShelf::open(&rt);
    let mut source = StdSource::open(rt.reader());
    let mut sink = StdSink::open(io::writer(&rt));
    let status = run(
        &rt,
        rt.alloc(),
        words.as_slice(),
        &mut shelf,
        &mut source,
        &mut sink,
    );
    ExitCode::from(status)
}

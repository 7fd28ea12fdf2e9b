//! The program: reads the words, plays a workload over a file store, restores a container of it,
//! tells what a container has or which containers there are, and prints the report.
#![tactic(auto)]

mod describe;
mod expire;
mod fault;
mod later;
mod list;
mod replay;
mod restore;
mod top;
mod words;

use fb_bytes::Text;
use fb_outside::{FolderVault, ReaderSource, WriterSink};
use std::process::ExitCode;
use std::rt::Env;
use std::{env, io};

// The first word is the root folder of the file store, and the others are for `top`.
fn main(rt: HostRuntime) -> ExitCode {
    let Ok(words) = words_of(&rt) else {
        return ExitCode::from(12);
    };
    let Some((root, words)) = words.split_first() else {
        let _ = rt.println("refused usage");
        return ExitCode::from(1);
    };
    let files: Result<_, _> = rt.clone();
    let (Ok(root), Ok(files)) = (root.copy(), files) else {
        return ExitCode::from(12);
    };
    let vault = FolderVault::new(files, root);
    let mut source = ReaderSource::new(rt.reader());
    let mut sink = WriterSink::new(io::writer(&rt));
    let exit = top::top(rt.alloc(), words, &mut source, vault, &mut sink);
    ExitCode::from(exit.status)
}

// There are no words where one isn't UTF-8.
fn words_of<R: Env + AllocGlobal>(rt: &R) -> io::Result<Vec<Text>> {
    let mut words = Vec::new(rt.alloc());
    let given = match env::args(rt) {
        Ok(given) => given,
        Err(error) if error.kind() == io::ErrorKind::InvalidData => return Ok(words),
        Err(error) => return Err(error),
    };
    for word in given.skip(1) {
        words.push(Text::from_string(word))?;
    }
    Ok(words)
}

#[cfg(test)]
mod tests;

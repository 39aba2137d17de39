//! The program: the console over folders of the host, or games made from numbers, standard input and standard output.
#![tactic(auto)]

ghost use Rattle.std.specs.Prelude.{◌≡◌, OnOk};
ghost use Rattle.std.specs.Process.{exit_status};
ghost use Rattle.std.specs.Io.KnownBytes.{Appends};
ghost use Rattle.console_core.specs.Ends.{code_of};
ghost use Rattle.quake_cli.specs.EndLines.{end_line};

mod folder;
mod games;
mod streams;

use console_core::{Status, exit_code, quake_main, status_line, status_told};
use folder::DirFolder;
use games::{game_folder, number_asked};
use outside_io::Folder;
use std::alloc::AllocError;
use std::env::Args;
use std::io::{ErrorKind, Write};
use std::process::ExitCode;
use std::{env, io};
use streams::{StdinSource, StdoutSink, put_whole};

#[cfg(test)]
mod game_tests;
#[cfg(test)]
mod tests;

// Prints the line of a run that ended so. It is nothing where the run ended well.
fn print_line<W: Write>(to: &mut W, status: &Status) -> io::Result<()>
    ensures { OnOk result (Appends (W.contents to.old) (W.contents to.new) (end_line status.now)) }
{
    if exit_code(status) == 0 {
        return Ok(());
    }
    put_whole(to, status_line(status).as_bytes())?;
    put_whole(to, b"\n")
}

// The exit code of a run that ended so, with its line on standard error.
fn report(rt: &HostRuntime, status: &Status) -> ExitCode
    ensures { exit_status result ≡ code_of status.now }
{
    // Where standard error takes nothing, the code still tells.
    let _ = print_line(&mut rt.stderr(), status);
    ExitCode::from(exit_code(status))
}

// Runs the console on the folders of the words. An error is want of memory before that.
fn run(rt: &HostRuntime, args: Args) -> Result<ExitCode, AllocError> {
    let alloc = rt.alloc();
    let mut words: Vec<String> = Vec::new(alloc);
    let mut folders: Vec<Box<dyn Folder>> = Vec::new(alloc);
    for word in args.skip(1) {
        let folder: Box<dyn Folder> = match number_asked(word.as_bytes()) {
            Some(number) => Box::new(alloc, game_folder(alloc, number)?)?,
            None => Box::new(alloc, DirFolder::create(alloc, *rt, word.as_str())?)?,
        };
        folders.push(folder)?;
        words.push(word)?;
    }
    // A line of more words is faulty, whatever they are.
    if words.len() > u32::MAX as usize {
        return Ok(report(rt, &Status::Usage { word: 0 }));
    }
    let mut script = StdinSource::new(rt.stdin());
    let mut out = StdoutSink::new(rt.stdout());
    let status = quake_main(alloc, &words, folders, &mut script, &mut out);
    // All that was put was handed on. Where that failed, not all of it has come out.
    Ok(report(rt, &status_told(status, out.has_failed())))
}

fn main(rt: HostRuntime) -> ExitCode {
    let args = match env::args(&rt) {
        Ok(args) => args,
        Err(error) if error.kind() == ErrorKind::OutOfMemory => {
            return report(&rt, &Status::OutOfMemory);
        }
        // A word is no text. No option has such a word, and paths of the host are text here, so it can't name a folder
        // either: the command line is faulty. Which word it is isn't known, nor printed.
        Err(_) => return report(&rt, &Status::Usage { word: 0 }),
    };
    match run(&rt, args) {
        Ok(code) => code,
        Err(_) => report(&rt, &Status::OutOfMemory),
    }
}

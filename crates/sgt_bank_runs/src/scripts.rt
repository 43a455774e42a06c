//! Many scripts in one process, each run by itself as `sgt script` does.

use sgt_input::{Fault, Reader, Writer};
use sgt_script::run_script;
use std::alloc::{AllocError, Global};
use std::io;
use std::io::{Input, Print, Read, Write};

/// The output of a script, followed by a line that says how it ended.
fn output_of(alloc: Global, script: &[u8]) -> Result<Vec<u8>, AllocError> {
    let mut reader = Reader::new(script);
    let mut writer = Writer::new(Vec::new(alloc));
    let ended = run_script(alloc, &mut reader, &mut writer);
    let mut text = writer.inner;
    append_end(alloc, &mut text, ended)?;
    Ok(text)
}

/// Adds the line that says how a script ended.
fn append_end(
    alloc: Global,
    text: &mut Vec<u8>,
    ended: Result<(), Fault>,
) -> Result<(), AllocError> {
    match ended {
        Ok(()) => text.extend_from_slice(b"= done\n"),
        Err(fault) => append_fault(alloc, text, &fault),
    }
}

fn append_fault(alloc: Global, text: &mut Vec<u8>, fault: &Fault) -> Result<(), AllocError> {
    let line = format!(in alloc; "= {fault}\n")?;
    text.extend_from_slice(line.as_bytes())
}

/// The first script, and the bytes after it; none if it is incomplete. The four bytes before it have its length, the
/// highest first.
fn first(input: &[u8]) -> Option<(&[u8], &[u8])> {
    let (length, rest) = input.split_first_chunk::<4>()?;
    rest.split_at_checked(u32::from_be_bytes(*length) as usize)
}

/// Runs the scripts of standard input, one after another, and prints the output of each.
pub fn run_scripts<R: Print + Input>(rt: &R, alloc: Global) -> io::Result<()> {
    let mut input = Vec::new(alloc);
    rt.reader().read_to_end(&mut input)?;
    run_each(rt, alloc, input.as_slice())
}

/// Runs these scripts.
fn run_each<R: Print>(rt: &R, alloc: Global, scripts: &[u8]) -> io::Result<()> {
    let mut rest = scripts;
    for _ in 0..scripts.len() {
        let Some((script, following)) = first(rest) else {
            break;
        };
        print_script(rt, alloc, script)?;
        rest = following;
    }
    Ok(())
}

fn print_script<R: Print>(rt: &R, alloc: Global, script: &[u8]) -> io::Result<()> {
    let text = output_of(alloc, script)?;
    io::writer(rt).write_all(text.as_slice())
}

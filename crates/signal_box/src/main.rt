// The program `box`: one box as a process, its file `yard` in the folder in which it is started.
#![tactic(auto)]

mod ending;

use box_run::{CameUp, Which, come_up, of_boxes, of_sixteen, print, serve, whole_lines};
use boxes::SignalBox;
use ending::Ending;
use journal::{DiskFile, Said};
use messages::BoxNumber;
use std::env;
use std::io::{Read, Write};
use std::process::ExitCode;

const FOLDER: &str = ".";

const FILE: &str = "yard";

// How much input is read at once: all that a pipe holds.
const CHUNK: usize = 65536;

// Which box it is, by its arguments.
fn which(rt: &HostRuntime) -> Result<Which, Ending> {
    let words = env::args(rt).map_err(|_| Ending::Arguments)?;
    let words: Vec<String> = words.collect(rt.alloc())?;
    let asked = match words.as_slice() {
        [_, number, engines] => of_sixteen(number.as_bytes(), engines.as_bytes()),
        [_, number, engines, boxes] => of_boxes(
            number.as_bytes(),
            engines.as_bytes(),
            boxes.as_bytes(),
        ),
        _ => None,
    };
    asked.ok_or(Ending::Arguments)
}

// Prints what may be said, before any more input is waited for.
fn say(rt: &HostRuntime, own: BoxNumber, said: &Said) -> Result<(), Ending> {
    let text = print(own, said.as_slice(), rt.alloc())?;
    let mut out = rt.stdout();
    out.write_all(text.as_slice()).map_err(|_| Ending::Output)?;
    out.flush().map_err(|_| Ending::Output)
}

// Adds what has come to what waits; how much that is.
fn receive<R: Read>(
    input: &mut R,
    chunk: &mut [u8],
    waiting: &mut Vec<u8>,
) -> Result<usize, Ending> {
    let length = input.read(chunk).map_err(|_| Ending::Input)?;
    waiting.extend_from_slice(&chunk[..length])?;
    Ok(length)
}

// Serves lines until there is no more input.
fn run(
    rt: &HostRuntime,
    own: BoxNumber,
    state: &mut SignalBox,
    file: &mut DiskFile,
) -> Result<(), Ending> {
    let heap = rt.alloc();
    let mut input = rt.stdin();
    let mut chunk = [0u8; CHUNK];
    let mut waiting = Vec::new(heap);
    // No input comes in so many pieces, and each loop has to have an end.
    for _ in 0..u64::MAX {
        if receive(&mut input, &mut chunk, &mut waiting)? == 0 {
            break;
        }
        let whole = whole_lines(waiting.as_slice());
        let rest = waiting.split_off(whole)?;
        say(rt, own, &serve(state, file, waiting.as_slice(), heap)?)?;
        waiting = rest;
    }
    say(rt, own, &serve(state, file, waiting.as_slice(), heap)?)
}

fn start(rt: &HostRuntime) -> Result<(), Ending> {
    let which = which(rt)?;
    let mut file = DiskFile::open(rt, FOLDER, FILE)?;
    let CameUp { mut state, said } = come_up(&mut file, which, rt.alloc())?;
    say(rt, which.number, &said)?;
    run(rt, which.number, &mut state, &mut file)
}

fn main(rt: HostRuntime) -> ExitCode {
    match start(&rt) {
        Ok(()) => ExitCode::SUCCESS,
        Err(ending) => {
            let _ = eprintln!(rt; "{ending}");
            ExitCode::FAILURE
        }
    }
}

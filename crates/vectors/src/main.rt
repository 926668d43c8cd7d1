// Runs the traces of documents 003 and 004 and the examples of document 001's appendices through the proved library, from data/, and
// prints a line for each source: how many of each kind were compared, and how many lines differ. A line that differs is named above it.
// Then the small examples of document 01.
#![tactic(auto)]

ghost use Rattle.std.specs.Prelude.{◌≤◌, length};

use std::fs::File;
use std::io;
use std::io::Read;
use std::rt::Files;

mod examples;
mod lines;
mod text;
mod trace;

use lines::Run;

// So many bytes of a data file are read.
const ROOM: usize = 65536;

// Reads until the room is full, the file ends or a read fails, which counts as its end: how many bytes came.
fn read_full<F: Read>(file: &mut F, room: &mut [u8]) -> usize
    ensures { result ≤ length room.new }
{
    let mut done = 0;
    while done < room.len() {
        match file.read(&mut room[done..]) {
            Ok(n) if n > 0 => done += n,
            _ => break,
        }
    }
    done
}

fn source<R: Files + Print>(rt: &R, file: &str) -> io::Result<()> {
    let Ok(mut data) = File::open(rt, file) else {
        return println!(rt; "missing {file}");
    };
    // in the frame, and not in a Vec: this program asks for no memory, and so cannot fail for want of it
    let mut room = [0u8; ROOM];
    let n = read_full(&mut data, &mut room);
    let mut run = Run::new();
    for (number, line) in (1u64..).zip(room[..n].split(|b| *b == b'\n')) {
        if !run.line(line) {
            println!(rt; "differ {file} line {number}")?;
        }
    }
    println!(rt; "{file}\t{}", run.tally)
}

fn main(rt: HostRuntime) -> io::Result<()> {
    source(&rt, "001-appendix-a.txt")?;
    source(&rt, "001-appendix-b.txt")?;
    source(&rt, "003-traces.txt")?;
    source(&rt, "004-traces.txt")?;
    examples::run(&rt)
}

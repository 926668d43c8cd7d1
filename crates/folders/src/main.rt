// Runs the program's work over every stored folder of data/: accepted and refused sheets, and files of every size that matters.
#![tactic(auto)]

use std::io;

// The stored folders, in the order of the stored output.
const FOLDERS: [&str; 33] = [
    // files that are whole, or too long
    "open/",
    "exactly-4096/",
    "exactly-8192/",
    "refused-piece-stops-the-file/",
    "one-byte-too-long/",
    "decided-then-longer/",
    // bytes or files missing
    "short-file/",
    "missing-and-empty-files/",
    "folder-for-a-file/",
    "all-32-waiting/",
    "each-note-alone/",
    // sheets that are ill formed
    "no-sheet/",
    "empty-sheet/",
    "form-wrong-word/",
    "form-leading-zero/",
    "form-carriage-return/",
    "form-no-last-line-end/",
    "form-text-after-the-sheet/",
    "form-sheet-stops-early/",
    "capital-digest/",
    // sheets against a rule of count, note or length
    "count-33/",
    "note-repeated/",
    "note-33/",
    "length-odd/",
    "length-0/",
    // rule 4 on both sides: a sheet of loops that end at the last frame, and sheets whose first note has such a loop and whose second
    // does not
    "loops-to-the-last-frame/",
    "loop-past-2-bytes/",
    "loop-past-4-bytes/",
    "loop-past-64-bytes/",
    "loop-past-4294967294-bytes/",
    "loop-behind-the-sample/",
    "loop-backwards/",
    "loop-end-that-wraps/",
];

// Each folder's name, and what the program prints of it. No path is put together here: that would ask for memory, which can be refused.
fn main(rt: HostRuntime) -> io::Result<()> {
    for folder in FOLDERS {
        println!(rt; "{}", folder.trim_end_matches('/'))?;
        loader::run(&rt, folder.as_bytes())?;
    }
    Ok(())
}

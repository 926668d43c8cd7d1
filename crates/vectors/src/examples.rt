// The small examples of document 01 that are run: the digest of "abc", and a state that has taken 2^61 - 1 bytes.
use hash::{Hash, Updated};
use std::io;
use units::LONGEST;

// A digest, by words parted by blanks, as 01 prints it.
fn print_digest(rt: &impl Print, name: &str, message: &[u8]) -> io::Result<()> {
    print!(rt; "{name}:")?;
    // no message that is held in memory is refused
    let bytes = hash::digest_of(message).unwrap_or([0; 32]);
    for word in bytes.chunks_exact(4) {
        print!(rt; " ")?;
        for b in word {
            print!(rt; "{b:02x}")?;
        }
    }
    println!(rt)
}

// A state in order that has taken as many bytes as a message may have, and what it makes of a piece more.
fn print_update(rt: &impl Print, name: &str, piece: &[u8]) -> io::Result<()> {
    let full = Hash {
        words: Hash::START,
        total: LONGEST,
        tail: [0; 64],
    };
    let u = Updated::told(full, full.update(piece));
    println!(rt;
        "total 2^61 - 1, {name}: number {}, total afterwards {}",
        u.number, u.state.total
    )
}

pub fn run(rt: &impl Print) -> io::Result<()> {
    print_digest(rt, "abc", b"abc")?;
    print_update(rt, "an empty piece", b"")?;
    print_update(rt, "one byte", b"x")
}

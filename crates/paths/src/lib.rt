// The names of a rank's files, and the paths to them.
#![tactic(auto)]

ghost use Rattle.std.specs.Prelude.{◌≡◌};
ghost use Rattle.paths.specs.Names.{sheet_name, note_name, path_of};

use texts::Text;

#[tactic(auto, unfolding(crate::specs::Names::sheet_name))]
pub fn sheet_name() -> [u8; 8]
    ensures { result ≡ sheet_name }
{
    *b"rank.txt"
}

// NN.raw, the note in two digits.
#[tactic(auto, unfolding(crate::specs::Names::note_name))]
pub fn note_name(note: u64) -> [u8; 6]
    ensures { result ≡ note_name note }
{
    let mut name = *b"NN.raw";
    name[0] = b'0' + (note / 10 % 10) as u8;
    name[1] = b'0' + (note % 10) as u8;
    name
}

// A file's name behind its folder's; the empty path where both do not fit.
pub fn path_of(folder: &[u8], name: &[u8]) -> Text
    ensures { result ≡ path_of folder.now name.now }
{
    let path = texts::empty();
    if folder.len() <= texts::MOST && name.len() <= texts::MOST - folder.len() {
        texts::with(texts::with(path, folder), name)
    } else {
        path
    }
}

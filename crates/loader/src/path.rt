// A rank's files, opened by their names behind the name of the folder.
use std::fs::File;
use std::rt::Files;
use texts::Text;

// The file of a name in a folder, opened for reading, where it can be. A path that does not fit is empty, and no file has it; nor has a
// file a path that is not UTF-8, since std opens none by such a path.
fn open<R: Files>(rt: &R, folder: &[u8], name: &[u8]) -> Option<R::File> {
    let Text { bytes, length } = paths::path_of(folder, name);
    let path = str::from_utf8(&bytes[..length]).ok()?;
    File::open(rt, path).ok()
}

pub fn open_sheet<R: Files>(rt: &R, folder: &[u8]) -> Option<R::File> {
    open(rt, folder, &paths::sheet_name())
}

pub fn open_note<R: Files>(rt: &R, folder: &[u8], note: u64) -> Option<R::File> {
    open(rt, folder, &paths::note_name(note))
}

// Why a file is not read, on standard error.
use std::io;
use std::io::ErrorKind;

fn why<P: Print>(out: &P, error: ErrorKind) -> io::Result<()> {
    match error {
        ErrorKind::NotFound => {
            out.write_all(b"there is no such file -- look at its name and folder\n")
        }
        ErrorKind::IsADirectory => out.write_all(b"this is a folder -- name the files in it\n"),
        ErrorKind::PermissionDenied => {
            out.write_all(b"you may not read this file -- ask its owner for permission\n")
        }
        _ => out.write_all(b"cannot be read -- look at its name, and whether it is a file\n"),
    }
}

// Says why the file of a name is not read.
pub fn unread<P: Print>(out: &P, path: &[u8], error: ErrorKind) -> io::Result<()> {
    text::name(out, path)?;
    out.write_all(b": ")?;
    why(out, error)
}

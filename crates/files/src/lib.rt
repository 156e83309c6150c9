// Which physical file of how many a call means, as numbers (W-204): nfiles and filenumber, and whether a record is of that file.
#![tactic(auto)]

ghost use Rattle.std.specs.Prelude.{◌≡◌};
ghost use Rattle.format.specs.declared.head.File.{File};
ghost use Rattle.format.specs.declared.head.Head.{Head};
ghost use Rattle.format.specs.Record.{files_of, file_of, suits};

use format::head::{File, Head};

// nfiles.
pub fn files_of(file: File) -> u32
    ensures { result ≡ files_of file }
{
    match file {
        File::Single => 1,
        File::First | File::Second => 2,
    }
}

// filenumber.
pub fn number_of(file: File) -> u32
    ensures { result ≡ file_of file }
{
    match file {
        File::Single | File::First => 0,
        File::Second => 1,
    }
}

// Whether the numbers of a record are those of the file that the call means.
pub fn suits(file: File, h: Head) -> bool
    ensures { result ≡ suits file h }
{
    h.files == files_of(file) && h.file == number_of(file)
}

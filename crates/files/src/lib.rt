// Files: their bytes, and the cases of a container.
#![tactic(auto)]

ghost use Rattle.std.specs.Prelude.{take};
ghost use Rattle.std.specs.Io.KnownBytes.{Consumes};
ghost use Rattle.io.specs.Counts.{IsPrefixLen};

pub mod container;

use std::fs;
use std::io::Read;
use std::rt::Files;

// Reads until a buffer is full, the file ends or a read fails, and gives how many bytes stand at the start of the buffer.
fn read_full<F: Read>(file: &mut F, buf: &mut [u8]) -> usize
    ensures prefix_len { IsPrefixLen result buf.new }
    ensures bytes { Consumes (F.remaining file.old) (F.remaining file.new) (take result buf.new) }
{
    let mut done = 0;
    while done < buf.len() {
        match file.read(&mut buf[done..]) {
            Ok(0) | Err(_) => return done,
            Ok(n) => done += n,
        }
    }
    done
}

// The first bytes of a file, at the start of a buffer, and how many they are; none if it can't be opened or read, as where its path is no text.
// Kept: a count of a lent buffer, since nothing is allocated; 0 and no error, since what can't be read counts as empty (docs/RULES.md).
pub fn load<R: Files>(rt: &R, path: &[u8], buf: &mut [u8]) -> usize
    ensures { IsPrefixLen result buf.new }
{
    let Ok(name) = str::from_utf8(path) else {
        return 0;
    };
    let Ok(mut file) = fs::open(rt, name) else {
        return 0;
    };
    read_full(&mut file, buf)
}

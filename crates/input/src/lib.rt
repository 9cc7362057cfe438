// Reading a trace: from standard input, or whatever else a program reads, here alone.

#![tactic(auto)]

ghost use Rattle.std.specs.Counts.{IsPrefixLen};

use std::io::Read;

// Reads what comes next into `bytes`, and answers how many came: fewer than have room only where the
// trace ends; a read that fails counts as its end.
pub fn read_next<R: Read>(reader: &mut R, bytes: &mut [u8]) -> usize
    ensures { IsPrefixLen result bytes.new }
{
    let mut done = 0;
    while done < bytes.len() {
        let Ok(size) = reader.read(&mut bytes[done..]) else {
            break;
        };
        if size == 0 {
            break;
        }
        done += size;
    }
    done
}

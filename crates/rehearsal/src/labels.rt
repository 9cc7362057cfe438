// 02: "Tick and give lines are replay's, each after its station and a space".
ghost use Rattle.std.specs.Prelude.{◌+◌, ◌*◌, ◌≤◌, ◌<◌, length};
ghost use Rattle.text.specs.Text.{Put};
ghost use Rattle.rehearsal.specs.Group.{labelled};
ghost use Rattle.rehearsal.specs.Views.{label_of, labelled_byte};

use text::{put_decimal, put_word};

// The station and a space.
fn put_label(out: &mut [u8], at: usize, station: usize) -> usize
    requires { at + length (label_of station) ≤ length out.old }
    ensures { Put out.old at (label_of station) out.new result }
{
    let end = put_decimal(out, at, station);
    put_word(out, end, b" ")
}

// A byte of a text, after the label where it starts a line.
fn put_byte(out: &mut [u8], at: usize, station: usize, starts: bool, byte: u8) -> usize
    requires { at + length (labelled_byte starts station byte) ≤ length out.old }
    ensures { Put out.old at (labelled_byte starts station byte) out.new result }
{
    if !starts {
        out[at] = byte;
        return at + 1;
    }
    let end = put_label(out, at, station);
    out[end] = byte;
    end + 1
}

// Writes a text at the start of `out`, with the station and a space before each of its lines.
pub fn put_labelled(out: &mut [u8], station: usize, text: &[u8]) -> usize
    requires { (station < 100) × (4 * length text.now ≤ length out.old) }
    ensures { Put out.old 0 (labelled station text.now) out.new result }
{
    let mut end = 0;
    let mut starts = true;
    let mut i = 0;
    while i < text.len() {
        end = put_byte(out, end, station, starts, text[i]);
        starts = text[i] == b'\n';
        i += 1;
    }
    end
}

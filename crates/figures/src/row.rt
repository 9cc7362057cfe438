// A tick's row.
ghost use Rattle.std.specs.Prelude.{◌≡◌, ◌≤◌};
ghost use Rattle.model.specs.Batch.{batch_entries};
ghost use Rattle.model.specs.Figures.{columns_of, row_of};
ghost use Rattle.verdicts.specs.Fit.{VerdictsFit};

use crate::column::column_of;
use batch::count_of;
use batch::walker::walk_entry;

// The columns: seven of each of 16 stations, and 02's line of its own.
pub const COLUMNS: usize = 113;

// How many frames of a batch are counted in each column. No batch has more than 255 entries.
pub fn count_row(n: usize, batch: &[u8], verdicts: &[u8]) -> [u8; COLUMNS]
    requires { (n ≤ 16) × VerdictsFit batch.now verdicts.now }
    ensures { result ≡ row_of (columns_of n (batch_entries batch.now) verdicts.now) }
{
    let mut row = [0u8; COLUMNS];
    let count = count_of(batch);
    let mut position = 0;
    let mut at = 1;
    while position < count {
        let span = walk_entry(batch, at);
        let start = span.start;
        let next = span.end;
        let column = column_of(n, verdicts[position], &batch[start..next]);
        row[column] = row[column] + 1;
        at = next;
        position += 1;
    }
    row
}

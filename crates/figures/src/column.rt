// Where a judged frame is counted.
ghost use Rattle.std.specs.Prelude.{◌≡◌, true, ◌≤◌, ◌<◌, get_or};
ghost use Rattle.model.specs.Verdicts.{given};
ghost use Rattle.model.specs.Figures.{figure_of, figure_columns, column_of};

use frame::station_of;
use setup::BAD_FORM;

// 02: "a line of its own", behind those of 16 stations.
const OWN_COLUMN: usize = 112;

// The figure of a verdict among the seven of its station: taken, then 11 to 16.
fn figure_of(number: u8) -> usize
    ensures { result ≡ figure_of number }
{
    if number < BAD_FORM {
        return 0;
    }
    number as usize - BAD_FORM as usize
}

// 02: "A frame refused by 10 or with a station not below n goes to a line of its own".
pub fn column_of(n: usize, number: u8, entry: &[u8]) -> usize
    requires { (n ≤ 16) × (given number ≡ true) }
    ensures { (result ≡ column_of n number (get_or entry.now 1 0)) × (result < figure_columns) }
{
    if number == BAD_FORM {
        return OWN_COLUMN;
    }
    let station = station_of(entry);
    if n <= station {
        return OWN_COLUMN;
    }
    7 * station + figure_of(number)
}

// 02, 2.8: "The yard's stations stand in one list, and a step changes exactly one of them."

#![tactic(auto)]

ghost use Rattle.std.specs.Prelude.{◌≡◌, ◌<◌, length, set};

use timestamp::Timestamp;

// 01: "n 1..16".
pub const MOST: usize = 16;

// A station whose ticks a trace plays: how many it has had, and the tables that the latest left. Its
// hold-back queue (01: shelf) is lent beside it.
#[derive(Clone, Copy)]
pub struct Station {
    pub ticks: usize,
    pub tables: Timestamp,
}

// Replaces one station, and no other.
pub fn replace(stations: &mut [Station], at: usize, station: Station)
    requires { at < length stations.old }
    ensures { stations.new ≡ set stations.old at station }
{
    stations[at] = station;
}

// The stations with one of them replaced: they are lent as a slice, and come back.
pub fn with_station(mut stations: [Station; MOST], at: usize, station: Station) -> [Station; MOST]
    requires { at < 16 }
    ensures { result ≡ set stations at station }
{
    replace(&mut stations, at, station);
    stations
}

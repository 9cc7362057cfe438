// The parts of a line, each written at a position where there is room for it; the answer is where it ends.
ghost use Rattle.std.specs.Prelude.{◌≡◌, true, [], ◌∷◌, ◌++◌, map, ◌+◌, ◌≤◌, ◌<◌, length};
ghost use Rattle.model.specs.Setup.{in_limits};
ghost use Rattle.model.specs.Frame.{decode};
ghost use Rattle.model.specs.Verdicts.{given};
ghost use Rattle.setup.specs.Views.{setup_of};
ghost use Rattle.text.specs.Text.{Put, decimal, space};
ghost use Rattle.words.specs.Words.{longest_line, or_dash, rule_word, word_of, rule_limits_of, spaced, line_of};
ghost use Rattle.words.specs.Answers.{shown};

use frame::{r_of, station_of};
use setup::{BAD_COUNT, BAD_FORM, BAD_RANGE, BAD_STAMP, EARLY, LATE, Setup};
use text::{put_decimal, put_field, put_word};

// 02: "For frames refused by 10 the station and r are a dash each".
fn put_or_dash(buf: &mut [u8], at: usize, number: u8, x: usize) -> usize
    requires { at + length (space ++ or_dash number x) ≤ length buf.old }
    ensures { Put buf.old at (space ++ or_dash number x) buf.new result }
{
    if number == BAD_FORM {
        return put_word(buf, at, b" -");
    }
    put_field(buf, at, b" ", x)
}

// 02: "the rule it failed (`form`, `range`, `stamp`, `late`, `early`, `count`, `repeat`, `full` for 10 to 17)"; with 2.7 for 10 to 16.
fn put_rule(buf: &mut [u8], at: usize, number: u8) -> usize
    requires { at + length (space ++ rule_word number) ≤ length buf.old }
    ensures { Put buf.old at (space ++ rule_word number) buf.new result }
{
    if number == BAD_FORM {
        return put_word(buf, at, b" form");
    }
    if number == BAD_RANGE {
        return put_word(buf, at, b" range");
    }
    if number == BAD_STAMP {
        return put_word(buf, at, b" stamp");
    }
    if number == LATE {
        return put_word(buf, at, b" late");
    }
    if number == EARLY {
        return put_word(buf, at, b" early");
    }
    if number == BAD_COUNT {
        return put_word(buf, at, b" count");
    }
    put_word(buf, at, b" repeat")
}

// 02: "either `taken` or the rule it failed".
fn put_verdict(buf: &mut [u8], at: usize, number: u8) -> usize
    requires { at + length (space ++ word_of number) ≤ length buf.old }
    ensures { Put buf.old at (space ++ word_of number) buf.new result }
{
    if number == 0 {
        return put_word(buf, at, b" taken");
    }
    put_rule(buf, at, number)
}

// The limits of a rule: how many it has, and they.
#[derive(Drop)]
pub struct RuleLimits {
    pub count: usize,
    pub first: usize,
    pub second: usize,
}

// Two limits.
fn two(first: usize, second: usize) -> RuleLimits
    ensures { shown result ≡ first ∷ second ∷ [] }
{
    RuleLimits {
        count: 2,
        first,
        second,
    }
}

// One.
fn one(first: usize) -> RuleLimits
    ensures { shown result ≡ first ∷ [] }
{
    RuleLimits {
        count: 1,
        first,
        second: 0,
    }
}

// 02: "that rule's limits (n and B for 11, n and ε − 1 for 12, δ + ε for 13, ε − 1 for 14, n − 1 for 15, …, none for the others)".
fn rule_limits_of(setup: Setup, number: u8) -> RuleLimits
    requires { in_limits (setup_of setup) ≡ true }
    ensures { shown result ≡ rule_limits_of (setup_of setup) number }
{
    let n = setup.n as usize;
    let epsilon = setup.epsilon as usize;
    let delta = setup.delta as usize;
    if number == BAD_RANGE {
        return two(n, setup.modulus as usize);
    }
    if number == BAD_STAMP {
        return two(n, epsilon - 1);
    }
    if number == LATE {
        return one(delta + epsilon);
    }
    if number == EARLY {
        return one(epsilon - 1);
    }
    if number == BAD_COUNT {
        return one(n - 1);
    }
    RuleLimits {
        count: 0,
        first: 0,
        second: 0,
    }
}

// The limits, each after a space, and the end of the line.
fn put_rule_limits(buf: &mut [u8], at: usize, l: RuleLimits) -> usize
    requires { at + length (spaced (map decimal (shown l))) ≤ length buf.old }
    ensures { Put buf.old at (spaced (map decimal (shown l))) buf.new result }
{
    if l.count == 0 {
        return put_word(buf, at, b"\n");
    }
    let after_first = put_field(buf, at, b" ", l.first);
    if l.count == 1 {
        return put_word(buf, after_first, b"\n");
    }
    let after_second = put_field(buf, after_first, b" ", l.second);
    put_word(buf, after_second, b"\n")
}

// 02: the line of an entry, "its place in the bundle from 0, station, r, and either `taken` or the rule it failed … with that
// rule's limits".
pub fn put_line(
    buf: &mut [u8],
    at: usize,
    setup: Setup,
    position: usize,
    number: u8,
    entry: &[u8],
) -> usize
    requires setup_value { (in_limits (setup_of setup) ≡ true) × (given number ≡ true) }
    requires position_bound { (position < 255) × (at + longest_line ≤ length buf.old) }
    ensures put { Put buf.old at (line_of (setup_of setup) position number (decode setup.epsilon entry.now)) buf.new result }
    ensures upper_bound { result ≤ at + longest_line }
{
    let limits = rule_limits_of(setup, number);
    let station = station_of(entry);
    let r = r_of(entry);
    let after_position = put_decimal(buf, at, position);
    let after_station = put_or_dash(buf, after_position, number, station);
    let after_r = put_or_dash(buf, after_station, number, r);
    let after_word = put_verdict(buf, after_r, number);
    put_rule_limits(buf, after_word, limits)
}

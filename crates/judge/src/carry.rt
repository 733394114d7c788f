// A carry against the reads that were kept.
ghost use Rattle.std.specs.Prelude.{◌≡◌, ◌≤◌};
ghost use Rattle.journal.specs.Journal.{standing, oldest_of, day_of};
ghost use Rattle.journal.specs.Sound.{carries_right};
ghost use Rattle.judge.specs.Inner.Run.{firsts};

use crate::body::Body;
use crate::run::Run;
use journal::carry::is_carry;
use journal::order::is_standing;

// The day of the first standing one among the first m entries, and 0 where none stands. Mostly the first of all stands.
fn oldest_day(body: Body, m: u8) -> u16
    requires { m ≤ body.most }
    ensures { result ≡ day_of (oldest_of (standing (firsts body.entry m))) }
{
    for k in 0..m {
        let e = body.at(k);
        if is_standing(e) {
            return e.day;
        }
    }
    0
}

// A head without a carry asks nothing of the entries.
pub(crate) fn carries_right(body: Body, run: Run) -> bool
    requires { run.count ≤ body.most }
    ensures { result ≡ carries_right body.entry.head (standing (firsts body.entry run.count)) }
{
    if !body.head.carried {
        return true;
    }
    let oldest = oldest_day(body, run.count);
    is_carry(body.head, body.limit, oldest)
}

// No standing read has both the day and the value of a withdrawn one.
ghost use Rattle.std.specs.Prelude.{◌≡◌, ◌≤◌};
ghost use Rattle.journal.specs.Journal.{standing, withdrawn};
ghost use Rattle.journal.specs.Sound.{are_apart};
ghost use Rattle.judge.specs.Inner.Run.{firsts};
ghost use Rattle.judge.specs.Inner.Pass.{IsPass};

use crate::body::Body;
use crate::halving::are_apart;
use crate::pass::Pass;

// They are compared only where the pass leaves it in doubt.
pub(crate) fn is_apart(body: Body, pass: Pass) -> bool
    requires { (pass.run.count ≤ body.most) × IsPass body.head body.bytes.now pass }
    ensures { result ≡ are_apart (standing (firsts body.entry pass.run.count)) (withdrawn (firsts body.entry pass.run.count)) }
{
    pass.apart || are_apart(body, pass.run.count, pass.run.day)
}

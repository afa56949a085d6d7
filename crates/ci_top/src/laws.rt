//! Laws of the definitions that the contract of the top call cites.
ghost use Rattle.ci_top.specs.OneCause.{OneCause};

use ci_source::one_meaning;
use ci_world::one_serial;

/// Over a shelf that tells its files and whose faults don't rise, two causes that hold of the same words are the same, unless
/// one is want of memory; where both are runs, what they keep is the same too. So each answer of the top call comes exactly where its
/// cause holds. This rests on the laws that sources have one meaning and that there is one round-robin run, which it calls.
pub fn one_cause()
    ensures { OneCause }
{
    one_meaning();
    one_serial();
}

// Worked values of the rules, as one proved fact about the definitions that the contracts use.
#![tactic(auto)]

ghost use Rattle.worked.specs.Example.{Example};
ghost use Rattle.worked.specs.Worked.{Worked};
ghost use Rattle.std.specs.Prelude.{◌≡◌};

use docks::fare;

// The definitions give the worked values. Nothing is done when it runs.
fn definitions_agree()
    ensures { Worked }
{}

// A run meets the premises of the law over whole runs. Nothing is done when it runs.
fn example_meets_the_premises()
    ensures { Example }
{}

// The worked values hold. The running code is asked for one of them: a minute at 15 tenths of a penny is 2 pence.
pub fn worked_values() -> u64
    ensures values { Worked }
    ensures example { Example }
    ensures fare { result ≡ 2 }
{
    definitions_agree();
    example_meets_the_premises();
    fare(1, 15)
}

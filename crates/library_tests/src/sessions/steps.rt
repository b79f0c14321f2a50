// A caller that counts its steps.
ghost use Rattle.std.specs.Prelude.{◌≡◌, ◌+◌, ◌<◌};

use name_index::Steps;
use std::marker::Brand;
use std::sync::ledger::{Blank, Ledger};

fn tick_twice<L: Ledger>(steps: &mut Steps<L>)
    ensures { steps.new ≡ steps.old + 2 }
{
    steps.tick();
    steps.tick();
}

// The number of bytes that a count takes at run time.
fn bytes_of_two_steps<L: Ledger>(blank: Blank) -> usize
    requires name { blank.name ≡ L.name }
    requires parts { blank.parts ≡ L.parts }
    requires some { 0 < blank.parts }
{
    let mut steps = Steps::<L>::new(blank);
    tick_twice(&mut steps);
    size_of_val(&steps)
}

#[test]
fn steps_are_counted_without_a_byte(rt: HostRuntime) {
    assert_eq!(rt; bytes_of_two_steps::<Brand>(Blank::new(1)), 0);
}

//! A number that is 7 as long as a truth holds, and what was told of it.
ghost use Rattle.std.specs.Prelude.{◌≡◌, ◌&&◌, ◌==◌, true};

use crate::{Keeper, Narrowing, Truth, Witness};
use std::marker::Brand;
use std::test::Fail;
use std::thread::join;

#[derive(Drop)]
struct Kept {
    value: u32,
    keeper: Keeper,
    ghost right: { keeper.holds ≡ true → value ≡ 7 },
}

// The number, and a witness of what it was when it was told.
fn tell(truth: &Truth, kept: &mut Kept) -> (u32, Witness)
    requires { kept.old.keeper.truth ≡ truth.now.id }
    ensures kept { kept.new.keeper ≡ kept.old.keeper }
    ensures witness { result.1.truth ≡ truth.now.id }
    ensures told { result.1.held ≡ true → result.0 ≡ 7 }
{
    let witness = truth.witness(&mut kept.keeper);
    (kept.value, witness)
}

fn change_as<N: Narrowing>(truth: &Truth, kept: &mut Kept, value: u32)
    requires truth { kept.old.keeper.truth ≡ truth.now.id }
    requires still { N.still ≡ (value == 7) }
    ensures { kept.new.keeper ≡ record kept.old.keeper { holds = kept.old.keeper.holds && value == 7 } }
{
    truth.narrow::<N>(&mut kept.keeper);
    kept.value = value;
}

// The number is another from then on, and the truth is lost where that is not 7.
fn change(truth: &Truth, kept: &mut Kept, value: u32)
    requires { kept.old.keeper.truth ≡ truth.now.id }
    ensures { kept.new.keeper ≡ record kept.old.keeper { holds = kept.old.keeper.holds && value == 7 } }
{
    change_as::<Brand>(truth, kept, value);
}

// What was told before was 7, if the truth still holds.
fn look_back(truth: &Truth, kept: &mut Kept, told: u32, witness: &mut Witness)
    requires truth { kept.old.keeper.truth ≡ truth.now.id }
    requires witness { witness.old.truth ≡ truth.now.id }
    requires told { witness.old.held ≡ true → told ≡ 7 }
    ensures kept { kept.new.keeper ≡ kept.old.keeper }
    ensures told { kept.new.keeper.holds ≡ true → told ≡ 7 }
{
    truth.look(&mut kept.keeper, witness);
}

#[test]
fn what_was_told_stays_true(rt: HostRuntime) -> Result<(), Fail> {
    let (truth, keeper) = Truth::new(rt.alloc())?;
    let mut kept = Kept { value: 7, keeper };
    let (first, mut early) = tell(&truth, &mut kept);
    change(&truth, &mut kept, 7);
    look_back(&truth, &mut kept, first, &mut early);
    change(&truth, &mut kept, 8);
    let (second, mut late) = tell(&truth, &mut kept);
    change(&truth, &mut kept, 7);
    look_back(&truth, &mut kept, second, &mut late);
    assert_eq!(rt; (first, second, kept.value), (7, 8, 7));
    Ok(())
}

// A witness looks so often.
fn look_often(
    truth: &Truth,
    mut keeper: Keeper,
    mut witness: Witness,
    times: u32,
) -> (Keeper, Witness)
    requires keeper { keeper.truth ≡ truth.now.id }
    requires witness { witness.truth ≡ truth.now.id }
    ensures keeper { result.0 ≡ keeper }
    ensures witness { result.1.truth ≡ truth.now.id }
{
    for _ in 0..times {
        truth.look(&mut keeper, &mut witness);
    }
    (keeper, witness)
}

#[test]
fn keepers_and_witnesses_go_to_other_threads(rt: HostRuntime) -> Result<(), Fail> {
    let (one, mut keeper) = Truth::new(rt.alloc())?;
    let witness = one.witness(&mut keeper);
    let (two, mut other_keeper) = Truth::new(rt.alloc())?;
    let other_witness = two.witness(&mut other_keeper);
    let ((mut keeper, mut witness), _others) = join(
        &rt,
        || look_often(&one, keeper, witness, 1000),
        || look_often(&two, other_keeper, other_witness, 1000),
    );
    one.look(&mut keeper, &mut witness);
    Ok(())
}

//! Coins in purses, each with its share of all coins, which threads move at once.
ghost use Rattle.std.specs.Prelude.{◌≡◌, ◌+◌, ◌-◌, ◌^◌, ◌<◌, ◌≤◌, [], ◌∷◌};
ghost use Rattle.ledger.specs.Coins.{coins_in};

use crate::{Ledger, NewParts, Rule, Share, SoundRule};
use std::marker::Brand;
use std::test::Fail;
use std::thread::join;

// In all purses there are as many coins as the key says, at first in one of four.
struct CoinRule;

impl Rule<u32, u32> for CoinRule {
    ghost use Rattle.ledger.specs.Coins.{AreCoins, first_coins};

    ghost exact = { AreCoins };

    ghost first = { first_coins };
}

impl SoundRule<u32, u32> for CoinRule {
    ghost use Rattle.ledger.specs.Coins.{first_are_coins, counted_in_any_order};

    ghost begins = { first_are_coins };

    ghost in_any_order = { counted_in_any_order };
}

type Coins = Ledger<u32, u32, CoinRule>;

#[derive(Drop)]
struct Purse {
    coins: u32,
    share: Share<u32>,
}

fn pay_as<N: NewParts<u32>>(coins: &Coins, from: &mut Purse, to: &mut Purse, amount: u32)
    requires from { from.old.share ≡ coins_in coins.now.id from.old.coins }
    requires to { to.old.share ≡ coins_in coins.now.id to.old.coins }
    requires enough { amount ≤ from.old.coins }
    requires range { coins.now.key < 2 ^ 32 }
    requires new { N.parts ≡ (from.old.coins - amount) ∷ (to.old.coins + amount) ∷ [] }
    ensures from { from.new ≡ record { coins = from.old.coins - amount; share = coins_in coins.now.id (from.old.coins - amount) } }
    ensures to { to.new ≡ record { coins = to.old.coins + amount; share = coins_in coins.now.id (to.old.coins + amount) } }
{
    coins.lend(&mut to.share, &mut from.share);
    coins.learn(&mut to.share);
    coins.settle::<N>(&mut to.share);
    from.share = coins.part(&mut to.share);
    from.coins -= amount;
    to.coins += amount;
}

// So many coins go from one purse to another, which has no more than there are.
fn pay(coins: &Coins, from: &mut Purse, to: &mut Purse, amount: u32)
    requires from { from.old.share ≡ coins_in coins.now.id from.old.coins }
    requires to { to.old.share ≡ coins_in coins.now.id to.old.coins }
    requires enough { amount ≤ from.old.coins }
    requires range { coins.now.key < 2 ^ 32 }
    ensures from { from.new ≡ record { coins = from.old.coins - amount; share = coins_in coins.now.id (from.old.coins - amount) } }
    ensures to { to.new ≡ record { coins = to.old.coins + amount; share = coins_in coins.now.id (to.old.coins + amount) } }
{
    pay_as::<Brand>(coins, from, to, amount);
}

// Pays a coin there and back so often, and then ten.
fn pay_often(coins: &Coins, mut one: Purse, mut two: Purse, times: u32) -> (Purse, Purse)
    requires one { one.share ≡ coins_in coins.now.id one.coins }
    requires two { two.share ≡ coins_in coins.now.id two.coins }
    requires enough { 10 ≤ one.coins }
    requires range { coins.now.key < 2 ^ 32 }
{
    for _ in 0..times {
        pay(coins, &mut one, &mut two, 1);
        pay(coins, &mut two, &mut one, 1);
    }
    pay(coins, &mut one, &mut two, 10);
    (one, two)
}

#[test]
fn coins_move_in_two_threads(rt: HostRuntime) -> Result<(), Fail> {
    let (coins, mut all) = Coins::new(rt.alloc(), &100)?;
    let mut one = Purse {
        coins: 100,
        share: coins.part(&mut all),
    };
    let two = Purse {
        coins: 0,
        share: coins.part(&mut all),
    };
    let mut three = Purse {
        coins: 0,
        share: coins.part(&mut all),
    };
    let four = Purse {
        coins: 0,
        share: coins.part(&mut all),
    };
    pay(&coins, &mut one, &mut three, 40);
    let ((one, two), (three, four)) = join(
        &rt,
        || pay_often(&coins, one, two, 1000),
        || pay_often(&coins, three, four, 1000),
    );
    assert_eq!(rt;
        [one.coins, two.coins, three.coins, four.coins],
        [50, 10, 30, 10]
    );
    Ok(())
}

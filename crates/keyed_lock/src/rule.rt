//! The rule of a lock's table, and what its steps tell.
use crate::fits::{Close, Fits};
use atomic_table::{Play, TableRule};
use std::marker::PhantomData;

/// What the slot of a lock's table holds while the value is there.
pub struct Held<T: Close> {
    pub value: T,
}

impl<T: Close> Held<T> {
    ghost use Rattle.std.specs.Prelude.{◌≡◌};

    /// The value.
    pub fn into_value(self) -> T
        ensures { result ≡ self.value }
    {
        let Held { value } = self;
        value
    }
}

impl<T: Close> Drop for Held<T> {
    fn drop(self) {
        let Held { value } = self;
        value.close();
    }
}

/// Where the word is 0, the value is in the slot, and fits the key.
pub struct LockRule<T, K> {
    marker: PhantomData<(T, K)>,
}

impl<T: Fits<K> + Close, K> TableRule<Option<Held<T>>, K, K> for LockRule<T, K> {
    ghost use Rattle.keyed_lock.specs.Rule.{IsKept};

    ghost holds = { λ key. IsKept (λ held. T.fits key held.value) };

    ghost first = { λ key. key };
}

/// A seat asks for the value: it has it where the word was 0.
pub struct Ask<T, K> {
    marker: PhantomData<(T, K)>,
}

impl<T: Fits<K> + Close, K> Play<Option<Held<T>>, K> for Ask<T, K> {
    ghost use Rattle.std.specs.Prelude.{◌≡◌};
    ghost use Rattle.keyed_lock.specs.Rule.{HasTaken};

    ghost then = { λ _ before found after. found ≡ 0 → HasTaken (λ held. T.fits before.0 held.value) after };
}

/// A new seat knows the key, and nothing else.
pub struct Enter;

impl<S, K> Play<S, K> for Enter {
    ghost use Rattle.std.specs.Prelude.{◌≡◌};

    ghost then = { λ _ before found after. after.0 ≡ before.0 };
}

/// A seat gives the value back, of which nothing more is told.
pub struct Release;

impl<S, K> Play<S, K> for Release {
    ghost then = { λ _ _ _ _. Unit {0} };
}

//! Free frames that come into a guest's hand, and leave it.
use crate::{MachineMemory, Stake};
use frames::FrameNo;
use page_moves::Pages;
use std::sync::Wait;
use swapstore::SwapStore;

impl<S: SwapStore + Drop> MachineMemory<S> {
    ghost use Rattle.std.specs.Prelude.{◌≡◌, ◌++◌, [], IfSome, IfNone};
    ghost use Rattle.std.specs.Option.{option_to_list};
    ghost use Rattle.shared_pool.specs.Balance.{hand_taken, Stands};
    ghost use Rattle.machine_memory.specs.Memories.{HasInHand, IsLevel};

    // A free frame comes into a guest's hand; None only where none was free at a moment of the call.
    #[tactic(auto, using(crate::proofs::Passing::pass_taken))]
    pub(crate) fn take<P: Pages, R: Wait>(
        &self,
        rt: &R,
        stake: &mut Stake,
        pages: &P,
    ) -> Option<FrameNo>
        requires { IsLevel self.now stake.old (P.pages pages.now) }
        ensures hand { HasInHand self.now stake.new (P.pages pages.now) (option_to_list result) }
        ensures taken { IfSome result (λ no. stake.new.pass.hand ≡ hand_taken stake.old.pass.hand no) }
        ensures unchanged { IfNone result (stake.new ≡ stake.old) }
        ensures contents { stake.new.contents ≡ stake.old.contents }
        ensures none { IfNone result (Stands stake.old.pass.hand []) }
    {
        match self.pool.take_as(rt, &mut stake.pass) {
            Some((no, account)) => {
                accounts::take(&self.books, &mut stake.share, account, pages, &no);
                Some(no)
            }
            None => None,
        }
    }

    // The frame in a guest's hand, if any, is free.
    #[tactic(auto, using(crate::proofs::Passing::pass_put, crate::proofs::Frames::nothing_given))]
    pub(crate) fn give<P: Pages, R: Wait>(
        &self,
        rt: &R,
        stake: &mut Stake,
        pages: &P,
        hand: Option<FrameNo>,
    )
        requires { HasInHand self.now stake.old (P.pages pages.now) (option_to_list hand) }
        ensures level { IsLevel self.now stake.new (P.pages pages.now) }
        ensures contents { stake.new.contents ≡ stake.old.contents }
        ensures given { stake.new.pass.hand ≡ record stake.old.pass.hand { put = stake.old.pass.hand.put ++ option_to_list hand } }
    {
        match hand {
            Some(no) => {
                let account = accounts::give(&self.books, &mut stake.share, pages, &no);
                self.pool.give_as(rt, &mut stake.pass, no, account);
            }
            None => {}
        }
    }
}

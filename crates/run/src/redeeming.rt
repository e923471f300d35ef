//! The calls of tickets.
ghost use Rattle.std.specs.Prelude.{◌≡◌, ◌++◌, ◌∷◌, []};
ghost use Rattle.run.specs.declared.calls.Call.{Call};
ghost use Rattle.run.specs.Places.{redeem_answer};
ghost use Rattle.run.specs.Runs.{Goes, MakesFew};

use crate::calls::{Answer, RedeemOutcome};
use crate::held::{Held, put_back, take_ticket};
use any_store::{Redeemed, Store};
use disk::Disk;

pub(crate) fn redeem<D: Disk>(store: &mut Store<D>, places: &mut [Held], ticket: usize) -> Answer
    ensures goes { Goes D.tells store.old places.old (Call.Redeem ticket) result store.new (places.new ++ Held.Nothing ∷ []) }
    ensures made { MakesFew store.old store.new }
{
    let Some(shown) = take_ticket(places, ticket) else {
        return Answer::Unknown;
    };
    let (answer, held) = redeemed(store.redeem(shown));
    put_back(places, ticket, held);
    answer
}

// The answer, and what is left of the ticket.
fn redeemed(outcome: Redeemed) -> (Answer, Held)
    ensures { result ≡ redeem_answer outcome }
{
    match outcome {
        Redeemed::Done(time) => (Answer::Redeem(RedeemOutcome::Done(time)), Held::Nothing),
        Redeemed::Waiting(ticket) => (Answer::Redeem(RedeemOutcome::Waiting), Held::Ticket(ticket)),
        Redeemed::InDoubt => (Answer::Redeem(RedeemOutcome::InDoubt), Held::Nothing),
        Redeemed::Stranger => (Answer::Redeem(RedeemOutcome::Stranger), Held::Nothing),
    }
}

pub(crate) fn give_up<D: Disk>(store: &Store<D>, places: &mut [Held], ticket: usize) -> Answer
    ensures { Goes D.tells store.now places.old (Call.GiveUp ticket) result store.now (places.new ++ Held.Nothing ∷ []) }
{
    let _ = store;
    let Some(given) = take_ticket(places, ticket) else {
        return Answer::Unknown;
    };
    given.give_up();
    Answer::GiveUp
}

//! What an application with a store may rely on: laws, each as a function with nothing to do. They are proved from
//! the public clauses of `run` and of `history` alone, and speak of a list of calls as it went, the `Trace` of
//! `run`, whose start is any moment of a store.
#![tactic(auto)]

ghost use Rattle.law_client.specs.Public.{Public};
ghost use Rattle.law_client.specs.Kept.{DoneIsRead, DoneIsKept, DoneIsUnchanged, PutIsRead, DeleteIsRead};
ghost use Rattle.law_client.specs.Conflicts.{FirstWins};
ghost use Rattle.law_client.specs.Settled.{PutSettles, SettledStays, SettledIsRead, SettledReopens, TimesStayKept};
ghost use Rattle.law_client.specs.Views.{ViewAnswersAgain, AnsweredIsSettled};
ghost use Rattle.law_client.specs.Reopened.{ReopeningIsOnce, SecondAnswersAsFirst};

use run::laws::StoredValue;

// The clauses that the laws stand on, and no others.
fn public_clauses()
    ensures { Public }
{
    run::laws::stops_survive();
    run::laws::writes_stand();
    run::laws::calls_link();
    run::laws::times_stay_kept();
    run::laws::done_names_its_submit();
    run::laws::writes_are_submitted();
    run::laws::views_stay();
    history::laws::later_changes_nothing::<StoredValue>();
    history::laws::run_adds::<StoredValue>();
    history::laws::answers_are_exact::<StoredValue>();
}

/// An acknowledged commit is read: where `Done` was answered for a ticket, the call that gave it
/// submitted a write set, and whoever opens a store on what any later stop leaves reads each of its
/// writes at the commit's time and until a later commit of the key, unless the device or memory gives
/// out; the image represents a history that has the commit. At the commit's own time that needs
/// nothing more than that no later floor is begun.
pub fn done_is_read()
    ensures read { DoneIsRead }
    ensures kept { DoneIsKept }
    ensures unchanged { DoneIsUnchanged }
{
    public_clauses();
}

/// So it is of the value that a transaction put last under a key, and of a key that it deleted, where
/// its snapshot had a value.
pub fn put_is_read()
    ensures put { PutIsRead }
    ensures delete { DeleteIsRead }
{
    public_clauses();
}

/// Of two transactions with one snapshot that wrote one key, `Done` is answered for one at most.
pub fn first_wins()
    ensures { FirstWins }
{
    public_clauses();
}

/// What a transaction put last is settled where `Done` was answered; what is settled stays so over
/// every list of calls, is read after any stop, and is settled again in the store that is opened then.
pub fn settled_stands()
    ensures put { PutSettles }
    ensures stays { SettledStays }
    ensures read { SettledIsRead }
    ensures reopens { SettledReopens }
    ensures kept { TimesStayKept }
{
    public_clauses();
}

/// What a view answered it answers again, and it is settled.
pub fn view_answers_again()
    ensures again { ViewAnswersAgain }
    ensures settled { AnsweredIsSettled }
{
    public_clauses();
}

/// Reopening twice is reopening once.
pub fn reopening_is_once()
    ensures once { ReopeningIsOnce }
    ensures second { SecondAnswersAsFirst }
{
    public_clauses();
}

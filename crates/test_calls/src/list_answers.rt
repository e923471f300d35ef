//! Answers to the calls of a list, as tables have them.
use crate::answers::are_records;
use any_store::{Did, JobDid};
use history::Version;
use run::{Answer, RedeemOutcome, SubmitOutcome};
use store::{PumpFault, QueryFault, SharedValue, StartFault, TxnFault};

/// What a call must answer.
#[derive(Clone, Copy)]
pub enum Want {
    /// No such value is held.
    Unknown,
    Begun,
    Put,
    Deleted,
    /// The key that is to be deleted has no value.
    Missing,
    /// Some value that a transaction sees.
    Value,
    /// The records that a transaction sees.
    Records(&'static [u64]),
    Queued,
    /// Nothing was written; the time of the snapshot.
    ReadOnly(u64),
    Aborted,
    Pump(Result<Did, PumpFault>),
    Redeem(RedeemOutcome),
    GivenUp,
    Viewed,
    /// Some value at a time, or none, or why it is not told.
    ValueAt,
    NoneAt,
    AtRefused(QueryFault),
    /// The records that have a value at a time.
    RecordsAt(&'static [u64]),
    /// From when and up to when the rows of a key go, or why they are not told.
    Rows(&'static [(u64, u64)]),
    RowsRefused(QueryFault),
    /// A relation has no row.
    NoRows,
    /// Some value at a time, from memory alone, or why it is not told.
    RecentValue,
    RecentRefused(QueryFault),
    Ended,
    Times(&'static [u64]),
    Archive(Result<(), StartFault>),
    Reclaim(Result<(), StartFault>),
    Floor(Result<(), StartFault>),
    Job(JobDid),
}

fn are_rows(rows: &[Version<SharedValue>], want: &[(u64, u64)]) -> bool {
    for (place, row) in rows.iter().enumerate() {
        let Some((from, to)) = want.get(place) else {
            return false;
        };
        if row.from != *from || row.to != *to {
            return false;
        }
    }
    rows.len() == want.len()
}

/// Whether this is the answer to a call of a transaction or a ticket.
fn is_of_writer(answer: &Answer, want: &Want) -> bool {
    match answer {
        Answer::Begin(Ok(())) => matches!(want, Want::Begun),
        Answer::Put(Ok(())) => matches!(want, Want::Put),
        Answer::Delete(Ok(())) => matches!(want, Want::Deleted),
        Answer::Delete(Err(TxnFault::Missing)) => matches!(want, Want::Missing),
        Answer::Get(Ok(Some(_))) => matches!(want, Want::Value),
        Answer::Scan(Ok(found)) => matches!(want, Want::Records(all) if are_records(found, all)),
        Answer::Submit(Ok(SubmitOutcome::Queued)) => matches!(want, Want::Queued),
        Answer::Submit(Ok(SubmitOutcome::ReadOnly(time))) => {
            matches!(want, Want::ReadOnly(snapshot) if time == snapshot)
        }
        Answer::Abort => matches!(want, Want::Aborted),
        Answer::Redeem(outcome) => matches!(want, Want::Redeem(all) if outcome == all),
        Answer::GiveUp => matches!(want, Want::GivenUp),
        _ => false,
    }
}

/// Whether this is the answer to a call of a view.
fn is_of_view(answer: &Answer, want: &Want) -> bool {
    match answer {
        Answer::View(Ok(())) => matches!(want, Want::Viewed),
        Answer::At(Ok(Some(_))) => matches!(want, Want::ValueAt),
        Answer::At(Ok(None)) => matches!(want, Want::NoneAt),
        Answer::At(Err(fault)) => matches!(want, Want::AtRefused(wanted) if fault == wanted),
        Answer::ScanAt(Ok(found)) => {
            matches!(want, Want::RecordsAt(all) if are_records(found, all))
        }
        Answer::Between(Ok(rows)) => matches!(want, Want::Rows(all) if are_rows(rows, all)),
        Answer::Between(Err(fault)) => {
            matches!(want, Want::RowsRefused(wanted) if fault == wanted)
        }
        Answer::ScanBetween(Ok(rows)) => matches!(want, Want::NoRows) && rows.is_empty(),
        Answer::Recent(Ok(Some(_))) => matches!(want, Want::RecentValue),
        Answer::Recent(Err(fault)) => {
            matches!(want, Want::RecentRefused(wanted) if fault == wanted)
        }
        Answer::End => matches!(want, Want::Ended),
        _ => is_of_writer(answer, want),
    }
}

/// Whether this is the answer.
pub fn is_answer(answer: &Answer, want: &Want) -> bool {
    match answer {
        Answer::Unknown => matches!(want, Want::Unknown),
        Answer::Pump(did) => matches!(want, Want::Pump(wanted) if did == wanted),
        Answer::TimesOf(Ok(times)) => matches!(want, Want::Times(all) if times.as_slice() == *all),
        Answer::Archive(began) => matches!(want, Want::Archive(wanted) if began == wanted),
        Answer::Reclaim(began) => matches!(want, Want::Reclaim(wanted) if began == wanted),
        Answer::Floor(began) => matches!(want, Want::Floor(wanted) if began == wanted),
        Answer::JobPump(Ok(did)) => matches!(want, Want::Job(wanted) if did == wanted),
        _ => is_of_view(answer, want),
    }
}

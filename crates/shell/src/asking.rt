//! The line of a script that asks a question.
ghost use Rattle.std.specs.Prelude.{◌≡◌, ◌≢◌};
ghost use Rattle.script.specs.declared.line.Line.TheVariants.{Reopen};
ghost use Rattle.shell.specs.Asking as told;

use any_store::Store;
use command_line::{Question, When};
use disk::Disk;
use script::Line;

/// The time that is asked about, by the floor of the relation and the last commit.
fn time_asked(floor: u64, last: u64, when: When) -> u64
    ensures { result ≡ told.time_asked floor last when }
{
    match when {
        When::First => floor,
        When::At(time) => time,
        When::Now => last,
    }
}

/// Where the interval ends that is asked about: up to now, just after the last commit.
fn end_asked(floor: u64, last: u64, when: When) -> u64
    ensures { result ≡ told.end_asked floor last when }
{
    match when {
        When::First => floor,
        When::At(time) => time,
        When::Now => last.saturating_add(1),
    }
}

/// The line that asks the question of a store.
pub fn line_asked<D: Disk>(question: Question, store: &Store<D>) -> Line<'static>
    ensures line { result ≡ told.line_asked question store.now }
    ensures opens { result ≢ Reopen }
{
    let last = store.last();
    match question {
        Question::Value(key, when) => {
            let floor = store.floors().at(key.relation);
            Line::At(key, time_asked(floor, last, when))
        }
        Question::Records(relation, when) => {
            let floor = store.floors().at(relation);
            Line::Scan(relation, time_asked(floor, last, when))
        }
        Question::Rows(key, from, to) => {
            let floor = store.floors().at(key.relation);
            let from = time_asked(floor, last, from);
            Line::Between(key, from, end_asked(floor, last, to))
        }
        Question::Times(label) => Line::Times(label),
    }
}

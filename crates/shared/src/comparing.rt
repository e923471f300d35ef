//! What a pass knows, compared with the writer's.
ghost use Rattle.std.specs.Prelude.{◌≡◌, true, false};
ghost use Rattle.crossbeam_utils.specs.Seq.{cell_view};
ghost use Rattle.shared.specs.Seen.{IsMore, known_by};

use crate::cell::{Confirm, Hear, PublishedCell, Tell, WriterPass};
use std::sync::Wait;

/// The writer's pass knows no less than a pass that is not the writer's.
pub(crate) fn confirm<R: Wait>(
    rt: &R,
    cell: &PublishedCell,
    pass: &mut WriterPass,
    writer: &mut WriterPass,
)
    requires cell { (pass.old.table_id ≡ cell.now.table.shared.table_id) × (writer.old.table_id ≡ cell.now.table.shared.table_id) }
    requires reads { (cell_view pass.old).writes ≡ false }
    requires writes { (cell_view writer.old).writes ≡ true }
    ensures pass { (pass.new.table_id ≡ pass.old.table_id) × (cell_view pass.new ≡ cell_view pass.old) }
    ensures more { IsMore (known_by (cell_view pass.old)) (known_by (cell_view writer.old)) }
    ensures writer { (writer.new.table_id ≡ writer.old.table_id) × ((cell_view writer.new).writes ≡ true)
        × ((cell_view writer.new).seen ≡ (cell_view writer.old).seen) × ((cell_view writer.new).archive ≡ (cell_view writer.old).archive)
        × ((cell_view writer.new).tokens ≡ (cell_view writer.old).tokens) }
{
    let mine = cell.split_pass::<Tell>(pass);
    cell.join_pass::<Hear>(writer, mine);
    cell.load_as::<Confirm, R>(rt, writer);
}

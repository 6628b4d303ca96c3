// Telling each record the declaration that it belongs to.
ghost use Rattle.std.specs.Prelude.{◌≡◌, ℕ, ◌<◌, ◌≤◌, length};
ghost use Rattle.standing.specs.Records.{declaration_in, record_at};
ghost use Rattle.acceptance.specs.Sheet.{lines_of};
ghost use Rattle.acceptance.specs.Scopes.{HasGlobals, declaration_at};

use crate::globals::Globals;
use crate::sheet_lines::Sheet;
use lines::records::Record;

// Fills the declaration of every record; the lines stay.
pub(crate) fn resolve(records: &mut [Record], globals: &Globals)
    requires few { length records.old ≤ 2048 }
    requires globals { HasGlobals (lines_of records.old) globals.now }
    ensures lines { lines_of records.new ≡ lines_of records.old }
    ensures told { (n : ℕ) → 0 < n → n ≤ length records.old → declaration_in (record_at records.new n) ≡ declaration_at (lines_of records.old) n }
{
    for index in 0..records.len() {
        let declaration = Sheet::new(records, globals).declaration_at(index + 1);
        records[index].declaration = declaration;
    }
}

ghost use Rattle.std.specs.Prelude.{◌+◌, ◌*◌, ◌≤◌, ◌≡◌, length};
ghost use Rattle.std.proofs.lemmas.List.Edits.{sets};
ghost use Rattle.settings.specs.Columns.{count};
ghost use Rattle.rows.specs.Row.{row_room};
ghost use Rattle.backup.specs.Text.{places, lines_for};

use tables::Table;

// Puts a line for each setting from a place on, and returns the place after them.
pub(crate) fn put_lines(table: Table, out: &mut [u8], start: usize) -> usize
    requires { start + row_room * count ≤ length out.old }
    ensures place { result ≡ start + length (lines_for places table) }
    ensures stored { out.new ≡ sets out.old start (lines_for places table) }
    ensures room { result ≤ length out.old }
{
    let mut at = start;
    for (index, number) in table.numbers.iter().enumerate() {
        let id = settings::setting_at(index).id;
        at += rows::write(id, *number, &mut out[at..]).unwrap();
    }
    at
}

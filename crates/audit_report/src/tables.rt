ghost use Rattle.std.specs.Prelude.{◌≡◌, ℕ, ◌<◌, ◌++◌, length, string_bytes, IfOk};
ghost use Rattle.multi_site_world.specs.World.{World as ModelWorld};
ghost use Rattle.multi_site_world.specs.Worlds.{StandsForWorld};
ghost use Rattle.audit_report.specs.Lines.{texts_below};
ghost use Rattle.audit_report.specs.Tables.{seat_row, seat_table, session_table};

use crate::lines::{SeatCounts, push_seat_line};
use crate::sessions::session_lines;
use multi_site_world::World;
use std::alloc::{AllocError, Global};

/// The seats of each record at each site, as the site itself counts them.
///
/// After a header there is a line for each record and site, by record and then by site: the record's name left in 16
/// places, the site right in 5, its rights in 8, the seats inside in 8, and its unfinished writers in 12. A number
/// that needs more places takes them. A site that does not know all sites yet shows what it knows. Takes memory for
/// the text alone; linear in the records, and in the square of the sites.
pub fn seat_table(alloc: Global, world: &World) -> Result<String, AllocError>
    ensures { IfOk result (λ text. (m : ModelWorld) → StandsForWorld m world.now → string_bytes text ≡ seat_table m) }
{
    let mut text = String::from_str(alloc, "record           site  rights  inside  unfinished\n")?;
    for r in 0..world.layout().records().len() as u16 {
        push_seat_rows(&mut text, world, r)?;
    }
    Ok(text)
}

/// Writes the lines of a record in the seat table.
fn push_seat_rows(text: &mut String, world: &World, r: u16) -> Result<(), AllocError>
    requires { r < length world.now.layout.records }
    ensures { IfOk result (λ _. (m : ModelWorld) → StandsForWorld m world.now
        → string_bytes text.new ≡ string_bytes text.old ++ texts_below m.layout.sites (λ i. seat_row m r i)) }
{
    for i in 0..world.layout().sites() {
        push_seat_row(text, world, r, i)?;
    }
    Ok(())
}

/// Writes the line of a record and a site, from the site's own book.
fn push_seat_row(text: &mut String, world: &World, r: u16, i: u16) -> Result<(), AllocError>
    requires record { r < length world.now.layout.records }
    requires site { i < world.now.layout.sites }
    ensures { IfOk result (λ _. (m : ModelWorld) → StandsForWorld m world.now
        → string_bytes text.new ≡ string_bytes text.old ++ seat_row m r i) }
{
    let name = world.layout().records()[usize::from(r)].name.as_str();
    let book = world.core(i).book();
    let counts = SeatCounts {
        rights: book.rights(r, i),
        inside: book.inside(r, i),
        unfinished: book.open_at(r, i),
    };
    push_seat_line(text, name, i, counts)
}

/// Who is at each record and site.
///
/// After a header there is a line for each reader, waiting writer and writer, by record, then by site, then in order
/// of arrival: the record's name left in 16 places, the site right in 5, the holder right in 15, two blanks and the
/// phase. Copies each site's durable part once, and holds the lines twice for a while: linear in the books and in the
/// text, and `n log n` in a site's sessions.
pub fn session_table(alloc: Global, world: &World) -> Result<String, AllocError>
    ensures { IfOk result (λ text. (m : ModelWorld) → StandsForWorld m world.now → string_bytes text ≡ session_table m) }
{
    let rows = session_lines(alloc, world)?;
    let mut text = String::from_str(alloc, "record           site         holder  phase\n")?;
    rows.push_onto(&mut text)?;
    Ok(text)
}

//! The lines of a world's sessions, record by record.
ghost use Rattle.std.specs.Prelude.{◌≡◌, ℕ, ◌<◌, ◌++◌, [], length, slice_index_or, IfOk, All};
ghost use Rattle.multi_site_world.specs.World.{World as ModelWorld, account_at};
ghost use Rattle.multi_site_world.specs.Worlds.{StandsForWorld};
ghost use Rattle.admission_model.specs.Account.{sessions_of};
ghost use Rattle.audit_report.specs.Tables.{session_rows};
ghost use Rattle.audit_report.specs.Writing.{AddsSessions, AddsSite, HasRows};

use crate::rows::Rows;
use merge_core::RecordSpec;
use multi_site_world::World;
use session_list::Session;
use std::alloc::{AllocError, Global};

/// The lines of all sites' sessions, for each record. Copies the durable part of each site once, and is linear in the
/// books and in the lines, and `n log n` in a site's sessions.
pub fn session_lines(alloc: Global, world: &World) -> Result<Rows, AllocError>
    ensures { IfOk result (λ rows. HasRows world.now world.now.layout.sites rows) }
{
    let mut rows = Rows::new(alloc, world.layout().records().len())?;
    for i in 0..world.layout().sites() {
        push_site(&mut rows, world, i)?;
    }
    Ok(rows)
}

/// Adds the lines of a site's sessions.
fn push_site(rows: &mut Rows, world: &World, i: u16) -> Result<(), AllocError>
    requires records { length rows.old ≡ length world.now.layout.records }
    requires site { i < world.now.layout.sites }
    ensures { IfOk result (λ _. AddsSite world.now i rows.old rows.new) }
{
    let sessions = sessions_of_site(world, i)?;
    push_sessions(rows, world.layout().records(), i, sessions.as_slice())
}

/// The sessions of a site, in order of arrival.
fn sessions_of_site(world: &World, i: u16) -> Result<Vec<Session>, AllocError>
    requires { i < world.now.layout.sites }
    ensures { IfOk result (λ list. (m : ModelWorld) → StandsForWorld m world.now → list.items ≡ sessions_of (account_at m i)) }
{
    let _ = world.layout(); // tells the invariant: a core for each site
    let durable = world.core(i).durable()?;
    let (_, sessions) = durable.into_parts();
    Ok(sessions)
}

/// Adds the lines of sessions at one site, each of which is at a record that there is.
fn push_sessions(
    rows: &mut Rows,
    records: &[RecordSpec],
    i: u16,
    sessions: &[Session],
) -> Result<(), AllocError>
    requires records { length rows.old ≡ length records.now }
    requires there { All (λ s. s.r < length records.now) sessions.now }
    ensures { IfOk result (λ _. AddsSessions records.now i sessions.now rows.old rows.new) }
{
    for session in sessions {
        let name = records[usize::from(session.r)].name.as_str();
        rows.push_session(name, i, *session)?;
    }
    Ok(())
}

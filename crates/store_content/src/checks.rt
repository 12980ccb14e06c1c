//! Whether the rows of a content are those of a site.
ghost use Rattle.std.specs.Prelude.{◌↔◌, IsTrue};
ghost use Rattle.std.specs.List.{AllByRecursion};
ghost use Rattle.store_rows.specs.Rows.{cell_before, notice_before, session_before};
ghost use Rattle.store_rows.specs.Sorted.{IsRising};
ghost use Rattle.store_content.specs.Content.{IsCounter, IsNotice, IsPlaced, HasRows};

use store_rows::{Content, StoredCell, StoredNotice, StoredSession};

/// The most that a place can be.
pub const MOST_PLACES: u64 = 1 << 62;

/// The greatest number of a site.
const LAST_SITE: u16 = 15;

/// Whether the rows of each table rise and each is one that can be. Linear.
pub fn has_rows(content: &Content) -> bool
    ensures { IsTrue result ↔ HasRows content.now }
{
    have_cells(&content.cells) && have_notices(&content.notices) && have_sessions(&content.sessions)
}

fn have_cells(cells: &[StoredCell]) -> bool
    ensures { IsTrue result ↔ (IsRising cell_before cells.now × AllByRecursion IsCounter cells.now) }
{
    cells_rise(cells) && cells.iter().all(|cell| is_counter(*cell))
}

fn have_notices(notices: &[StoredNotice]) -> bool
    ensures { IsTrue result ↔ (IsRising notice_before notices.now × AllByRecursion IsNotice notices.now) }
{
    notices_rise(notices) && notices.iter().all(|notice| is_notice(*notice))
}

fn have_sessions(sessions: &[StoredSession]) -> bool
    ensures { IsTrue result ↔ (IsRising session_before sessions.now × AllByRecursion IsPlaced sessions.now) }
{
    sessions_rise(sessions) && sessions.iter().all(|session| is_placed(*session))
}

// Always true, since the types of both numbers have 16 bits. The test lets the contract of a list of counters say so.
fn is_counter(cell: StoredCell) -> bool
    ensures { IsTrue result ↔ IsCounter cell }
{
    cell.r <= u16::MAX && cell.slot <= u16::MAX
}

fn is_notice(notice: StoredNotice) -> bool
    ensures { IsTrue result ↔ IsNotice notice }
{
    notice.site <= LAST_SITE && notice.announced < 1 << 63 && notice.finished < 1 << 63
}

fn is_placed(session: StoredSession) -> bool
    ensures { IsTrue result ↔ IsPlaced session }
{
    1 <= session.place && session.place <= MOST_PLACES
}

fn cells_rise(cells: &[StoredCell]) -> bool
    ensures { IsTrue result ↔ IsRising cell_before cells.now }
{
    for i in 1..cells.len() {
        if !cells[i - 1].is_before(cells[i]) {
            return false;
        }
    }
    true
}

fn notices_rise(notices: &[StoredNotice]) -> bool
    ensures { IsTrue result ↔ IsRising notice_before notices.now }
{
    for i in 1..notices.len() {
        if !notices[i - 1].is_before(notices[i]) {
            return false;
        }
    }
    true
}

fn sessions_rise(sessions: &[StoredSession]) -> bool
    ensures { IsTrue result ↔ IsRising session_before sessions.now }
{
    for i in 1..sessions.len() {
        if !sessions[i - 1].is_before(sessions[i]) {
            return false;
        }
    }
    true
}

use seat_rows::SeatRow;
use writer_notices::Notices;

/// What is known of one record: its seats and its writers.
#[derive(Debug, Drop)]
pub struct RecordState {
    pub seats: SeatRow,
    pub notices: Notices,
}

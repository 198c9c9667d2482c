//! Worked rows of where a creation finds no room.
ghost use Rattle.test_runs.specs.Rooms.{RoomRows};

/// The law that blocks which are placed one after the other fall short of room as the worked rows say. The call does nothing: its contract
/// is the law.
pub fn room_rows()
    ensures { RoomRows }
{}

//! The rooms of a conference, each with its lines.

ghost use Rattle.std.specs.Prelude.{◌≡◌, false, ◌<◌, ◌++◌, [], ◌∷◌, map, length, IfOk, OnOk, OnErr, string_bytes};
ghost use Rattle.indexmap.specs.IndexMap.{index_map_len, keys};
ghost use Rattle.cb_rooms.specs.View.{line_in};
ghost use Rattle.cb_rooms.specs.Places.{rooms_seen, with_line_at, has_room_seen};

use crate::shown::Shown;
use cb_times::NoMemory;
use indexmap::IndexMap;

/// Each room in the order in which they were first seen, with its lines in the order shown.
pub type Rooms = IndexMap<String, Vec<Shown>>;

/// One more line in the room at this place.
pub fn push_line(rooms: &mut Rooms, place: usize, shown: Shown) -> Result<(), NoMemory>
    requires { place < index_map_len rooms.old }
    ensures pushed { OnOk result (rooms_seen rooms.new
        ≡ with_line_at (rooms_seen rooms.old) place shown) }
    ensures err { OnErr result (rooms_seen rooms.new ≡ rooms_seen rooms.old) }
{
    rooms[place].push(shown)?;
    Ok(())
}

/// One more room, with its first line. No room has that name yet.
pub fn open_room(rooms: &mut Rooms, room: &str, shown: Shown) -> Result<(), NoMemory>
    requires { has_room_seen (rooms_seen rooms.old) room.now ≡ false }
    ensures opened { OnOk result (rooms_seen rooms.new
        ≡ rooms_seen rooms.old ++ (room.now, line_in room.now shown ∷ []) ∷ []) }
    ensures err { OnErr result (rooms_seen rooms.new ≡ rooms_seen rooms.old) }
{
    let alloc = *rooms.allocator();
    let name = String::from_str(alloc, room)?;
    let mut lines = Vec::new(alloc);
    lines.push(shown)?;
    rooms.insert(name, lines)?;
    Ok(())
}

/// The names of the rooms.
pub fn names(rooms: &Rooms) -> Result<Vec<&str>, NoMemory>
    ensures { IfOk result (λ names.
        map (λ name. name.now) names.items ≡ map string_bytes (keys rooms.now)) }
{
    let mut names = Vec::with_capacity(*rooms.allocator(), rooms.len())?;
    for room in rooms.keys() {
        names.push(room.as_str())?;
    }
    Ok(names)
}

ghost use Rattle.std.specs.Prelude.{◌≡◌, ℕ, ◌+◌, ◌*◌, ◌≤◌, length};
ghost use Rattle.write_room.specs.Rooms.{Seen, Takes, IsTight};

/// Appends to one room move at most three times the bits that stand there in the end, and 4,096: a bit is written once, and
/// what growth copies is paid by the rise of the room's size.
pub fn appends_are_bounded()
    ensures bounded { (old new : Seen) (before later : ℕ) → Takes old before new later → IsTight old → length old.bits ≡ 0 →
        later ≤ before + (3 * length new.bits + 4_096) }
    ensures tight { (old new : Seen) (before later : ℕ) → Takes old before new later → IsTight old → IsTight new }
{}
